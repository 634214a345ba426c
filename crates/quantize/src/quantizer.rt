// The quantizer, and a distribution that it quantizes: its intervals, by symbol, by quantile and by row.
ghost use Rattle.std.specs.Prelude.{◌≡◌, suc, ◌≤◌, ⊤, pos, ◌+ℤ◌, ◌≤ℤ◌};
ghost use Rattle.models.specs.Answers.{Makes};
ghost use Rattle.models.specs.Meaning.{Interval};
ghost use Rattle.quantize.specs.Extents.{Covers, means};
ghost use Rattle.quantize.specs.Quantized.{refusal};
ghost use Rattle.quantize.specs.ExtentsLemmas.{means_cut};
ghost use Rattle.std.proofs.Common.{rules};

use crate::cut::Cut;
use crate::extent::Extent;
use crate::narrow::NarrowSymbol;
use models::bits::BitArray;
use models::distribution::{Distribution, Inverse};
use models::fault::ModelFault;
use models::model::{DecoderModel, EncoderModel, EntropyModel, IterableEntropyModel};
use models::symbol::Symbol;
use std::alloc::AllocError;
use std::marker::PhantomData;

// A checked support of symbols of the type S, at a precision that probabilities of the type P have.
pub struct LeakyQuantizer<S: NarrowSymbol, P: BitArray> {
    extent: Extent,
    types: PhantomData<(S, P)>,
    ghost from: { S.least ≤ℤ extent.low },
    ghost to: { (extent.low +ℤ pos extent.span) ≤ℤ S.most },
    ghost fits: { extent.precision ≤ P.width },
}

// Tried with a derive: it does not reach ghost fields that speak of a type parameter.
impl<S: NarrowSymbol, P: BitArray> Copy for LeakyQuantizer<S, P> {}

impl<S: NarrowSymbol, P: BitArray> Clone for LeakyQuantizer<S, P> {
    ghost is_clone = { λ s r. r ≡ s };

    ghost is_infallible = { λ _. ⊤ };

    fn clone(&self) -> Result<Self, AllocError> {
        Ok(*self)
    }
}

#[derive(Drop)]
pub struct LeakilyQuantizedDistribution<S: NarrowSymbol, P: BitArray, D> {
    quantizer: LeakyQuantizer<S, P>,
    inner: D,
}

impl<S: NarrowSymbol, P: BitArray> LeakyQuantizer<S, P> {
    // A quantizer for the symbols from min to max, or the refusal: precision, order and span are checked in this order.
    pub fn new(min: S, max: S, precision: u32) -> Result<Self, ModelFault>
        ensures { Makes (refusal P.width precision (S.whole min) (S.whole max)) (λ z. Covers (S.whole min) (S.whole max) precision z.extent) result }
    {
        let extent = Extent::checked(P::bits(), min.to_whole(), max.to_whole(), precision)?;
        Ok(LeakyQuantizer {
            extent,
            types: PhantomData,
        })
    }

    // The distribution, quantized. Its heights are the distribution's.
    pub fn quantize<D: Distribution>(self, distribution: D) -> LeakilyQuantizedDistribution<S, P, D>
        ensures { (result.quantizer ≡ self) × (result.inner ≡ distribution) }
    {
        LeakilyQuantizedDistribution {
            quantizer: self,
            inner: distribution,
        }
    }

    // The support in whole numbers, and the precision.
    pub fn extent(&self) -> Extent
        ensures { result ≡ self.now.extent }
    {
        self.extent
    }

    // The lowest and the highest symbol.
    pub fn support(&self) -> (S, S)
        ensures from { S.whole result.0 ≡ self.now.extent.low }
        ensures to { S.whole result.1 ≡ self.now.extent.low +ℤ pos self.now.extent.span }
    {
        (self.symbol(0), self.symbol(self.extent.span()))
    }

    // The symbol of a row.
    fn symbol(&self, row: u64) -> S
        requires { row ≤ self.now.extent.span }
        ensures { S.whole result ≡ self.now.extent.low +ℤ pos row }
    {
        let whole = self.extent.low() + row as i64;
        let Some(symbol) = S::from_whole(whole as i128) else {
            unreachable()
        };
        symbol
    }
}

impl<S: NarrowSymbol, P: BitArray, D: Distribution> LeakilyQuantizedDistribution<S, P, D> {
    pub fn quantizer(&self) -> LeakyQuantizer<S, P>
        ensures { result ≡ self.now.quantizer }
    {
        self.quantizer
    }

    pub fn inner(&self) -> &D
        ensures { result.now ≡ self.now.inner }
    {
        &self.inner
    }

    // The lowest and the highest symbol.
    pub fn support(&self) -> (S, S)
        ensures from { S.whole result.0 ≡ self.now.quantizer.extent.low }
        ensures to { S.whole result.1 ≡ self.now.quantizer.extent.low +ℤ pos self.now.quantizer.extent.span }
    {
        self.quantizer.support()
    }

    // What the starts come from.
    fn cut(&self) -> Cut<'_, D>
        ensures { (result.extent ≡ self.now.quantizer.extent) × (result.by.now ≡ self.now.inner) }
    {
        Cut {
            extent: self.quantizer.extent,
            by: &self.inner,
        }
    }

    // The interval of a row: its start and its length.
    fn row(&self, row: u64) -> (P, P)
        requires { row ≤ self.now.quantizer.extent.span }
        ensures { Interval (means self.now.quantizer.extent (D.height self.now.inner)) row (P.value result.0) (P.value result.1) }
    {
        let cut = self.cut();
        let start = cut.start(row);
        let end = cut.start(row + 1);
        self.interval(row, start, end)
    }

    // A start and a length in the probability type, from where a row starts and ends: both are below 2^P.
    fn interval(&self, row: u64, start: u64, end: u64) -> (P, P)
        requires within { row ≤ self.now.quantizer.extent.span }
        requires starts { start ≡ (means self.now.quantizer.extent (D.height self.now.inner)).start row }
        requires ends { end ≡ (means self.now.quantizer.extent (D.height self.now.inner)).start (suc row) }
        ensures { Interval (means self.now.quantizer.extent (D.height self.now.inner)) row (P.value result.0) (P.value result.1) }
    {
        (
            P::wrapping_from_u64(start),
            P::wrapping_from_u64(end - start),
        )
    }
}

impl<S: NarrowSymbol, P: BitArray, D: Distribution> EntropyModel
    for LeakilyQuantizedDistribution<S, P, D> {
    type Symbol = S;

    type Probability = P;

    ghost meaning = { λ m. means m.quantizer.extent (D.height m.inner) };

    ghost cuts = { λ m. means_cut m.quantizer.extent _ (D.lawful m.inner) };

    ghost fits = { Prim.search rules };
}

impl<S: NarrowSymbol, P: BitArray, D: Distribution> EncoderModel
    for LeakilyQuantizedDistribution<S, P, D> {
    fn left_cumulative_and_probability(&self, symbol: S) -> Option<(P, P)> {
        let row = self.quantizer.extent.row_of(symbol.to_whole())?;
        Some(self.row(row))
    }
}

impl<S: NarrowSymbol, P: BitArray, D: Inverse> DecoderModel
    for LeakilyQuantizedDistribution<S, P, D> {
    fn quantile_function(&self, quantile: P) -> Result<(S, P, P), ModelFault> {
        let extent = self.quantizer.extent;
        let q = quantile.to_u64();
        if q >= extent.quantiles() {
            return Err(ModelFault::Beyond);
        }
        let (row, (start, end)) = self.cut().lookup(q);
        let (left, probability) = self.interval(row, start, end);
        Ok((self.quantizer.symbol(row), left, probability))
    }
}

impl<S: NarrowSymbol, P: BitArray, D: Distribution> IterableEntropyModel
    for LeakilyQuantizedDistribution<S, P, D> {
    fn lowest_symbol(&self) -> S {
        self.quantizer.symbol(0)
    }

    fn highest_symbol(&self) -> S {
        self.quantizer.symbol(self.quantizer.extent.span())
    }

    fn precision(&self) -> u32 {
        self.quantizer.extent.precision()
    }

    fn symbol_table(&self, index: usize) -> Option<(S, P, P)> {
        let row = index as u64;
        if row > self.quantizer.extent.span() {
            return None;
        }
        let (left, probability) = self.row(row);
        Some((self.quantizer.symbol(row), left, probability))
    }

    fn left_cumulative(&self, index: usize) -> Option<u64> {
        let extent = self.quantizer.extent;
        let row = index as u64;
        if row > extent.span() + 1 {
            return None;
        }
        Some(self.cut().start(row))
    }
}
