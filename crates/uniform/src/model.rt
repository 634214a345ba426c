// The uniform model: its checked range, and its intervals by symbol, by quantile and by row.
ghost use Rattle.std.specs.Prelude.{◌≡◌, ◌/◌, ◌^◌, ◌<◌, ◌≤◌, ⊤, pos};
ghost use Rattle.models.specs.Answers.{Makes, IsRow};
ghost use Rattle.models.specs.Meaning.{Interval, Holds};
ghost use Rattle.uniform.specs.Uniform.{uniform, refusal};
ghost use Rattle.uniform.specs.EvenCuts.{even_cuts};
ghost use Rattle.std.proofs.Common.{rules};

use models::bits::BitArray;
use models::fault::ModelFault;
use models::model::{DecoderModel, EncoderModel, EntropyModel, IterableEntropyModel};
use std::alloc::AllocError;
use std::marker::PhantomData;

// The symbols 0 to range - 1, with probabilities of the type P.
pub struct UniformModel<P: BitArray> {
    range: u64,
    precision: u32,
    // of every symbol's interval but the last one's
    length: u64,
    probability: PhantomData<P>,
    ghost some: { 0 < precision },
    ghost fits: { precision ≤ P.width },
    ghost many: { 2 ≤ range },
    ghost room: { range ≤ 2 ^ precision },
    ghost even: { length ≡ 2 ^ precision / range },
}

// Tried with a derive: it does not reach ghost fields that speak of a type parameter.
impl<P: BitArray> Copy for UniformModel<P> {}

impl<P: BitArray> Clone for UniformModel<P> {
    ghost is_clone = { λ s r. r ≡ s };

    ghost is_infallible = { λ _. ⊤ };

    fn clone(&self) -> Result<Self, AllocError> {
        Ok(*self)
    }
}

impl<P: BitArray> UniformModel<P> {
    // A model over the symbols 0 to range - 1, or the refusal: the precision is checked first, then the range.
    pub fn new(precision: u32, range: usize) -> Result<Self, ModelFault>
        ensures { Makes (refusal P.width precision range) (λ u. uniform u.precision u.range ≡ uniform precision range) result }
    {
        if !(1..=P::bits()).contains(&precision) {
            return Err(ModelFault::Precision);
        }
        let quantiles = 1u64 << precision;
        if range < 2 || range as u64 > quantiles {
            return Err(ModelFault::Range);
        }
        Ok(UniformModel {
            range: range as u64,
            precision,
            length: quantiles / range as u64,
            probability: PhantomData,
        })
    }

    // How many quantiles there are.
    fn quantiles(&self) -> u64
        ensures { result ≡ 2 ^ self.now.precision }
    {
        1u64 << self.precision
    }

    // The start and the length of a row's interval: the last row takes the rest.
    fn interval(&self, row: u64) -> (u64, u64)
        requires { row < self.now.range }
        ensures { Interval (uniform self.now.precision self.now.range) row result.0 result.1 }
    {
        let start = row * self.length;
        if row + 1 < self.range {
            (start, self.length)
        } else {
            (start, self.quantiles() - start)
        }
    }

    // The row that holds a quantile.
    fn row_of(&self, quantile: u64) -> u64
        requires { quantile < 2 ^ self.now.precision }
        ensures { Holds (uniform self.now.precision self.now.range) quantile result }
    {
        let guess = quantile / self.length;
        guess.min(self.range - 1)
    }

    // A row as the table has it.
    fn row(&self, row: u64) -> (usize, P, P)
        requires { row < self.now.range }
        ensures { IsRow pos P.value (uniform self.now.precision self.now.range) row result }
    {
        let (start, length) = self.interval(row);
        (
            row as usize,
            P::wrapping_from_u64(start),
            P::wrapping_from_u64(length),
        )
    }
}

impl<P: BitArray> EntropyModel for UniformModel<P> {
    type Symbol = usize;

    type Probability = P;

    ghost meaning = { λ u. uniform u.precision u.range };

    ghost cuts = { λ u. even_cuts _ _ u.many u.room };

    ghost fits = { Prim.search rules };
}

impl<P: BitArray> EncoderModel for UniformModel<P> {
    fn left_cumulative_and_probability(&self, symbol: usize) -> Option<(P, P)> {
        if symbol as u64 >= self.range {
            return None;
        }
        let (_, left, probability) = self.row(symbol as u64);
        Some((left, probability))
    }
}

impl<P: BitArray> DecoderModel for UniformModel<P> {
    fn quantile_function(&self, quantile: P) -> Result<(usize, P, P), ModelFault> {
        let q = quantile.to_u64();
        if q >= self.quantiles() {
            return Err(ModelFault::Beyond);
        }
        Ok(self.row(self.row_of(q)))
    }
}

impl<P: BitArray> IterableEntropyModel for UniformModel<P> {
    fn lowest_symbol(&self) -> usize {
        0
    }

    fn highest_symbol(&self) -> usize {
        (self.range - 1) as usize
    }

    fn precision(&self) -> u32 {
        self.precision
    }

    fn symbol_table(&self, index: usize) -> Option<(usize, P, P)> {
        if index as u64 >= self.range {
            return None;
        }
        Some(self.row(index as u64))
    }

    fn left_cumulative(&self, index: usize) -> Option<u64> {
        let row = index as u64;
        if row > self.range {
            None
        } else if row == self.range {
            Some(self.quantiles())
        } else {
            Some(row * self.length)
        }
    }
}
