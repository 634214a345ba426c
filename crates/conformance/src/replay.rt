// Runs a case on the models of this library, and judges what the original answered.
ghost use Rattle.conformance.specs.Cases.{MakeTried, PeakTried, Replayed, SupportTried, UniformTried, width_of};

use crate::judging::{Unjudged, Verdict, judge};
use distributions::peak::Peak;
use models::bits::BitArray;
use models::distribution::Inverse;
use models::symbol::Symbol;
use quantize::narrow::NarrowSymbol;
use quantize::quantizer::LeakyQuantizer;
use samples::case::{Case, Quantized, SymbolType, Uniform, Width};
use samples::claim::Claim;
use trials::misguided::Misguided;
use uniform::model::UniformModel;

// The verdict that the rules settle for a case.
pub fn replay(case: Case) -> Verdict
    ensures { Replayed case result }
{
    match case {
        Case::OfPeak(model, guess, claim) => of_peak(model, guess, claim),
        Case::OfUniform(model, claim) => of_uniform(model, claim),
    }
}

// The two makes of a uniform model.
fn of_uniform(model: Uniform, claim: Claim) -> Verdict
    ensures { UniformTried (width_of model.width) model claim result }
{
    match model.width {
        Width::Bits16 => on_range::<u16>(model, claim),
        Width::Bits32 => on_range::<u32>(model, claim),
    }
}

fn on_range<P: BitArray>(model: Uniform, claim: Claim) -> Verdict
    ensures { UniformTried P.width model claim result }
{
    let even = UniformModel::<P>::new(model.precision, model.range)?;
    judge(&even, claim)
}

fn of_peak(model: Quantized, guess: Option<f64>, claim: Claim) -> Verdict
    ensures { PeakTried model claim result }
{
    let peak = Peak::new(model.centre, model.scale)?;
    match guess {
        None => Question {
            model,
            distribution: peak,
            claim,
        }
        .judged(),
        Some(guess) => Question {
            model,
            distribution: Misguided::constant(peak, guess),
            claim,
        }
        .judged(),
    }
}

// A claim about a quantized Peak, with the distribution that stands for the Peak.
#[derive(Drop)]
struct Question<D> {
    model: Quantized,
    distribution: D,
    claim: Claim,
}

// The eight makes of a quantizer: four symbol types, then two widths of each.
impl<D: Inverse + Drop> Question<D> {
    fn judged(self) -> Verdict
        ensures { MakeTried (D.Distribution.height self.distribution) self.model self.claim result }
    {
        match self.model.symbols {
            SymbolType::I16 => self.over::<i16>(),
            SymbolType::U16 => self.over::<u16>(),
            SymbolType::I32 => self.over::<i32>(),
            SymbolType::U32 => self.over::<u32>(),
        }
    }

    fn over<S: NarrowSymbol>(self) -> Verdict
        ensures { SupportTried S.least S.most (width_of self.model.width) (D.Distribution.height self.distribution) self.model self.claim result }
    {
        match self.model.width {
            Width::Bits16 => self.on_support::<S, u16>(),
            Width::Bits32 => self.on_support::<S, u32>(),
        }
    }

    fn on_support<S: NarrowSymbol, P: BitArray>(self) -> Verdict
        ensures { SupportTried S.least S.most P.width (D.Distribution.height self.distribution) self.model self.claim result }
    {
        let min = S::from_whole(self.model.min).ok_or(Unjudged::Misfits)?;
        let max = S::from_whole(self.model.max).ok_or(Unjudged::Misfits)?;
        let quantizer = LeakyQuantizer::<S, P>::new(min, max, self.model.precision)?;
        judge(&quantizer.quantize(self.distribution), self.claim)
    }
}
