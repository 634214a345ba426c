// The judgement of a claim about a model, by the model's own calls.
ghost use Rattle.std.specs.Prelude.{◌≡◌, Ok, Some, Decides};
ghost use Rattle.models.specs.Answers.{Encodes, Searches};
ghost use Rattle.conformance.specs.Claims.{LikelyBits, Judged, text_of};
ghost use Rattle.conformance.specs.declared.judging.Unjudged.TheVariants.{Distribution, Model};

use distributions::fault::DistributionFault;
use measures::probability::floating_point_probability;
use models::bits::BitArray;
use models::fault::ModelFault;
use models::model::{DecoderModel, EncoderModel, EntropyModel, IterableEntropyModel};
use models::symbol::Symbol;
use samples::claim::Claim;
use std::error::Error;
use std::fmt;
use std::num::f64_to_bits_with_nan;

// Why a claim is not judged.
#[derive(Clone, Copy, PartialEq, Eq, Debug)]
pub enum Unjudged {
    // a symbol or a quantile is not of the model's types
    Misfits,
    // the model is refused
    Model(ModelFault),
    // its distribution is refused
    Distribution(DistributionFault),
}

impl fmt::Display for Unjudged {
    ghost output = { λ why. Some (text_of why) };

    fn fmt<W: fmt::Write>(&self, f: &mut fmt::Formatter<W>) -> fmt::Result {
        match self {
            Unjudged::Misfits => write!(f, "not of the model's types"),
            Unjudged::Model(fault) => write!(f, "refused {}", fault.number()),
            Unjudged::Distribution(fault) => write!(f, "refused {}", fault.number()),
        }
    }
}

impl Error for Unjudged {}

impl From<ModelFault> for Unjudged {
    ghost from_gives = { λ fault e. e ≡ Model fault };

    fn from(fault: ModelFault) -> Unjudged {
        Unjudged::Model(fault)
    }
}

impl From<DistributionFault> for Unjudged {
    ghost from_gives = { λ fault e. e ≡ Distribution fault };

    fn from(fault: DistributionFault) -> Unjudged {
        Unjudged::Distribution(fault)
    }
}

// Whether the claim agrees with the model.
pub type Verdict = Result<bool, Unjudged>;

// The interval of a symbol, in numbers of no type.
pub fn interval<M: EncoderModel>(model: &M, symbol: M::Symbol) -> Option<(u64, u64)>
    ensures { Encodes (λ n. n) (M.EntropyModel.meaning model.now) (M.Symbol.Symbol.whole symbol) result }
{
    let (start, length) = model.left_cumulative_and_probability(symbol)?;
    Some((start.to_u64(), length.to_u64()))
}

// The row of a quantile, in numbers of no type.
pub fn row<M: DecoderModel>(
    model: &M,
    quantile: M::Probability,
) -> Result<(i128, u64, u64), ModelFault>
    ensures { Searches (λ k. k) (λ n. n) (M.EntropyModel.meaning model.now) (M.Probability.BitArray.value quantile) result }
{
    let (symbol, start, length) = model.quantile_function(quantile)?;
    Ok((symbol.to_whole(), start.to_u64(), length.to_u64()))
}

fn encoded<M: EncoderModel>(model: &M, symbol: M::Symbol, said: Option<(u64, u64)>) -> bool
    ensures { Decides result (Encodes (λ n. n) (M.EntropyModel.meaning model.now) (M.Symbol.Symbol.whole symbol) said) }
{
    interval(model, symbol) == said
}

fn found<M: DecoderModel>(model: &M, quantile: M::Probability, said: (i128, u64, u64)) -> bool
    ensures { Decides result (Searches (λ k. k) (λ n. n) (M.EntropyModel.meaning model.now) (M.Probability.BitArray.value quantile) (Ok said)) }
{
    row(model, quantile) == Ok(said)
}

fn likely<M: EncoderModel + IterableEntropyModel>(model: &M, symbol: M::Symbol, said: u64) -> bool
    ensures { Decides result (LikelyBits (M.EntropyModel.meaning model.now) (M.Symbol.Symbol.whole symbol) said) }
{
    f64_to_bits_with_nan(floating_point_probability(model, symbol)) == said
}

// A symbol or a quantile that the types do not have is no claim about the model.
pub fn judge<M: EncoderModel + DecoderModel + IterableEntropyModel>(
    model: &M,
    claim: Claim,
) -> Verdict
    ensures { Judged M.Symbol.Symbol.least M.Symbol.Symbol.most M.Probability.BitArray.width (M.EntropyModel.meaning model.now) claim result }
{
    match claim {
        Claim::Encoded(symbol, said) => {
            let symbol = M::Symbol::from_whole(symbol).ok_or(Unjudged::Misfits)?;
            Ok(encoded(model, symbol, said))
        }
        Claim::Searched(quantile, said) => {
            let quantile = M::Probability::from_u64(quantile).ok_or(Unjudged::Misfits)?;
            Ok(found(model, quantile, said))
        }
        Claim::Likely(symbol, said) => {
            let symbol = M::Symbol::from_whole(symbol).ok_or(Unjudged::Misfits)?;
            Ok(likely(model, symbol, said))
        }
    }
}
