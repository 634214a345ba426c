// Why a call has no answer, and how an answer is told to the caller.
ghost use Rattle.std.specs.Prelude.{◌≡◌};
ghost use Rattle.toghinzu.specs.Told.{status_of, place_of};
ghost use Rattle.records.specs.declared.fault.RecordFault.TheVariants.{Model};
ghost use Rattle.toghinzu.specs.declared.refused.Refused.TheVariants.{Fault};

use models::fault::ModelFault;
use records::fault::RecordFault;

#[derive(Clone, Copy)]
pub(crate) enum Refused {
    // the channel, or what it is asked, is refused
    Fault(RecordFault),
    // the symbol is not in the support
    Outside,
}

impl From<RecordFault> for Refused {
    ghost from_gives = { λ f r. r ≡ Fault f };

    fn from(fault: RecordFault) -> Refused {
        Refused::Fault(fault)
    }
}

impl From<ModelFault> for Refused {
    ghost from_gives = { λ f r. r ≡ Fault (Model f) };

    fn from(fault: ModelFault) -> Refused {
        Refused::Fault(fault.into())
    }
}

// Writes an answer to the place of the caller, which stays as it was where there is none, and gives the status.
pub(crate) fn tell<T: Copy>(answer: Result<T, Refused>, place: &mut T) -> i32
    ensures status { result ≡ status_of answer }
    ensures place { place.new ≡ place_of place.old answer }
{
    match answer {
        Ok(value) => {
            *place = value;
            0
        }
        Err(Refused::Fault(fault)) => fault.number() as i32,
        Err(Refused::Outside) => -1,
    }
}
