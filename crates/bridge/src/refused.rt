// Why nothing is asked, and the status that tells it.
use distributions::fault::DistributionFault;
use models::fault::ModelFault;

#[derive(Clone, Copy)]
pub(crate) enum Refused {
    Model(ModelFault),
    Distribution(DistributionFault),
    // there is no such make, shape, guessing or width, or an end is no symbol of the make
    NoneSuch,
}

impl From<ModelFault> for Refused {
    fn from(fault: ModelFault) -> Refused {
        Refused::Model(fault)
    }
}

impl From<DistributionFault> for Refused {
    fn from(fault: DistributionFault) -> Refused {
        Refused::Distribution(fault)
    }
}

// 0 where all was answered, else the number of the refusal.
pub(crate) fn status<T: Drop>(answer: Result<T, Refused>) -> i32 {
    match answer {
        Ok(_) => 0,
        Err(Refused::Model(fault)) => fault.number() as i32,
        Err(Refused::Distribution(fault)) => fault.number() as i32,
        Err(Refused::NoneSuch) => 255,
    }
}
