// The refusals of the record layer, which carry those of the layers below whole.
ghost use Rattle.std.specs.Prelude.{◌≡◌, Some};
ghost use Rattle.records.specs.Faults.{layer_of, number_of, place_of, word_of};
ghost use Rattle.records.specs.declared.fault.RecordFault.TheVariants.{Model, Distribution};

use distributions::fault::DistributionFault;
use models::fault::ModelFault;
use std::error::Error;
use std::fmt;

#[derive(Clone, Copy, PartialEq, Eq, Debug)]
pub enum RecordFault {
    // the offset of the first byte at fault, or the length of a piece that is too short
    Malformed(u32),
    // the model that the record describes is refused
    Model(ModelFault),
    // the distribution of that model is refused
    Distribution(DistributionFault),
}

impl From<ModelFault> for RecordFault {
    ghost from_gives = { λ f r. r ≡ Model f };

    fn from(fault: ModelFault) -> RecordFault {
        RecordFault::Model(fault)
    }
}

impl From<DistributionFault> for RecordFault {
    ghost from_gives = { λ f r. r ≡ Distribution f };

    fn from(fault: DistributionFault) -> RecordFault {
        RecordFault::Distribution(fault)
    }
}

impl RecordFault {
    pub fn layer(&self) -> u8
        ensures { result ≡ layer_of self.now }
    {
        match self {
            RecordFault::Malformed(_) => 1,
            RecordFault::Model(fault) => fault.layer(),
            RecordFault::Distribution(fault) => fault.layer(),
        }
    }

    pub fn number(&self) -> u8
        ensures { result ≡ number_of self.now }
    {
        match self {
            RecordFault::Malformed(_) => 8,
            RecordFault::Model(fault) => fault.number(),
            RecordFault::Distribution(fault) => fault.number(),
        }
    }

    pub fn place(&self) -> u32
        ensures { result ≡ place_of self.now }
    {
        match self {
            RecordFault::Malformed(place) => *place,
            RecordFault::Model(fault) => fault.place(),
            RecordFault::Distribution(fault) => fault.place(),
        }
    }
}

impl fmt::Display for RecordFault {
    ghost output = { λ f. Some (word_of f) };

    fn fmt<W: fmt::Write>(&self, f: &mut fmt::Formatter<W>) -> fmt::Result {
        match self {
            RecordFault::Malformed(_) => f.write_str("record"),
            RecordFault::Model(fault) => fault.fmt(f),
            RecordFault::Distribution(fault) => fault.fmt(f),
        }
    }
}

impl Error for RecordFault {}

// A refused record: the number of its channel, counted from 0, and why.
#[derive(Clone, Copy)]
pub struct Refusal {
    pub channel: u32,
    pub fault: RecordFault,
}
