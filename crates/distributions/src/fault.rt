// The refusals of the distribution layer, and what each is called.
ghost use Rattle.std.specs.Prelude.{◌≡◌, Some};
ghost use Rattle.distributions.specs.Faults.{layer_of, number_of, place_of, word_of};

use std::error::Error;
use std::fmt;

#[derive(Clone, Copy, PartialEq, Eq, Debug)]
pub enum DistributionFault {
    // a Peak's centre or scale is outside its limits
    Shape,
    // a Profile's table breaks a rule, with the index of the first bad knot
    Knots(u32),
}

impl DistributionFault {
    pub fn layer(&self) -> u8
        ensures { result ≡ layer_of self.now }
    {
        3
    }

    pub fn number(&self) -> u8
        ensures { result ≡ number_of self.now }
    {
        match self {
            DistributionFault::Shape => 5,
            DistributionFault::Knots(_) => 6,
        }
    }

    pub fn place(&self) -> u32
        ensures { result ≡ place_of self.now }
    {
        match self {
            DistributionFault::Shape => 0,
            DistributionFault::Knots(place) => *place,
        }
    }
}

impl fmt::Display for DistributionFault {
    ghost output = { λ f. Some (word_of f) };

    fn fmt<W: fmt::Write>(&self, f: &mut fmt::Formatter<W>) -> fmt::Result {
        f.write_str(match self {
            DistributionFault::Shape => "shape",
            DistributionFault::Knots(_) => "knots",
        })
    }
}

impl Error for DistributionFault {}
