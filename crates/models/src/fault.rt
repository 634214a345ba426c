// The refusals of the model layer, and what each is called.
ghost use Rattle.std.specs.Prelude.{◌≡◌, Some};
ghost use Rattle.models.specs.Faults.{layer_of, number_of, place_of, word_of};

use std::error::Error;
use std::fmt;

#[derive(Clone, Copy, PartialEq, Eq, Debug)]
pub enum ModelFault {
    // P is 0 or above the probability type's width
    Precision,
    // the highest symbol is not above the lowest
    Order,
    // the support has more symbols than there are quantiles
    Span,
    // a quantile is 2^P or more
    Beyond,
    // a uniform range is below 2 or above 2^P
    Range,
}

impl ModelFault {
    pub fn layer(&self) -> u8
        ensures { result ≡ layer_of self.now }
    {
        2
    }

    pub fn number(&self) -> u8
        ensures { result ≡ number_of self.now }
    {
        match self {
            ModelFault::Precision => 1,
            ModelFault::Order => 2,
            ModelFault::Span => 3,
            ModelFault::Beyond => 4,
            ModelFault::Range => 7,
        }
    }

    pub fn place(&self) -> u32
        ensures { result ≡ place_of self.now }
    {
        0
    }
}

impl fmt::Display for ModelFault {
    ghost output = { λ f. Some (word_of f) };

    fn fmt<W: fmt::Write>(&self, f: &mut fmt::Formatter<W>) -> fmt::Result {
        f.write_str(match self {
            ModelFault::Precision => "precision",
            ModelFault::Order => "order",
            ModelFault::Span => "span",
            ModelFault::Beyond => "beyond",
            ModelFault::Range => "range",
        })
    }
}

impl Error for ModelFault {}
