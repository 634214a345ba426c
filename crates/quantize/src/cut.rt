// Where the intervals of an extent start, by the heights of a distribution.
mod lookup;

ghost use Rattle.std.specs.Prelude.{◌≡◌, suc, ◌≤◌, true, false, pos, ◌+ℤ◌};
ghost use Rattle.quantize.specs.Cuts.{cut};
ghost use Rattle.quantize.specs.Quantized.{free_weight_of};
ghost use Rattle.rounding.specs.Fractions.{nought, power};
ghost use Rattle.rounding.specs.Weights.{weighed};
ghost use Rattle.rounding.specs.Wholes.{half_below};
ghost use Rattle.std.specs.Float.Ieee.{le, to_unsigned};

use crate::extent::Extent;
use models::distribution::Distribution;

// 2^52: from here to 2^53 the floats are the whole numbers.
const WHOLES: f64 = 4503599627370496.0;

// The whole part of x. The sum rounds to one of the whole numbers around x, and its distance from x tells which.
pub(crate) fn whole_part(x: f64) -> u64
    requires from { le nought x ≡ true }
    requires to { le x (power false (pos 51)) ≡ true }
    ensures { result ≡ to_unsigned 64 x }
{
    let raised = x + WHOLES;
    let nearest = raised as i64 as u64 - 4503599627370496;
    if x < raised - WHOLES {
        nearest - 1
    } else {
        nearest
    }
}

// An extent, and the distribution whose heights cut it.
#[derive(Drop)]
pub(crate) struct Cut<'a, D> {
    pub(crate) extent: Extent,
    pub(crate) by: &'a D,
}

impl<'a, D: Distribution> Cut<'a, D> {
    // The free weight that lies below a row, without its fraction.
    fn weigh_below(&self, row: u64) -> u64
        requires { row ≤ self.now.extent.span }
        ensures value { result ≡ weighed (free_weight_of self.now.extent.precision self.now.extent.span) (D.height self.now.by.now (half_below (self.now.extent.low +ℤ pos row))) }
        ensures bound { result ≤ free_weight_of self.now.extent.precision self.now.extent.span }
    {
        let below = (self.extent.low + row as i64) as f64 - 0.5;
        whole_part(self.extent.free_weight as i64 as f64 * self.by.distribution(below))
    }

    // Where a row starts; one past the last, where that ends.
    pub(crate) fn start(&self, row: u64) -> u64
        requires { row ≤ suc self.now.extent.span }
        ensures { result ≡ (cut D.height self.now).start row }
    {
        if row == 0 {
            0
        } else if row > self.extent.span {
            self.extent.quantiles()
        } else {
            self.weigh_below(row) + row
        }
    }
}
