// The checks of an extent, and what it tells.
ghost use Rattle.std.specs.Prelude.{◌≡◌, ◌^◌, ◌<◌, ◌≤◌, pos, negsuc, ◌≤ℤ◌};
ghost use Rattle.models.specs.Answers.{Makes};
ghost use Rattle.quantize.specs.Extents.{Covers, RowOf};
ghost use Rattle.quantize.specs.Quantized.{middle_of, refusal};

use crate::cut::whole_part;
use crate::extent::Extent;
use models::fault::ModelFault;

impl Extent {
    // Checks the precision, then the order, then the span.
    pub(crate) fn checked(
        width: u32,
        low: i128,
        high: i128,
        precision: u32,
    ) -> Result<Extent, ModelFault>
        requires narrow { width ≤ 32 }
        requires from { negsuc 2147483647 ≤ℤ low }
        requires to { high ≤ℤ pos 4294967295 }
        ensures { Makes (refusal width precision low high) (Covers low high precision) result }
    {
        if precision == 0 || precision > width {
            return Err(ModelFault::Precision);
        }
        if high <= low {
            return Err(ModelFault::Order);
        }
        let span = (high - low) as u64;
        let quantiles = 1u64 << precision;
        if span >= quantiles {
            return Err(ModelFault::Span);
        }
        Ok(Extent {
            low: low as i64,
            span,
            precision,
            free_weight: quantiles - 1 - span,
        })
    }

    pub fn low(&self) -> i64
        ensures { result ≡ self.now.low }
    {
        self.low
    }

    pub fn span(&self) -> u64
        ensures { result ≡ self.now.span }
    {
        self.span
    }

    pub fn precision(&self) -> u32
        ensures { result ≡ self.now.precision }
    {
        self.precision
    }

    // The row of a whole number, or `None` outside the support.
    pub(crate) fn row_of(&self, symbol: i128) -> Option<u64>
        ensures { RowOf self.now symbol result }
    {
        let low = self.low as i128;
        if symbol < low || symbol > low + self.span as i128 {
            return None;
        }
        Some((symbol - low) as u64)
    }

    // How many quantiles there are.
    pub(crate) fn quantiles(&self) -> u64
        ensures { result ≡ 2 ^ self.now.precision }
    {
        1u64 << self.precision
    }

    // Where the quantile lies between 0 and 1, in the middle of its step.
    pub(crate) fn midpoint(&self, q: u64) -> f64
        requires { q < 2 ^ self.now.precision }
        ensures { result ≡ middle_of self.now.precision q }
    {
        (q as f64 + 0.5) * (1.0 / self.quantiles() as f64)
    }

    // The row whose symbol is nearest to a guess. A guess that is no number counts as the lowest.
    pub(crate) fn row_near(&self, guess: f64) -> u64
        ensures { result ≤ self.now.span }
    {
        let rows = guess - (self.low as f64 - 0.5);
        if rows >= self.span as i64 as f64 {
            self.span
        } else if rows >= 1.0 {
            whole_part(rows)
        } else {
            0
        }
    }
}
