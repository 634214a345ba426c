// Looks up the row that holds a quantile: the step widens from the guess, then it is halved.
// The widening loop stands twice, as the rules have it: the two differ in their bounds, their tests and which end stays.
ghost use Rattle.std.specs.Prelude.{◌≡◌, ◌+◌, ◌^◌, ◌<◌, ◌≤◌};
ghost use Rattle.quantize.specs.Brackets.{Bracket};
ghost use Rattle.quantize.specs.Cuts.{cut};

use crate::cut::Cut;
use models::distribution::{Distribution, Inverse};

impl<'a, D: Distribution> Cut<'a, D> {
    // Down from a row that starts above the quantile.
    fn gallop_down(&self, q: u64, guess: u64, above: u64) -> (u64, u64, (u64, u64))
        requires within { guess ≤ self.now.extent.span }
        requires starts { above ≡ (cut D.height self.now).start guess }
        requires over { q < above }
        ensures { Bracket (cut D.height self.now) q result.0 result.1 result.2.0 result.2.1 }
    {
        let mut upper = guess;
        let mut right = above;
        let mut stride = 1u64;
        loop {
            let row = upper.saturating_sub(stride);
            let left = self.start(row);
            if left <= q {
                break (upper - row, row, (left, right));
            }
            upper = row;
            right = left;
            stride *= 2;
        }
    }

    // Up from a row that starts at or below the quantile.
    fn gallop_up(&self, q: u64, guess: u64, below: u64) -> (u64, u64, (u64, u64))
        requires within { guess ≤ self.now.extent.span }
        requires starts { below ≡ (cut D.height self.now).start guess }
        requires under { below ≤ q }
        requires quantile { q < 2 ^ self.now.extent.precision }
        ensures { Bracket (cut D.height self.now) q result.0 result.1 result.2.0 result.2.1 }
    {
        let end = self.extent.span + 1;
        let mut lower = guess;
        let mut left = below;
        let mut stride = 1u64;
        loop {
            let row = end.min(lower + stride);
            let right = self.start(row);
            if q < right {
                break (row - lower, lower, (left, right));
            }
            lower = row;
            left = right;
            stride *= 2;
        }
    }

    // Halves the step until one row is left: the row, its start and its end.
    fn bisect(&self, q: u64, bracket: (u64, u64, (u64, u64))) -> (u64, (u64, u64))
        requires { Bracket (cut D.height self.now) q bracket.0 bracket.1 bracket.2.0 bracket.2.1 }
        ensures { Bracket (cut D.height self.now) q 1 result.0 result.1.0 result.1.1 }
    {
        let (mut step, mut row, (mut left, mut right)) = bracket;
        loop {
            if step == 1 {
                break (row, (left, right));
            }
            let half = step / 2;
            let middle = self.start(row + half);
            if middle <= q {
                row += half;
                left = middle;
                step -= half;
            } else {
                right = middle;
                step = half;
            }
        }
    }
}

impl<'a, D: Inverse> Cut<'a, D> {
    // The row that holds a quantile, with its start and its end.
    pub(crate) fn lookup(&self, q: u64) -> (u64, (u64, u64))
        requires { q < 2 ^ self.now.extent.precision }
        ensures { Bracket (cut D.height self.now) q 1 result.0 result.1.0 result.1.1 }
    {
        let guess = self
            .extent
            .row_near(self.by.inverse(self.extent.midpoint(q)));
        let start = self.start(guess);
        let bracket = if q < start {
            self.gallop_down(q, guess, start)
        } else {
            self.gallop_up(q, guess, start)
        };
        self.bisect(q, bracket)
    }
}
