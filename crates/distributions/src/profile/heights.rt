// A profile's height and its inverse.
ghost use Rattle.std.specs.Prelude.{◌≡◌, ◌+◌, ◌-◌, ◌*◌, ◌<◌, true, false, length, pos, slice_index};
ghost use Rattle.std.specs.Float.{binary64};
ghost use Rattle.std.specs.Float.Ieee.{fits, le, of_int};
ghost use Rattle.rounding.specs.Fractions.{nought};
ghost use Rattle.distributions.specs.Parts.{parts_of, sound_of};
ghost use Rattle.distributions.specs.Profile.{piece_at, line_at, last_up_to, height_at, inverse_at};
ghost use Rattle.distributions.specs.ProfileLaws.{profile_lawful};

use crate::profile::Profile;
use models::distribution::{Distribution, Inverse};
use rounding::lesser;
use std::num::truncating_f64_to_u64;

impl<'a> Profile<'a> {
    // The start as a float.
    fn origin(&self) -> f64
        ensures { result ≡ of_int binary64 self.now.start }
    {
        f64::from(self.start)
    }

    // Knot i as a float.
    fn knot(&self, i: usize) -> f64
        requires { i < length self.now.knots.now }
        ensures { result ≡ of_int binary64 (pos (slice_index self.now.knots.now i)) }
    {
        f64::from(self.knots[i])
    }

    // Where knot i lies, counted from the start.
    fn reach(&self, i: usize) -> f64
        requires { i < length self.now.knots.now }
        ensures { result ≡ of_int binary64 (pos (i * self.now.width)) }
    {
        f64::from(i as u32 * self.width)
    }

    // The last knot at or before t, which lies from the start to before the last knot.
    fn piece(&self, t: f64) -> usize
        requires from { le nought t ≡ true }
        requires held { fits binary64 t ≡ true }
        requires to { le (of_int binary64 (pos ((length self.now.knots.now - 1) * self.now.width))) t ≡ false }
        ensures within { result + 1 < length self.now.knots.now }
        ensures last { result ≡ piece_at (parts_of self.now) t }
    {
        (truncating_f64_to_u64(t) / self.width as u64) as usize
    }

    // The line from knot i to the next at t, or that knot where it is lower.
    #[tactic(auto, unfolding(crate::specs::Profile::line_at))]
    fn between(&self, i: usize, t: f64) -> f64
        requires { i + 1 < length self.now.knots.now }
        ensures { result ≡ line_at (parts_of self.now) i t }
    {
        let low = self.knot(i);
        let high = self.knot(i + 1);
        lesser(
            low + (high - low) * ((t - self.reach(i)) / f64::from(self.width)),
            high,
        )
    }

    // The last knot of at most y, or knot 0.
    fn last_up_to(&self, y: f64) -> usize
        ensures within { result < length self.now.knots.now }
        ensures last { result ≡ last_up_to (parts_of self.now) y }
    {
        self.knots[1..].partition_point(|knot| f64::from(*knot) <= y)
    }
}

impl<'a> Distribution for Profile<'a> {
    ghost height = { λ d. height_at (parts_of d) };

    ghost lawful = { λ d. profile_lawful (parts_of d) d.low d.high d.held (sound_of d) };

    fn distribution(&self, x: f64) -> f64 {
        let t = x - self.origin();
        if x.is_nan() || t < 0.0 {
            return 0.0;
        }
        let end = self.knots.len() - 1;
        if t >= self.reach(end) {
            return 1.0;
        }
        self.between(self.piece(t), t) / self.knot(end)
    }
}

impl<'a> Inverse for Profile<'a> {
    ghost guesses = { λ d p r. r ≡ inverse_at (parts_of d) p };

    #[tactic(auto, unfolding(crate::specs::Profile::inverse_at))]
    fn inverse(&self, p: f64) -> f64 {
        let last = self.knot(self.knots.len() - 1);
        self.origin() + self.reach(self.last_up_to(p * last))
    }
}
