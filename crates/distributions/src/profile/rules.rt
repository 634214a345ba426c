// The rules of a table of knots, and the calls that lay one.
ghost use Rattle.std.specs.Prelude.{◌≡◌, ◌≤◌, [], ◌∷◌, length, pos, MatchOption};
ghost use Rattle.distributions.specs.Tables.{parts, Rising, FirstFall, Judged, Lays};
ghost use Rattle.distributions.specs.Parts.{parts_of};

use crate::fault::DistributionFault;
use crate::profile::Profile;

// the table of the built-in profile
static RAMP: [u32; 2] = [0, 1];

// The index of the first knot that is lower than the one before it. A rule of the project wants this loop and its index: the index is
// the place of the refusal.
fn first_fall(knots: &[u32]) -> Option<u32>
    requires { length knots.now ≤ 1025 }
    ensures { MatchOption result (Rising knots.now) (λ i. FirstFall knots.now i) }
{
    for (i, knot) in knots.iter().enumerate() {
        if i > 0 && *knot < knots[i - 1] {
            return Some(i as u32);
        }
    }
    None
}

// The rules of a table, in their order.
fn judge(width: u32, knots: &[u32]) -> Result<(), DistributionFault>
    ensures { Judged width knots.now result }
{
    let n = knots.len();
    if !(2..=1025).contains(&n) || !(1..=65536).contains(&width) || knots[0] != 0 {
        return Err(DistributionFault::Knots(0));
    }
    if let Some(i) = first_fall(knots) {
        return Err(DistributionFault::Knots(i));
    }
    if knots[n - 1] == 0 {
        return Err(DistributionFault::Knots(n as u32 - 1));
    }
    Ok(())
}

impl<'a> Profile<'a> {
    // One step from 0 to 1, of width 1.
    pub fn built_in() -> Profile<'a>
        ensures { parts_of result ≡ parts (pos 0) 1 (0 ∷ 1 ∷ []) }
    {
        Profile {
            start: 0,
            width: 1,
            knots: &RAMP,
        }
    }

    // Takes the table in the place of the one that stands here, or refuses it and keeps that.
    pub fn lay(&mut self, start: i32, width: u32, knots: &'a [u32]) -> Result<(), DistributionFault>
        ensures { Lays (parts start width knots.now) (parts_of self.old) (parts_of self.new) result }
    {
        judge(width, knots)?;
        *self = Profile {
            start,
            width,
            knots,
        };
        Ok(())
    }
}
