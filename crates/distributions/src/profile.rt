// Profile: a height that rises along a table of knots, which stays with the caller.
mod heights;
mod rules;

ghost use Rattle.std.specs.Prelude.{◌-◌, ◌^◌, ◌<◌, length, pos, negsuc, ◌≤ℤ◌, slice_index};
ghost use Rattle.distributions.specs.Tables.{Sound};

#[derive(Drop)]
pub struct Profile<'a> {
    start: i32,
    width: u32,
    knots: &'a [u32],
    // what the types hold
    ghost low: { negsuc 2147483647 ≤ℤ start },
    ghost high: { start ≤ℤ pos 2147483647 },
    ghost held: { slice_index knots.now (length knots.now - 1) < 2 ^ 32 },
    ghost sound: { Sound width knots.now },
}
