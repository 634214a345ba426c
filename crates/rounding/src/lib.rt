// What the rounded operations on floats keep of the order of numbers, and the few operations that a
// quantizer makes of them. A function that ends in `stand` or `stands` computes nothing: its contract is
// a family of laws, which its proof shows.
#![tactic(auto)]

ghost use Rattle.rounding.specs.Order.{OrderLaws, lesser as the-lesser};
ghost use Rattle.rounding.specs.Products.{ProductLaws};
ghost use Rattle.rounding.specs.Quotients.{QuotientLaws};
ghost use Rattle.rounding.specs.Ranges.{RangeLaws};
ghost use Rattle.rounding.specs.Rounded.{RoundingLaws};
ghost use Rattle.rounding.specs.Sums.{SumLaws};
ghost use Rattle.rounding.specs.Weights.{WeightLaws, Weighed};
ghost use Rattle.rounding.specs.Wholes.{WholeLaws, HalfBelow};
ghost use Rattle.std.specs.Float.Ieee.{of_int};
ghost use Rattle.std.specs.Float.{binary64};
ghost use Rattle.std.specs.Prelude.{◌≡◌, pos};

use std::num::{nearest_i64_to_f64, nearest_u64_to_f64, saturating_f64_to_u64};

// `<=` orders the numbers, with both zeros and both infinities.
pub fn order_stands() -> bool
    ensures { OrderLaws }
{
    true
}

// Rounding keeps the order of signed fractions, and what its format holds.
pub fn rounding_stands() -> bool
    ensures { RoundingLaws }
{
    true
}

// Sums and differences rise and fall with their parts.
pub fn sums_stand() -> bool
    ensures { SumLaws }
{
    true
}

// Products by what is not negative rise with the other factor.
pub fn products_stand() -> bool
    ensures { ProductLaws }
{
    true
}

// Quotients by what is above zero rise with the dividend, and fall with the divisor.
pub fn quotients_stand() -> bool
    ensures { QuotientLaws }
{
    true
}

// Whole numbers and the halves between them are floats.
pub fn wholes_stand() -> bool
    ensures { WholeLaws }
{
    true
}

// A weight times a height from 0 to 1 lies from 0 to the weight, and rises with the height.
pub fn weights_stand() -> bool
    ensures { WeightLaws }
{
    true
}

// An argument moved and scaled, and the curve 0.5 / (1 + u), keep the order and their ranges.
pub fn ranges_stand() -> bool
    ensures { RangeLaws }
{
    true
}

// The lesser of x and y: y where they are equal, or one is not a number. (`f64::min` would take the number.)
pub fn lesser(x: f64, y: f64) -> f64
    ensures { result ≡ the-lesser x y }
{
    if x < y { x } else { y }
}

// The float nearest to n. Within 2^53 that is n, and the cast is one instruction.
pub fn whole(n: i64) -> f64
    ensures { result ≡ of_int binary64 n }
{
    if -9007199254740992 <= n && n <= 9007199254740992 {
        n as f64
    } else {
        nearest_i64_to_f64(n)
    }
}

// k − 0.5.
pub fn half_below(k: i64) -> f64
    ensures { HalfBelow k result }
{
    whole(k) - 0.5
}

// The whole part of weight × height, rounded once.
pub fn weigh(weight: u64, height: f64) -> u64
    ensures { Weighed weight height result }
{
    saturating_f64_to_u64(natural(weight) * height)
}

// The float nearest to n, as `whole` has it.
pub fn natural(n: u64) -> f64
    ensures { result ≡ of_int binary64 (pos n) }
{
    match i64::try_from(n) {
        Ok(n) => whole(n),
        Err(_) => nearest_u64_to_f64(n),
    }
}
