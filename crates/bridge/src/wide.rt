// Whole numbers of 64 bits, in which the symbols of every make cross. They are no symbols of a model, so `Symbol` has no part for them.
ghost use Rattle.std.specs.Prelude.{◌≡◌, ℤ, pos, negsuc};
ghost use Rattle.models.specs.Answers.{FromWhole};

pub trait Wide: Copy {
    ghost whole: { Self → ℤ };

    ghost least: { ℤ };

    ghost most: { ℤ };

    fn to_whole(self) -> i128
        ensures { result ≡ whole self };

    fn from_whole(z: i128) -> Option<Self>
        ensures { FromWhole whole least most z result };

    fn zero() -> Self
        ensures { whole result ≡ pos 0 };
}

impl Wide for i64 {
    ghost whole = { λ x. x };

    ghost least = { negsuc 9223372036854775807 };

    ghost most = { pos 9223372036854775807 };

    fn to_whole(self) -> i128 {
        self as i128
    }

    fn from_whole(z: i128) -> Option<i64> {
        i64::try_from(z).ok()
    }

    fn zero() -> i64 {
        0
    }
}

impl Wide for u64 {
    ghost whole = { pos };

    ghost least = { pos 0 };

    ghost most = { pos 18446744073709551615 };

    fn to_whole(self) -> i128 {
        self as i128
    }

    fn from_whole(z: i128) -> Option<u64> {
        u64::try_from(z).ok()
    }

    fn zero() -> u64 {
        0
    }
}
