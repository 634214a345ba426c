// The symbol interface: the exact whole number of a symbol, and the way back within its type.
// Each type has an implementation of its own: the interface stands in the place of a bound on all numbers, which would take in 128 bits.
ghost use Rattle.std.specs.Prelude.{◌≡◌, ℤ, pos, negsuc, ◌+ℤ◌};
ghost use Rattle.models.specs.Answers.{Above, Between, FromWhole};
ghost use Rattle.std.proofs.Common.{rules};

pub trait Symbol: Copy {
    // the whole number that a symbol stands for
    ghost whole: { Self → ℤ };

    // the least and the greatest whole number that the type has
    ghost least: { ℤ };

    ghost most: { ℤ };

    fn to_whole(self) -> i128
        ensures value { result ≡ whole self }
        ensures within { Between least most result };

    fn from_whole(z: i128) -> Option<Self>
        ensures { FromWhole whole least most z result };

    // The symbol so many above this one, or the greatest where that lies past it.
    fn above(self, rows: u64) -> Self
        ensures { Above whole most (whole self +ℤ pos rows) result };

    // a symbol is its whole number, and nothing more
    ghost exact: { (x y : Self) → whole x ≡ whole y → x ≡ y };
}

impl Symbol for i16 {
    ghost whole = { λ x. x };

    ghost least = { negsuc 32767 };

    ghost most = { pos 32767 };

    ghost exact = { Prim.search rules };

    fn to_whole(self) -> i128 {
        self as i128
    }

    fn from_whole(z: i128) -> Option<i16> {
        i16::try_from(z).ok()
    }

    fn above(self, rows: u64) -> i16 {
        self.saturating_add_unsigned(rows.min(u16::MAX as u64) as u16)
    }
}

impl Symbol for u16 {
    ghost whole = { pos };

    ghost least = { pos 0 };

    ghost most = { pos 65535 };

    ghost exact = { Prim.search rules };

    fn to_whole(self) -> i128 {
        self as i128
    }

    fn from_whole(z: i128) -> Option<u16> {
        u16::try_from(z).ok()
    }

    fn above(self, rows: u64) -> u16 {
        self.saturating_add(rows.min(u16::MAX as u64) as u16)
    }
}

impl Symbol for i32 {
    ghost whole = { λ x. x };

    ghost least = { negsuc 2147483647 };

    ghost most = { pos 2147483647 };

    ghost exact = { Prim.search rules };

    fn to_whole(self) -> i128 {
        self as i128
    }

    fn from_whole(z: i128) -> Option<i32> {
        i32::try_from(z).ok()
    }

    fn above(self, rows: u64) -> i32 {
        self.saturating_add_unsigned(rows.min(u32::MAX as u64) as u32)
    }
}

impl Symbol for u32 {
    ghost whole = { pos };

    ghost least = { pos 0 };

    ghost most = { pos 4294967295 };

    ghost exact = { Prim.search rules };

    fn to_whole(self) -> i128 {
        self as i128
    }

    fn from_whole(z: i128) -> Option<u32> {
        u32::try_from(z).ok()
    }

    fn above(self, rows: u64) -> u32 {
        self.saturating_add(rows.min(u32::MAX as u64) as u32)
    }
}

impl Symbol for usize {
    ghost whole = { pos };

    ghost least = { pos 0 };

    ghost most = { pos 18446744073709551615 };

    ghost exact = { Prim.search rules };

    fn to_whole(self) -> i128 {
        self as i128
    }

    fn from_whole(z: i128) -> Option<usize> {
        usize::try_from(z).ok()
    }

    fn above(self, rows: u64) -> usize {
        self.saturating_add(rows as usize)
    }
}
