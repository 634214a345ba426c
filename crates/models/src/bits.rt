// Probabilities: unsigned numbers of a fixed width. Its two types are two implementations, one line a call.
ghost use Rattle.std.specs.Prelude.{◌≡◌, ℕ, ◌%◌, ◌^◌, ◌<◌, ◌≤◌};
ghost use Rattle.models.specs.Answers.{FromValue};
ghost use Rattle.std.proofs.Common.{rules};

pub trait BitArray: Copy {
    // the number that a probability holds
    ghost value: { Self → ℕ };

    // how many bits the type has
    ghost width: { ℕ };

    fn bits() -> u32
        ensures { result ≡ width };

    fn to_u64(self) -> u64
        ensures value { result ≡ value self }
        ensures within { result < 2 ^ width };

    fn from_u64(n: u64) -> Option<Self>
        ensures { FromValue value width n result };

    // The lowest bits of n, as many as the type has.
    fn wrapping_from_u64(n: u64) -> Self
        ensures { value result ≡ n % 2 ^ width };

    ghost narrow: { width ≤ 32 };

    // a probability is its number, and nothing more
    ghost exact: { (x y : Self) → value x ≡ value y → x ≡ y };
}

impl BitArray for u16 {
    ghost value = { λ x. x };

    ghost width = { 16 };

    ghost narrow = { Prim.search rules };

    ghost exact = { Prim.search rules };

    fn bits() -> u32 {
        16
    }

    fn to_u64(self) -> u64 {
        self as u64
    }

    fn from_u64(n: u64) -> Option<u16> {
        u16::try_from(n).ok()
    }

    fn wrapping_from_u64(n: u64) -> u16 {
        (n % 65536) as u16
    }
}

impl BitArray for u32 {
    ghost value = { λ x. x };

    ghost width = { 32 };

    ghost narrow = { Prim.search rules };

    ghost exact = { Prim.search rules };

    fn bits() -> u32 {
        32
    }

    fn to_u64(self) -> u64 {
        self as u64
    }

    fn from_u64(n: u64) -> Option<u32> {
        u32::try_from(n).ok()
    }

    fn wrapping_from_u64(n: u64) -> u32 {
        (n % 4294967296) as u32
    }
}

// 2 to the exponent, modulo 2 to the width.
fn pow2_modulo(exponent: usize, width: u32) -> u64
    requires { width ≤ 32 }
    ensures { result ≡ 2 ^ exponent % 2 ^ width }
{
    if exponent >= width as usize {
        0
    } else {
        1u64 << exponent
    }
}

// 2 to the exponent, as far as the type can hold it: 0 from the width on.
pub fn wrapping_pow2<T: BitArray>(exponent: usize) -> T
    ensures { T.BitArray.value result ≡ 2 ^ exponent % 2 ^ T.BitArray.width }
{
    T::wrapping_from_u64(pow2_modulo(exponent, T::bits()))
}
