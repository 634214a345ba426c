// Logarithms to the base 2 of whole numbers, as whole numbers of 65536ths.
ghost use Rattle.std.specs.Prelude.{◌≡◌, ℕ, ◌^◌, ◌≤◌};
ghost use Rattle.measures.specs.Logarithms.{Bounds, Squared, place as highest, coarse, fine};
ghost use Rattle.measures.specs.Logs.{coarse_bounds};
ghost use Rattle.measures.specs.Finer.{fine_bounds};

pub trait Logarithm {
    ghost value: { ℕ → ℕ };

    // how far below the logarithm a value may lie
    ghost slack: { ℕ };

    fn log2(n: u32) -> u32
        ensures { result ≡ value n };

    ghost bounds: { Bounds value slack };
}

// The place of the highest set bit, where bit 0 is the lowest, and 0 where none is set.
fn place(n: u32) -> u32
    ensures { result ≡ highest n }
{
    31u32.saturating_sub(n.leading_zeros())
}

// The whole part alone.
pub struct Coarse;

impl Logarithm for Coarse {
    ghost value = { coarse };

    ghost slack = { 65536 };

    ghost bounds = { coarse_bounds };

    fn log2(n: u32) -> u32 {
        65536 * place(n)
    }
}

// Squares a number of 32 bits, the highest of them set: the bit that this gives, and the 32 bits that are kept.
fn square(x: u32) -> (u32, u32)
    requires { 2 ^ 31 ≤ x }
    ensures { Squared x result }
{
    let squared = x as u64 * x as u64;
    if squared >= 1 << 63 {
        (1, (squared >> 32) as u32)
    } else {
        (0, (squared >> 31) as u32)
    }
}

// Sixteen bits below the whole part.
pub struct Fine;

impl Logarithm for Fine {
    ghost value = { fine };

    ghost slack = { 2 };

    ghost bounds = { fine_bounds };

    fn log2(n: u32) -> u32 {
        if n == 0 {
            return 0;
        }
        let mut x = n << n.leading_zeros();
        let mut v = 65536 * place(n);
        for k in 0..16u32 {
            let (bit, kept) = square(x);
            v += bit << (15 - k);
            x = kept;
        }
        v
    }
}
