// Decimal text, appended to a buffer of bytes.
// The digits come from the highest place down, each by dividing by its power of ten; the rules have the powers in a table.
// Room is taken before the first digit, so that a number is appended whole or not at all.
ghost use Rattle.std.specs.Prelude.{◌≡◌, ℕ, ◌-◌, ◌^◌, ◌<◌, ◌≤◌, List, [], ◌∷◌, length, pos, decimal, int_lt};
ghost use Rattle.std.specs.Fmt.{sign_text, signed_decimal};
ghost use Rattle.records.specs.Buffer.{Room, Added, Appended};
ghost use Rattle.records.specs.Places.{places};

use std::alloc::AllocError;

const POWERS: [u32; 10] = [
    1,
    10,
    100,
    1_000,
    10_000,
    100_000,
    1_000_000,
    10_000_000,
    100_000_000,
    1_000_000_000,
];

fn power_of_ten(place: usize) -> u32
    requires { place < 10 }
    ensures { result ≡ 10 ^ place }
{
    POWERS[place]
}

// How many digits n has.
fn count_digits(n: u32) -> usize
    ensures some { 0 < result }
    ensures few { result ≤ 10 }
    ensures above { n < 10 ^ result }
    ensures below { 1 < result → 10 ^ (result - 1) ≤ n }
{
    n.checked_ilog10().map_or(1, |log| log as usize + 1)
}

// The lowest `count` places of n, the highest of them first.
fn put_places(out: &mut Vec<u8>, n: u32, count: usize)
    requires few { count ≤ 10 }
    requires room { Room out.old count }
    ensures { Added out.old (places count n) out.new }
{
    for place in (0..count).rev() {
        let digit = n / power_of_ten(place) % 10;
        out.push_reserved(b'0' + digit as u8);
    }
}

pub(crate) fn put_byte(out: &mut Vec<u8>, byte: u8)
    requires { Room out.old 1 }
    ensures { Added out.old (byte ∷ []) out.new }
{
    out.push_reserved(byte);
}

// Tried with `extend_from_slice`: that it takes no memory where there is room stays open, as its contract lacks it.
pub(crate) fn put_text(out: &mut Vec<u8>, text: &[u8])
    requires { Room out.old (length text.now) }
    ensures { Added out.old text.now out.new }
{
    for byte in text {
        out.push_reserved(*byte);
    }
}

// A number of more than ten digits is its front, and then its lowest nine places.
fn put_decimal(out: &mut Vec<u8>, n: u128)
    requires { Room out.old (length (decimal n)) }
    ensures { Added out.old (decimal n) out.new }
{
    if n <= u32::MAX as u128 {
        let n = n as u32;
        put_places(out, n, count_digits(n));
    } else {
        let billion = power_of_ten(9) as u128;
        put_decimal(out, n / billion);
        put_places(out, (n % billion) as u32, 9);
    }
}

// '-' before a negative number.
fn put_sign(out: &mut Vec<u8>, z: i128)
    requires { Room out.old (length (sign_text (int_lt z (pos 0)))) }
    ensures { Added out.old (sign_text (int_lt z (pos 0))) out.new }
{
    if z < 0 {
        out.push_reserved(b'-');
    }
}

// What is appended whole or not at all.
pub(crate) trait Text {
    // the most bytes that it takes
    const ROOM: usize;

    ghost ROOM: { ℕ };

    ghost bytes: { Self → List ℕ };

    fn put(&self, out: &mut Vec<u8>)
        requires { Room out.old ROOM }
        ensures text { Added out.old (bytes self.now) out.new }
        ensures short { length (bytes self.now) ≤ ROOM };

    final fn push(&self, out: &mut Vec<u8>) -> Result<(), AllocError>
        ensures { Appended ROOM out.old (bytes self.now) result out.new }
    {
        out.reserve(Self::ROOM)?;
        self.put(out);
        Ok(())
    }
}

impl Text for u32 {
    const ROOM: usize = 10;

    ghost ROOM = { 10 };

    ghost bytes = { decimal };

    fn put(&self, out: &mut Vec<u8>) {
        put_decimal(out, *self as u128);
    }
}

impl Text for u128 {
    const ROOM: usize = 40;

    ghost ROOM = { 40 };

    ghost bytes = { decimal };

    fn put(&self, out: &mut Vec<u8>) {
        put_decimal(out, *self);
    }
}

impl Text for i128 {
    const ROOM: usize = 40;

    ghost ROOM = { 40 };

    ghost bytes = { signed_decimal };

    fn put(&self, out: &mut Vec<u8>) {
        put_sign(out, *self);
        put_decimal(out, self.unsigned_abs());
    }
}

// Appends n in decimal. No number takes more than 40 bytes.
pub fn push_decimal(out: &mut Vec<u8>, n: u128) -> Result<(), AllocError>
    ensures { Appended 40 out.old (decimal n) result out.new }
{
    n.push(out)
}

// Appends z in decimal, with '-' before a negative number.
pub fn push_signed(out: &mut Vec<u8>, z: i128) -> Result<(), AllocError>
    ensures { Appended 40 out.old (signed_decimal z) result out.new }
{
    z.push(out)
}
