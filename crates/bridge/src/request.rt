// Which model a driver asks for.

// The make is 2 * s + w: s is 0 for i16, 1 for u16, 2 for i32, 3 for u32 symbols; w is 0 for u16, 1 for u32 probabilities.
// The shape is 0 for a Peak (a is the centre, b the scale), 1 for a flat height a, 2 for a Profile over the knots of the call.
// Guessing is 0 for the distribution's own guess, and 1 for the constant one.
#[repr(C)]
#[derive(Clone, Copy)]
pub struct Request {
    pub make: u32,
    pub precision: u32,
    pub min: i64,
    pub max: i64,
    pub shape: u32,
    pub guessing: u32,
    pub a: f64,
    pub b: f64,
    pub guess: f64,
    pub first: i32,
    pub width: u32,
}
