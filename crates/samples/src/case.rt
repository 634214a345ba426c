// A case of the sample: a model that the original made, and what it answered.
use crate::claim::Claim;

#[derive(Clone, Copy, Debug, PartialEq, Eq)]
pub enum SymbolType {
    I16,
    U16,
    I32,
    U32,
}

// of the probability type
#[derive(Clone, Copy, Debug, PartialEq, Eq)]
pub enum Width {
    Bits16,
    Bits32,
}

// A Peak, quantized.
#[derive(Clone, Copy, Debug, PartialEq)]
pub struct Quantized {
    pub symbols: SymbolType,
    pub width: Width,
    pub precision: u32,
    pub min: i128,
    pub max: i128,
    pub centre: f64,
    pub scale: f64,
}

#[derive(Clone, Copy, Debug, PartialEq, Eq)]
pub struct Uniform {
    pub width: Width,
    pub precision: u32,
    pub range: usize,
}

#[derive(Clone, Copy, Debug, PartialEq)]
pub enum Case {
    // a number here is where every search starts, whatever the quantile; else the inverse of the Peak says where
    OfPeak(Quantized, Option<f64>, Claim),
    OfUniform(Uniform, Claim),
}
