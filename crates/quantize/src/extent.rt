// The extent of a quantized model: its support, in whole numbers that no symbol type narrows, and its precision.
mod checks;

ghost use Rattle.std.specs.Prelude.{◌≡◌, ◌^◌, ◌<◌, ◌≤◌, pos, negsuc, ◌+ℤ◌, ◌≤ℤ◌};
ghost use Rattle.quantize.specs.Quantized.{free_weight_of};

#[derive(Clone, Copy)]
pub struct Extent {
    pub(crate) low: i64,
    pub(crate) span: u64,
    pub(crate) precision: u32,
    pub(crate) free_weight: u64,
    // within the types that symbols have
    ghost from: { negsuc 2147483647 ≤ℤ low },
    ghost to: { (low +ℤ pos span) ≤ℤ pos 4294967295 },
    ghost narrow: { precision ≤ 32 },
    ghost some: { 0 < span },
    ghost room: { span < 2 ^ precision },
    ghost weighs: { free_weight ≡ free_weight_of precision span },
}
