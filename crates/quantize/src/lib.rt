// Distributions quantized to whole-number intervals: the checked support, and the model by symbol, by quantile and by row.
#![tactic(auto)]

mod cut;
pub mod extent;
pub mod narrow;
pub mod quantizer;
