// Measures of a model: the probabilities of its symbols as floats, and the bits that a reading takes.
#![tactic(auto)]

pub mod entropy;
pub mod logarithm;
pub mod probability;
mod quantiles;
#[cfg(test)]
mod tests;
