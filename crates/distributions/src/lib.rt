// Distributions by formula: a peak around a centre, and a profile over a table of knots.
#![tactic(auto)]

pub mod fault;
pub mod peak;
pub mod profile;
#[cfg(test)]
mod tests;
