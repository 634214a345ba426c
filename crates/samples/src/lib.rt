// The stored sample of the original's answers: a case a line, and how a line is read.
#![tactic(auto)]

pub mod case;
pub mod claim;
pub mod parse;
#[cfg(test)]
mod tests;
