// Distributions for trials and drivers alone, of one height or of guesses that are of no use, and trials of the models at the ends
// of their ranges.
#![tactic(auto)]

pub mod flat;
pub mod misguided;
#[cfg(test)]
mod tests;
