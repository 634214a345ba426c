// The door for C and Rust: channels as plain structs of numbers that the caller owns, and calls that check what they are handed.
// Each answers 0 where it did what it says, the number of the refusal, or -1 where there is nothing to answer.
#![tactic(auto)]

pub mod calls;
pub mod even;
pub mod parts;
pub mod peak;
pub mod refused;
