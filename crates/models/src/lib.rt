// The interfaces of entropy models: symbols and probabilities, what a model means, and what its calls answer.
#![tactic(auto)]

pub mod bits;
pub mod distribution;
pub mod fault;
pub mod model;
pub mod symbol;
pub mod table;
