// Channels: a model, the walk over its table, and the measures of it.
#![tactic(auto)]

pub mod hand_on;
pub mod measure;
pub mod page;
pub mod tune;
pub mod walk;
