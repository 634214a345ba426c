// Uniform models: every reading of a range is as likely as any other.
#![tactic(auto)]

pub mod model;
