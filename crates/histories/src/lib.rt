// Histories of channels: lists of calls, what every one of them keeps, and what two ends of a line share.
#![tactic(auto)]

pub mod replay;
