// Channel records and the lines of a listing.
// A record is 32 bytes that describe one channel; a listing is the text that shows the channels' tables.
#![tactic(auto)]

pub mod fault;
pub mod layout;
pub mod listing;
pub mod opening;
pub mod stream;
#[cfg(test)]
mod tests;
pub mod text;
