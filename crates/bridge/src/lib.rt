// What a driver needs to run every make of model beside another implementation, and to time it. Only such a driver uses it.
#![tactic(auto)]

pub mod ask;
pub mod calls;
pub mod even;
pub mod loops;
pub mod pace;
pub mod question;
pub mod refused;
pub mod request;
pub mod wide;
