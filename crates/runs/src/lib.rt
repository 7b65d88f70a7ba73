// Runs over a list of picks.
#![tactic(auto)]

pub mod bytes;
pub mod running;
