// Nets made by hand, for tests.
#![tactic(auto)]

pub mod contents;
pub mod exchanged;
pub mod nodes;
pub mod programs;
pub mod saved;
pub mod stacks;
pub mod threads;
