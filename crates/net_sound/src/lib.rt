// Soundness of a net as a test, clause by clause.
#![tactic(auto)]

pub mod saved;
pub mod threads;
pub mod whole;
