// The order of values.
#![tactic(auto)]

pub mod compare;
pub mod text;
