// What tuples give and which rows fit; T's formals bound.
#![tactic(auto)]

pub mod binding;
pub mod fit;
