// Row and node records, which have operands.
#![tactic(auto)]

pub mod nodes;
pub mod operands;
pub mod tuples;
