// The soundness of the parts of a net: values, relations, operands and nodes in their ranges; aliases and tables, no two alike.
#![tactic(auto)]

pub mod agreement;
pub mod lists;
pub mod nodes;
pub mod operands;
pub mod ranges;
pub mod relations;
#[cfg(test)]
mod tests;
