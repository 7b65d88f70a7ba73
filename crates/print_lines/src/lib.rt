// What the programs read and print.
#![tactic(auto)]

pub mod arguments;
pub mod buffer;
pub mod cells;
pub mod endings;
pub mod faults;
pub mod input;
pub mod lines;
pub mod numbers;
pub mod text;
