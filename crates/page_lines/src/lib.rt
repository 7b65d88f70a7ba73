// A table laid out for people: cells of 13 bytes, four of them and a line feed in a line, a line for each row and one of sums.
#![tactic(auto)]

pub mod cells;
pub mod lines;
