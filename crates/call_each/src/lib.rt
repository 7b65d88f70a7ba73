// The calls that other programs make: the answers to all picks, the tables and the threads that they leave, the page of a table, a trace of the run, and a file's own picks, as bytes.
#![tactic(auto)]

pub mod answers;
pub mod picks;
pub mod table_page;
pub mod tables;
pub mod threads;
pub mod trace;
