// What a thread holds, as records of 104 bytes: its bindings, and its stack from the top down, each entry with what it holds.
#![tactic(auto)]

pub mod bindings;
pub mod entries;
pub mod loops;
pub mod records;
pub mod threads;
