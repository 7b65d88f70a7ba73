// A window whose state another program keeps, as 88 bytes that it lends to each call.
#![tactic(auto)]

pub mod calls;
pub mod put;
pub mod read;

// The bytes of a state, and where its Ints begin, four bytes each.
pub const STATE: usize = 88;

const INTS: usize = 24;

const INT: usize = 4;
