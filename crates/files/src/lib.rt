// Files of 104-byte records: what loading and writing give back.
#![tactic(auto)]

use nets::{Net, Pick};

// A fault of a file: its number and record place.
#[derive(Clone, Copy, PartialEq, Eq)]
pub struct Fault {
    pub number: u8,
    pub place: usize,
}

// The net and the picks of an accepted file; of a refused one its first fault, the empty net and no picks.
#[derive(Clone, Copy)]
pub struct Loaded {
    pub verdict: Result<(), Fault>,
    pub net: Net,
    pub picks: [Pick; 256],
    pub pickcount: usize,
}

// Why nothing is written.
#[derive(Clone, Copy, PartialEq, Eq)]
pub enum NotWritten {
    Unsound,
    Short,
}
