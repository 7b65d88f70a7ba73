// A step that is no loop: the rows that it judged, the answers of inserts, the checks of aggregates, and what it leaves of its table, table variables and variables.
#![tactic(auto)]

use rows::Row;
use values::Value;

pub mod effects;
pub mod saying;
pub mod tables;

// The rows that a step speaks of, judged before anything is changed: columns of what it makes of them, the rows with new ones at their places, which rows
// are selected (and, in an update, fit), and an aggregate's result.
#[derive(Clone, Copy)]
pub struct Judged {
    pub columns: usize,
    pub kinds: [u8; 4],
    pub rows: [Row; 16],
    pub flags: [bool; 16],
    pub result: Option<Value>,
}
