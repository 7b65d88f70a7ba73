// What a pick reads, and what the decision returns.
#![tactic(auto)]

use nets::{Done, Frame, Refusal};
use values::{Site, Vars};

pub mod found;
pub mod parts;
pub mod sites;

// What a pick meets beside its thread, its node and rows: where L leads, whether the table is there, whether a loop entry holds the table variable to
// be bound, the numbers of tables and threads, and the row picked. Neither flag has a value beside it: rows are judged before check 14, and of a table that is not there as no rows.
#[derive(Clone, Copy)]
pub struct Setting {
    pub located: Option<Site>,
    pub found: bool,
    pub held: bool,
    pub tables: usize,
    pub threads: usize,
    pub row: u8,
}

// How many rows a pick that is carried out adds and takes, and what becomes of the thread: its top frame, the height of its stack and its variables; where a parallel round opens, also the
// variables of the new thread. A sequential round's body goes above the top frame. Where a loop's first round opens, its entry holds the bindings from then on (`saves`: they are the
// thread's own, so no value stands beside).
#[derive(Clone, Copy)]
pub struct Decided {
    pub done: Done,
    pub saves: bool,
    pub frame: Frame,
    pub depth: usize,
    pub vars: Vars,
    pub inner: Option<Vars>,
}

// What a pick comes to: carried out, or refused.
pub type Decision = Result<Decided, Refusal>;
