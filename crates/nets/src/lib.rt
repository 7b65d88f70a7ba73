// Nets: aliases, tables, nodes and threads, by value; picks and answers.
#![tactic(auto)]

use rows::{Function, Operands, Relation, Selector};
use values::{Locality, Operand, Site, Vars};

pub mod kinds;
pub mod refusals;
pub mod tables;

// At a site, a locality means a site.
#[derive(Clone, Copy, PartialEq, Eq)]
pub struct Alias {
    pub site: Site,
    pub locality: Locality,
    pub means: Site,
}

#[derive(Clone, Copy, PartialEq, Eq)]
pub struct Table {
    pub site: Site,
    pub name: u32,
    pub content: Relation,
}

// A node of kind 16..26. A field that its kind does not use is zero or absent. Numbers as a record has them, `next` 255 where no node comes after it: a node may be handed in with any byte.
#[derive(Clone, Copy, PartialEq, Eq)]
pub struct Node {
    pub kind: u8,
    pub next: u8,
    pub body: u8,
    pub name: u32,
    pub bound: u8,
    pub read: u8,
    pub function: Function,
    pub column: u8,
    pub columns: usize,
    pub kinds: [u8; 4],
    pub locality: Operand,
    pub selector: Selector,
    pub tuple: Operands,
    pub result: Operand,
}

// A node to run, or a loop node; its frame has the rows still to visit. Two kinds of entries, and neither stands for nothing.
#[derive(Clone, Copy, PartialEq, Eq)]
pub enum Entry {
    Run(u8),
    Loop(u8),
}

#[derive(Clone, Copy, PartialEq, Eq)]
pub struct Frame {
    pub entry: Entry,
    pub visit: [bool; 16],
}

// What a table variable holds; one that holds nothing is unbound.
pub type TableVariable = Option<Relation>;

// What a loop's entry keeps of the moment when the loop was first met: the variables, and the table variable that the loop does not read. The one that it reads
// stays what it was while the entry stands, so the thread's own serves. A parallel loop's is stored and never read.
#[derive(Clone, Copy, PartialEq, Eq)]
pub struct Saved {
    pub vars: Vars,
    pub other: TableVariable,
}

// The stack's top is its last frame in use.
#[derive(Clone, Copy, PartialEq, Eq)]
pub struct Thread {
    pub site: Site,
    pub vars: Vars,
    pub relations: [TableVariable; 2],
    pub stack: [Frame; 8],
    pub depth: usize,
}

// No invariant says that it is sound, or that its counts are within the arrays: nets with any bytes are handed in, and judged by `sound_net`. Arrays with counts, since its memory is fixed.
#[derive(Clone, Copy, PartialEq, Eq)]
pub struct Net {
    pub aliases: [Alias; 56],
    pub aliascount: usize,
    pub tables: [Table; 8],
    pub tablecount: usize,
    pub nodes: [Node; 128],
    pub nodecount: usize,
    pub threads: [Thread; 8],
    pub threadcount: usize,
    // For the entry at place j of the stack of thread i at i * 8 + j. It stands here and not in the frame, so that nothing that hands on a thread copies it.
    pub saved: [Saved; 64],
}

// A pick names a thread place and a row place. Lists of picks come from outside, so the layout is C's.
#[repr(C)]
#[derive(Clone, Copy, PartialEq, Eq)]
pub struct Pick {
    pub thread: u8,
    pub row: u8,
}

// The refusals of a pick, numbers 10 to 20 in this order.
#[derive(Clone, Copy, PartialEq, Eq)]
pub enum Refusal {
    Unsound,
    NoThread,
    Unbound,
    NoSite,
    NoTable,
    TableThere,
    Misfit,
    Held,
    NoResult,
    NotReady,
    Full,
}

// How many rows a pick added and took.
#[derive(Clone, Copy, PartialEq, Eq)]
pub struct Done {
    pub added: usize,
    pub taken: usize,
}

// What a pick comes to: carried out, or refused.
pub type Answer = Result<Done, Refusal>;

#[derive(Clone, Copy, PartialEq, Eq)]
pub struct Stepped {
    pub answer: Answer,
    pub net: Net,
}
