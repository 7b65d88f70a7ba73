// Loading record by record: the record at a place, how far reading has come, and what a row adds to its table.
#![tactic(auto)]

pub mod blanks;
pub mod contents;
pub mod walking;

// How far reading has come: the place of the next record, and the group of the last one read.
#[derive(Clone, Copy)]
pub struct Reach {
    pub place: usize,
    pub group: u8,
}

// What the records of a group gave, and how far reading has come.
#[derive(Clone, Copy)]
pub struct Read<T, const N: usize> {
    pub items: [T; N],
    pub count: usize,
    pub reach: Reach,
}
