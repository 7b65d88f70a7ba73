// What steps append to one relation, and the rows of it that they keep. All by value.
#![tactic(auto)]

use rows::Row;

pub mod appending;
pub mod sifting;

// What a pass over rows does with those that its plan selects.
#[derive(Clone, Copy)]
pub enum Pass {
    Mark, // they stay as they are
    Update, // they give way to what t gives for them; where that does not fit, they are not marked
    Select, // they give way to what t gives for them, whether it fits or not
}

// The rows after a pass over them, and which are marked.
#[derive(Clone, Copy)]
pub struct Swept {
    pub rows: [Row; 16],
    pub flags: [bool; 16],
}
