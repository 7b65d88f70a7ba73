// Lists of picks and of their answers as bytes: two for a pick, 24 for an answer.
#![tactic(auto)]

pub mod answers;
pub mod picks;
