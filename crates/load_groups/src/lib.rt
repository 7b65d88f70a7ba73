// Loading a file group by group: one walk for aliases, tables, nodes, starts and picks, a loop for rows, and what may be left after the last group.
#![tactic(auto)]

pub mod aliases;
pub mod blanks;
pub mod contents;
pub mod ending;
pub mod nodes;
pub mod picks;
pub mod starts;
pub mod tables;
pub mod walk;
