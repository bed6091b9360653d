//! The first trees of a cell: which they are, and that a list of them needs to keep little of each.
#![tactic(auto)]

pub mod laws;
pub mod limits;
pub mod nested;
