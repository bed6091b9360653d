//! The answers of a problem's demanded cells, on one thread: one sweep marks the demanded cells from the axiom's cell
//! on, one sweep fills in their scores, children first, and the answer of a cell is found from these scores when it is
//! asked for.
#![tactic(auto)]

mod demand;
mod filling;
mod marking;
mod row_marks;
mod solved;
mod solving;
mod suffixes;

pub use demand::demanded_marks;
pub use solved::Solved;
pub use solving::{solve, solve_prepared};
