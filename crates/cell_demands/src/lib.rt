//! What a cell demands: the cells of the rules among the arguments of its viable splits, found line by line and marked.
#![tactic(auto)]

mod bits;
mod laws;
mod letter_rows;
mod marking;
mod row_lines;
mod rows;
mod runs;
mod tails;

pub use laws::notes_stay_true;
pub use marking::{mark_children, mark_children_noting};
pub use rows::{RowRoom, mark_row_children};
pub use tails::Tails;
