//! Rows of numbers, side by side for the positions of a word, each of which is raised to the greatest of what other rows
//! come to: one operation for all positions of a row.
#![tactic(auto)]

mod numbers;
mod raising;
mod totals;

pub use numbers::{RowNumber, product, with};
pub use totals::{Totals, Window};
