//! The scores of a problem's demanded cells by rows: for all ends of a rule and a start at once.
#![tactic(auto)]

mod order;
mod rules;
mod steps;
mod sweep;
mod through;

pub use order::order_of_long_rows;
pub use sweep::scores_by_rows;
