//! The demanded cells of words whose grammar is straight: each alternative is tokens of fixed length, and behind them
//! nothing more or one rule. Such cells end where the word ends, and no more of them is looked at than what is visited.
#![tactic(auto)]

mod laws;
mod marking;
mod rank_order;
mod straight;
mod targets;
mod visits;

pub use laws::demanded_cells_end_with_the_word;
pub use marking::{mark_children, mark_suffixes};
pub use rank_order::rules_by_rank;
pub use straight::are_straight;
pub use visits::Visits;
