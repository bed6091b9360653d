//! What a run writes: the report of a word, or the line of a fault.
#![tactic(auto)]

mod big_lines;
mod fault;
mod line;
mod number_line;
mod pair_lines;
mod tree_lines;
mod wins_line;
mod word_lines;

pub use big_lines::big_report;
pub use fault::{Fault, fault_line};
pub use line::Line;
pub use number_line::push_number_line;
pub use pair_lines::{PairOutcome, pair_report};
pub use tree_lines::push_nodes;
pub use wins_line::push_wins;
pub use word_lines::{Outcome, word_report};
