//! A table of words with the history of all steps on them: a layer over `atomic_table`, for any rule.
#![tactic(auto)]

mod history;
pub mod laws;
mod rule;
mod table;

pub use history::{Deed, Event, Mark, WithMarks};
pub use rule::{Seats, WithHistory};
pub use table::HistoryTable;
