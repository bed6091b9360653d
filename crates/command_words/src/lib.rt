//! The words of the command line: from the words to the command that they are.
#![tactic(auto)]

mod schedule;
mod words;

pub use schedule::schedule_entries;
pub use words::{Usage, read_words};
