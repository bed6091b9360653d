//! The step machine: a top-down computation over a memo that can be stopped between any two steps.
#![tactic(auto)]

mod cell_notes;
mod machine;
mod notes;
mod plain_memo;
mod work;

pub use machine::Machine;
pub use plain_memo::{PlainMemo, PlainPass, PlainProbe};
pub use split_lines::Prepared;
pub use work::Turn;
