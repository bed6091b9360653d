//! The shared memo: a table of the answers of a problem's demanded cells, as a memo, and the answers when it is closed.
#![tactic(auto)]

mod closed;
mod laws;
mod looking;
mod making;
mod probe;
mod publishing;
mod table;

pub use closed::Closed;
pub use memo_words::Pass;
pub use probe::Probe;
pub use table::Table;
