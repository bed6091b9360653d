//! Jobs whose rules may have alternatives as arguments: the job of a text is that of its plain text, and how it is read.
#![tactic(auto)]

pub mod laws;
mod reading;

pub use reading::read_nested;
