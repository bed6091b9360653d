//! The text formats of jobs, `adp 1` and `adp 2`.
#![tactic(auto)]

mod error;
pub mod laws;
mod reader;
mod reading;
mod writer;

pub use error::TextError;
pub use reading::read_text;
pub use writer::write_text;
