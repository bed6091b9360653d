//! What the words of a command line and the bytes of an input ask for: the command, and the one verdict on both.
#![tactic(auto)]

mod command;
pub mod laws;

pub use command::{Command, Mode};
