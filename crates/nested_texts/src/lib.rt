//! Job texts whose rules may have alternatives as arguments, `adp 3`, as texts without them.
#![tactic(auto)]

mod header;
pub mod laws;
mod lines;
mod nested;
mod output;
mod pile;
mod plain;
mod replaced;
mod shape;

pub use plain::{Plain, is_nested_text, plain_text};
