//! Slots for the words of a group, which threads fill side by side.
#![tactic(auto)]

mod filling;

pub use filling::{Fill, filled};
