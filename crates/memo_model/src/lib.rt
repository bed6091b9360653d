//! The vocabulary of the evaluators: the memo of answers that they share, what the steps of its probes tell, how far a
//! machine has come with a cell, and how many steps it may take.
#![tactic(auto)]

mod memo;
mod probe;
mod steps;
mod visit;

pub use memo::Memo;
pub use probe::{Look, Publish, Stage};
pub use steps::Steps;
pub use visit::{Frame, Hand, Position, Visit};
