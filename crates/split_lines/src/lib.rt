//! The splits of a cell, line by line: a line is the splits of an alternative that differ in the last boundary between
//! two arguments of open length. What a word tells of them is worked out once: how far its classes reach, where tokens
//! of fixed length match, and each alternative with its tokens in front and its line.
#![tactic(auto)]

mod beginnings;
mod classes;
mod extents;
mod found;
mod kept;
mod kept_rules;
mod laws;
mod lines;
mod matches;
mod prepared;
mod shared;
mod spans;
mod tokens;
mod ways;

pub use beginnings::Candidates;
pub use kept::{KeptAlternative, Lengths, Scoring, WeightedSum};
pub use laws::{line_begins_here, line_begins_later};
pub use lines::{Boundary, Line, Lines, line_here};
pub use prepared::Prepared;
pub use shared::{Shared, Sharing};
pub use tokens::{fixed_length, is_fixed};
pub use ways::Way;
