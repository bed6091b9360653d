//! The checks of a grammar, and the limits of its words.
#![tactic(auto)]

mod admission;
mod alternative;
mod bounds;
mod checked;
mod checking;
mod cut;
mod error;
mod fill;
mod filled;
pub mod laws;
mod letter_alternative;
mod linear_alternative;
mod measure;
mod node;
mod part;
mod plan;
mod rule_plan;
mod signs;
mod singles;
mod table;
mod tokens;
mod wide_alternative;
mod wide_rows;

pub use admission::{admit, admit_known, admit_within, cells_within_limits};
pub use bounds::{BoundRows, node_bound, score_bound};
pub use checked::Checked;
pub use checking::{algebra_named, check};
pub use error::{AdmitError, CheckError};
