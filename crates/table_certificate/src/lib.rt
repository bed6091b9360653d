//! Certificates: of each word its demanded cells with their scores, written, and checked line by line.
#![tactic(auto)]

mod blocks;
mod claims;
mod demanded;
mod forms;
mod job_split;
mod known_scores;
pub mod laws;
mod magnitudes;
mod numbers;
mod score_reports;
mod splits;
pub mod uniqueness;
mod verifying;
mod writing;
mod written_blocks;

pub use demanded::{DemandedScores, demanded_cells};
pub use job_split::{Rejected, split_input};
pub use magnitudes::magnitude;
pub use score_reports::score_report;
pub use verifying::{VerifyError, verify_all};
pub use writing::certificate;
