//! The numbers that scores are kept as, in as few bits as they need, the greatest sums of two of them, and where these
//! stand first. A score is turned so that a better one is greater; one number of each width marks that there is no
//! candidate.
#![tactic(auto)]

mod first_sums;
mod lanes;
mod laws;
mod numbers;
mod packing;
mod sums;
mod term_lines;
mod weighed_sums;
mod width;
mod worthless;

pub use first_sums::{first_long, first_medium, first_short, first_whole};
pub use laws::lesser_positions_stand_before;
pub use numbers::{greater, turned, turned_factors};
pub use packing::{
    LONG_LIMIT, LONG_MARK, MEDIUM_LIMIT, MEDIUM_MARK, NO_CANDIDATE, NO_LIMIT, SHORT_LIMIT,
    SHORT_MARK, long_entry, long_number, medium_entry, medium_number, score_of, short_entry,
    short_number,
};
pub use sums::{Positions, Scales, greatest_long, greatest_medium, greatest_short, greatest_whole};
pub use term_lines::{TermLine, greatest_long_value, greatest_medium_value, greatest_short_value};
pub use weighed_sums::{
    Weights, first_long_weighed, first_medium_weighed, first_short_weighed, first_whole_weighed,
    greatest_long_weighed, greatest_medium_weighed, greatest_short_weighed, greatest_whole_weighed,
};
pub use worthless::are_worthless;
