//! The viable splits of a cell: where arguments match, in a word or by tables, and the walk over all of them.
#![tactic(auto)]

mod cuts;
mod end_positions;
mod ends;
mod matcher;
mod placing;
mod visiting;
mod walk;

pub use cuts::Cuts;
pub use end_positions::first_ends;
pub use ends::argument_ends;
pub use matcher::Matcher;
pub use visiting::{first_visited, next_visited};
pub use walk::{first_viable, next_viable};
