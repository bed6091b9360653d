//! The search for the next argument of a visit whose cell isn't noted: past whole alternatives whose cells are noted,
//! and along lines of splits by the bits of 64 positions at a time.
#![tactic(auto)]

mod laws;
mod noted_cells;
mod passing;
mod positions;
mod seeking;
mod skipping;
mod walk;

pub use laws::walks_move_on;
pub use noted_cells::NotedCells;
pub use seeking::seek;
pub use walk::asked;
