//! Orders of visiting: turns drawn from a generator of random numbers, and the rotation that begins at a turn.
#![tactic(auto)]

mod laws;
mod orders;
mod rotation;
#[cfg(test)]
mod tests;

pub use laws::{draws_advance_the_generator, rotation_visits_each_number_once};
pub use orders::Orders;
pub use rotation::rotated;
