//! What follows from the definitions. Each law is the contract of a function with an empty body.

pub mod bellman;
pub mod bounds;
pub mod cells;
pub mod demand;
pub mod derivation;
pub mod existence;
pub mod heights;
pub mod limits;
pub mod order;
pub mod report;
pub mod sizes;
pub mod splits;
pub mod strict;
pub mod terms;
pub mod well_formed;
