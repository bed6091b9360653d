//! The reader of job texts.

mod algebras;
mod collected;
mod declaration;
mod faults;
pub(crate) mod first_fault;
pub(crate) mod gathered;
mod grammar;
pub(crate) mod job;
mod judge;
mod kinds;
mod letters;
mod line_tests;
mod lines;
pub(crate) mod names;
mod repeats;
mod rules;
mod shape;
