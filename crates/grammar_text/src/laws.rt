//! What follows from the definitions of texts. Each law is the contract of a function with an empty body.

pub mod counts;
pub mod lines;
pub mod verdicts;
