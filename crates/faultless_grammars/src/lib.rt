//! A grammar that has no fault has sizes and ranks: it can't be that it has none.
#![tactic(auto)]

pub mod laws;
