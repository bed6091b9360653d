//! Grammars with nested right sides: which trees they have, and that these are the trees of the plain grammar, in which
//! each nested alternative is a rule of its own.
#![tactic(auto)]

pub mod laws;
