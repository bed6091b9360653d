//! The word that is made of a seed and a size, the grammar of pairs that it is asked under, and that no size at which
//! a word is made passes a limit.
#![tactic(auto)]

mod grammar;
pub mod laws;
mod word;

pub use grammar::pairs_grammar;
pub use word::made_word;
