//! The preferred tree of a word, from the answers of its demanded cells.
#![tactic(auto)]

mod tree_nodes;

pub use tree_nodes::{NodeAt, preorder};
