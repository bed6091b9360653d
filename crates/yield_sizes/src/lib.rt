//! What the lengths of derived trees tell of a grammar: productive rules, sizes, loops and ranks, anchored rules.
#![tactic(auto)]

mod anchoring;
mod argument_tests;
mod greatest_lengths;
mod least_lengths;
mod loops;
mod places;
mod possible;
mod productive_rules;
mod references;
mod relation;
mod rule_anchors;
mod rule_sizes;
mod sizing;

pub use anchoring::anchors;
pub use loops::{first_loop, ranks};
pub use possible::first_impossible;
pub use productive_rules::productive;
pub use rule_anchors::Anchors;
pub use rule_sizes::Sizes;
pub use sizing::sizes;
