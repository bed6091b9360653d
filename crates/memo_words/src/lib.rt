//! The words of the memo table, what each pass knows of them, and the rule that holds between any two steps.
#![tactic(auto)]

mod bits;
mod codes;
mod homes;
pub mod laws;
mod part;
mod pass;
mod places;
mod plan;
mod rest;
mod rule;
mod steps;
mod view;
mod word_step;
mod words;
mod zeros;

pub use codes::{
    NO_CANDIDATE, cell_code, choice_code, code_cell, code_choice, code_score, codes_tell_apart,
    score_code,
};
pub use homes::{each_position_is_tried_once, home, nth_position};
pub use part::Part;
pub use pass::Pass;
pub use plan::Key;
pub use rest::Rest;
pub use rule::TableKept;
pub use view::{LastStep, Owned, Seen, View};
pub use word_step::{Action, Place, WordStep};
pub use words::Words;
