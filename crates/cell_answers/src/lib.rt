//! The answer of a cell from the scores of the cells that it demands. What the cells of arguments are worth stands in
//! rows, by starts, and in columns, by ends, so that both arguments of a line are read forwards.
#![tactic(auto)]

mod along;
mod answer_cuts;
mod argument_values;
mod by_term;
mod filling;
mod letters_between;
mod noted_ends;
mod only_ends;
mod opened;
mod scores;
mod tails;
mod term_along;

pub use answer_cuts::{cell_answer, cell_answer_noting, first_cuts, kept_answer};
pub use argument_values::{argument_value, token_value};
pub use filling::{Best, cell_best, cell_score, cell_score_noting};
pub use scores::{Packed, Scores};
pub use tails::{KeptEnds, Tails};
