//! The vocabulary of the engine: texts, grammars, jobs, problems, cells and answers, and every definition
//! that a promise of the engine cites (`specs/`).
#![tactic(auto)]

mod answers;
mod cell;
mod fault;
mod formed_terms;
mod grammar;
mod job;
pub mod laws;
mod output;
mod problem;
mod sequence;
mod text;
mod well_formed;

pub use answers::{Answers, axiom_answer};
pub use cell::{Answer, Cell, Choice};
pub use fault::{GrammarFault, LimitFault, TextFault};
pub use grammar::{
    Algebra, Alt, Arg, Class, Goal, Grammar, Kind, Linear, Rule, Sign, Size, Term, Wide, WideTerm,
};
pub use job::Job;
pub use output::{push_decimal, push_escaped, push_quoted, push_signed};
pub use problem::{MOST_LETTERS, Problem};
pub use sequence::Sequence;
pub use text::{Text, is_printable};
pub use well_formed::{is_name, is_well_formed, is_word_byte};
