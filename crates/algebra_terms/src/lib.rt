//! Terms of scoring algebras: reading them, their values, and how they respond to better scores.
#![tactic(auto)]

mod error;
pub mod laws;
mod lexer;
mod number;
mod part;
mod pile;
mod read;
mod symbols;
mod total;
mod wide_error;
mod wide_reading;
mod wide_steps;

pub use error::{TermError, TokenError};
pub use lexer::{Token, TokenKind, line_tokens, tokens};
pub use number::number_of;
pub use part::is_term;
pub use read::read_term;
pub use symbols::{Symbol, split_symbol, symbol_at};
pub use term_values::{eval, monotone, not_negative, strict};
pub use wide_error::WideError;
pub use wide_reading::{is_wide_term, read_wide};
