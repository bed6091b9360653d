//! Terms of scoring algebras at the values of arguments: what they are worth, what they come to, and how they respond
//! to better scores.
#![tactic(auto)]

mod judge;
pub mod laws;
mod lowering;
mod value;

pub use judge::{monotone, not_negative, strict};
pub use lowering::{LinearForm, lowered};
pub use value::eval;
