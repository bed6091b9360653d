//! Two algebras in order, as one: the best by the first algebra and, among equals, the best by the second.
#![tactic(auto)]

mod checking;
mod compiling;
mod copying;
mod error;
mod joining;
pub mod laws;
mod numbers;

pub use checking::check_pair;
pub use compiling::{compile, compile_by, have_same_goal, recompile_by};
pub use error::{CompileError, PairError};
pub use joining::pair_of;
