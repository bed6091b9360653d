ghost use Rattle.std.specs.Prelude.{◌≡◌};
ghost use Rattle.algebra_terms.specs.declared.wide_error.WideError.TheVariants as wide;
ghost use Rattle.algebra_terms.specs.WideErrors.{wide_error};

use crate::error::TokenError;
use std::alloc::{AllocError, AllocFailed};
use thiserror::Error;

/// Why a text could not be read as a wide term: the first that holds, in this order.
#[derive(Clone, Copy, Debug, PartialEq, Eq, Error)]
pub enum WideError {
    #[error("no term has this shape")]
    Shape,
    #[error("a variable is no name")]
    Name,
    #[error("a number is none, or too great")]
    Number,
    #[error("a variable is not declared")]
    Unknown,
    /// So many leaves, which are too many.
    #[error("there are too many numbers and variables")]
    Count(u32),
    #[error("a variable stands twice")]
    Twice,
    #[error("out of memory")]
    Memory,
}

impl From<AllocError> for WideError {
    ghost from_gives = { λ _ e. e ≡ wide.Memory };

    fn from(_e: AllocError) -> WideError {
        WideError::Memory
    }
}

impl<T: Drop> From<AllocFailed<T>> for WideError {
    ghost from_gives = { λ _ e. e ≡ wide.Memory };

    fn from(_e: AllocFailed<T>) -> WideError {
        WideError::Memory
    }
}

impl From<TokenError> for WideError {
    ghost from_gives = { λ error e. e ≡ wide_error error };

    fn from(error: TokenError) -> WideError {
        match error {
            TokenError::StrayByte | TokenError::OpenQuote => WideError::Shape,
            TokenError::Memory => WideError::Memory,
        }
    }
}
