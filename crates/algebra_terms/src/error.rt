ghost use Rattle.std.specs.Prelude.{◌≡◌};
ghost use Rattle.algebra_terms.specs.declared.error.TermError.TheVariants as terms;
ghost use Rattle.algebra_terms.specs.declared.error.TokenError.TheVariants as tokens;
ghost use Rattle.algebra_terms.specs.Errors.{term_error};

use std::alloc::{AllocError, AllocFailed};
use thiserror::Error;

/// Why a text could not be read as a term: the first that holds, in this order.
#[derive(Clone, Copy, Debug, PartialEq, Eq, Error)]
pub enum TermError {
    #[error("no term has this shape")]
    Shape,
    #[error("a variable is no name")]
    Name,
    #[error("a number is none, or too great")]
    Number,
    #[error("a variable is not declared")]
    Unknown,
    #[error("out of memory")]
    Memory,
}

impl From<AllocError> for TermError {
    ghost from_gives = { λ _ e. e ≡ terms.Memory };

    fn from(_e: AllocError) -> TermError {
        TermError::Memory
    }
}

impl<T: Drop> From<AllocFailed<T>> for TermError {
    ghost from_gives = { λ _ e. e ≡ terms.Memory };

    fn from(_e: AllocFailed<T>) -> TermError {
        TermError::Memory
    }
}

impl From<TokenError> for TermError {
    ghost from_gives = { λ error e. e ≡ term_error error };

    fn from(error: TokenError) -> TermError {
        match error {
            TokenError::StrayByte | TokenError::OpenQuote => TermError::Shape,
            TokenError::Memory => TermError::Memory,
        }
    }
}

/// Why the tokens of a line could not be found.
#[derive(Clone, Copy, Debug, PartialEq, Eq, Error)]
pub enum TokenError {
    #[error("a byte begins no token")]
    StrayByte,
    #[error("a quoted text isn't closed")]
    OpenQuote,
    #[error("out of memory")]
    Memory,
}

impl From<AllocError> for TokenError {
    ghost from_gives = { λ _ e. e ≡ tokens.Memory };

    fn from(_e: AllocError) -> TokenError {
        TokenError::Memory
    }
}

impl<T: Drop> From<AllocFailed<T>> for TokenError {
    ghost from_gives = { λ _ e. e ≡ tokens.Memory };

    fn from(_e: AllocFailed<T>) -> TokenError {
        TokenError::Memory
    }
}
