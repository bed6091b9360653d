ghost use Rattle.std.specs.Prelude.{◌≡◌};

use adp_model::{GrammarFault, LimitFault};
use std::alloc::{AllocError, AllocFailed};
use std::fmt;
use thiserror::Error;

/// Why a grammar was not checked: it has a fault, or want of memory.
#[derive(Drop, Error)]
pub enum CheckError {
    #[error("the grammar is refused")]
    Fault(GrammarFault),
    #[error("out of memory")]
    Memory,
}

/// Why a word was not admitted: it passes a limit, or want of memory.
#[derive(Clone, Copy, Debug, PartialEq, Eq, Error)]
pub enum AdmitError {
    #[error("the word passes a limit")]
    Fault(LimitFault),
    #[error("out of memory")]
    Memory,
}

impl fmt::Debug for CheckError {
    fn fmt<W: fmt::Write>(&self, f: &mut fmt::Formatter<W>) -> fmt::Result {
        match self {
            CheckError::Fault(fault) => write!(f, "Fault(kind {})", fault.kind),
            CheckError::Memory => f.write_str("Memory"),
        }
    }
}

impl From<AllocError> for CheckError {
    ghost use Rattle.grammar_check.specs.declared.error.CheckError.TheVariants.{Memory};

    ghost from_gives = { λ _ e. e ≡ Memory };

    fn from(_e: AllocError) -> CheckError {
        CheckError::Memory
    }
}

impl<T: Drop> From<AllocFailed<T>> for CheckError {
    ghost use Rattle.grammar_check.specs.declared.error.CheckError.TheVariants.{Memory};

    ghost from_gives = { λ _ e. e ≡ Memory };

    fn from(_e: AllocFailed<T>) -> CheckError {
        CheckError::Memory
    }
}

impl From<AllocError> for AdmitError {
    ghost use Rattle.grammar_check.specs.declared.error.AdmitError.TheVariants.{Memory};

    ghost from_gives = { λ _ e. e ≡ Memory };

    fn from(_e: AllocError) -> AdmitError {
        AdmitError::Memory
    }
}
