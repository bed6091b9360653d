ghost use Rattle.std.specs.Prelude.{◌≡◌};

use adp_model::{GrammarFault, LimitFault};
use std::alloc::AllocError;
use std::fmt;
use thiserror::Error;

/// Why two algebras were not made a pair: a fault of theirs, or want of memory.
#[derive(Drop, Error)]
pub enum PairError {
    #[error("the pair of algebras is refused")]
    Fault(GrammarFault),
    #[error("out of memory")]
    Memory,
}

/// Why a pair was not compiled: a number that is too great, or want of memory.
#[derive(Clone, Copy, Debug, PartialEq, Eq, Error)]
pub enum CompileError {
    #[error("a compiled number passes the limit")]
    Fault(LimitFault),
    #[error("out of memory")]
    Memory,
}

impl fmt::Debug for PairError {
    fn fmt<W: fmt::Write>(&self, f: &mut fmt::Formatter<W>) -> fmt::Result {
        match self {
            PairError::Fault(fault) => write!(f, "Fault(kind {})", fault.kind),
            PairError::Memory => f.write_str("Memory"),
        }
    }
}

impl From<AllocError> for PairError {
    ghost use Rattle.lex_product.specs.declared.error.PairError.TheVariants.{Memory};

    ghost from_gives = { λ _ e. e ≡ Memory };

    fn from(_e: AllocError) -> PairError {
        PairError::Memory
    }
}

impl From<AllocError> for CompileError {
    ghost use Rattle.lex_product.specs.declared.error.CompileError.TheVariants.{Memory};

    ghost from_gives = { λ _ e. e ≡ Memory };

    fn from(_e: AllocError) -> CompileError {
        CompileError::Memory
    }
}
