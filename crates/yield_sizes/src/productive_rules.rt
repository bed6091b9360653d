ghost use Rattle.std.specs.Prelude.{◌≡◌, IfOk, IsTrue, is_some, map};
ghost use Rattle.adp_model.specs.WellFormed.{is_well_formed};
ghost use Rattle.yield_sizes.specs.KnownLengths.{AreProductive};

use crate::least_lengths::least_lengths;
use adp_model::Grammar;
use std::alloc::{AllocError, Global};

fn known_ones(alloc: Global, known: &[Option<u32>]) -> Result<Vec<bool>, AllocError>
    ensures { IfOk result (λ flags. flags.items ≡ map is_some known.now) }
{
    known.iter().map(Option::is_some).collect(alloc)
}

/// Whether each rule is productive: whether a tree of it exists, letters ignored.
pub fn productive(alloc: Global, grammar: &Grammar) -> Result<Vec<bool>, AllocError>
    requires { IsTrue (is_well_formed grammar.now) }
    ensures { IfOk result (λ flags. AreProductive grammar.now flags.items) }
{
    let known = least_lengths(alloc, grammar)?;
    known_ones(alloc, &known)
}
