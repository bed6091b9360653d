ghost use Rattle.std.specs.Prelude.{◌≡◌, IfOk, IsTrue, map, unwrap_or};
ghost use Rattle.adp_model.specs.WellFormed.{is_well_formed};
ghost use Rattle.yield_sizes.specs.GrammarSizes.{AreAllProductive, AreSizes};

use crate::greatest_lengths::greatest_lengths;
use crate::least_lengths::least_lengths;
use crate::rule_sizes::Sizes;
use adp_model::{Grammar, Sequence};
use std::alloc::{AllocError, Global};

fn or_zero(alloc: Global, known: &[Option<u32>]) -> Result<Vec<u32>, AllocError>
    ensures { IfOk result (λ lengths. lengths.items ≡ map (λ length. unwrap_or length 0) known.now) }
{
    known
        .iter()
        .map(|length| length.unwrap_or(0))
        .collect(alloc)
}

/// The sizes of the grammar's rules.
pub fn sizes(alloc: Global, grammar: &Grammar) -> Result<Sizes, AllocError>
    requires well_formed { IsTrue (is_well_formed grammar.now) }
    requires productive { AreAllProductive grammar.now }
    ensures { IfOk result (AreSizes grammar.now) }
{
    let least = least_lengths(alloc, grammar)?;
    let greatest = greatest_lengths(alloc, grammar)?;
    Ok(Sizes {
        least: Sequence::new(or_zero(alloc, &least)?),
        greatest: Sequence::new(greatest),
    })
}
