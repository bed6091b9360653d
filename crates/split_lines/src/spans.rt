//! Where a token of fixed length ends, and what an argument may span.

ghost use Rattle.std.specs.Prelude.{◌≡◌, ℕ, ◌≤◌, ◌↔◌, IsTrue, Some};
ghost use Rattle.adp_model.specs.PosedProblem.{IsSpan};
ghost use Rattle.adp_model.specs.Splits.{FitsSpan};
ghost use Rattle.adp_model.specs.WellFormed.{IsKnown};
ghost use Rattle.viable_splits.specs.Placing.{on_span};
ghost use Rattle.split_lines.specs.Laid.{IsFixed};

use crate::classes::ClassTables;
use adp_model::Arg;
use viable_splits::argument_ends;

/// Where a token of fixed length that begins at `from` ends, where it matches there and ends at `last` or before.
pub fn token_end(tables: &ClassTables<'_>, token: &Arg, from: usize, last: usize) -> Option<usize>
    requires known { IsKnown tables.now.grammar token.now }
    requires fixed { IsFixed token.now }
    requires span { IsSpan tables.now.word from last }
    requires short { last ≤ 4000 }
    ensures { (end : ℕ) → (result ≡ Some end) ↔ ((end ≤ last) × FitsSpan tables.now (on_span token.now from end)) }
{
    let ends = argument_ends(tables, token, from, last);
    if ends.start < ends.end {
        Some(ends.start)
    } else {
        None
    }
}

/// Whether an argument may have the letters from `from` to `to`.
#[inline(always)]
pub fn fits(tables: &ClassTables<'_>, argument: &Arg, from: usize, to: usize) -> bool
    requires known { IsKnown tables.now.grammar argument.now }
    requires span { IsSpan tables.now.word from to }
    requires short { to ≤ 4000 }
    ensures { IsTrue result ↔ FitsSpan tables.now (on_span argument.now from to) }
{
    let ends = argument_ends(tables, argument, from, to);
    ends.start <= to && to < ends.end
}
