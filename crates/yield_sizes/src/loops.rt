ghost use Rattle.std.specs.Prelude.{◌≡◌, ℕ, ◌<◌, ◌≤◌, IfOk, IsTrue, MatchOption, count_by, length, map, min};
ghost use Rattle.adp_model.specs.WellFormed.{is_well_formed};
ghost use Rattle.yield_sizes.specs.GrammarSizes.{AreSizes};
ghost use Rattle.yield_sizes.specs.LoopAnswers.{AreRanks, IsFirstLoop, IsLoopFree};
ghost use Rattle.yield_sizes.specs.Relations.{IsRelated, IsSquare};

use crate::references::edge_paths;
use crate::rule_sizes::Sizes;
use adp_model::laws::well_formed::numbers_fit_together;
use adp_model::{Grammar, Sequence};
use std::alloc::{AllocError, Global};

/// The first rule that is related to itself.
fn first_to_itself(rows: &[Sequence<bool>]) -> Option<u32>
    requires square { IsSquare (length rows.now) rows.now }
    requires few { length rows.now ≤ 128 }
    ensures { MatchOption result
        ((rule : ℕ) → IsRelated rows.now rule rule → ⊥)
        (λ rule. IsRelated rows.now rule rule × ((other : ℕ) → other < rule → IsRelated rows.now other other → ⊥)) }
{
    for (rule, row) in rows.iter().enumerate() {
        if row.as_slice()[rule] {
            return Some(rule as u32);
        }
    }
    None
}

/// The first rule on a loop.
pub fn first_loop(
    alloc: Global,
    grammar: &Grammar,
    sizes: &Sizes,
) -> Result<Option<u32>, AllocError>
    requires well_formed { IsTrue (is_well_formed grammar.now) }
    requires sizes { AreSizes grammar.now sizes.now }
    ensures { IfOk result (IsFirstLoop grammar.now) }
{
    numbers_fit_together();
    let paths = edge_paths(alloc, grammar, sizes)?;
    Ok(first_to_itself(&paths))
}

fn marked(row: &[bool]) -> u32
    ensures { result ≡ min (count_by (λ mark. mark) row.now) u32.MAX }
{
    u32::try_from(row.iter().filter(|mark| **mark).count()).unwrap_or(u32::MAX)
}

fn marked_in_each(alloc: Global, rows: &[Sequence<bool>]) -> Result<Vec<u32>, AllocError>
    ensures { IfOk result (λ counts. counts.items ≡ map (λ row. min (count_by (λ mark. mark) row) u32.MAX) rows.now) }
{
    rows.iter().map(|row| marked(row.as_slice())).collect(alloc)
}

/// A rank for each rule, below the number of rules: each empty-context edge goes to a lesser rank.
pub fn ranks(alloc: Global, grammar: &Grammar, sizes: &Sizes) -> Result<Vec<u32>, AllocError>
    requires well_formed { IsTrue (is_well_formed grammar.now) }
    requires sizes { AreSizes grammar.now sizes.now }
    requires no_loop { IsLoopFree grammar.now }
    ensures { IfOk result (λ ranks. AreRanks grammar.now ranks.items) }
{
    numbers_fit_together();
    let paths = edge_paths(alloc, grammar, sizes)?;
    marked_in_each(alloc, &paths)
}
