ghost use Rattle.std.specs.Prelude.{◌≤◌, MatchResult, length};
ghost use Rattle.adp_model.specs.Bounds.{IsNodeBound};
ghost use Rattle.adp_model.specs.ProblemFields.{most_nodes};
ghost use Rattle.first_trees.specs.ListLimits.{IsListLimitFault, KeepsListLimits, most_first_trees};

use adp_model::{LimitFault, Problem};

/// How many entries all lists of a word may have together, and how many nodes its listed trees.
const MOST_LISTED: u64 = 4_194_304;

/// Whether so many first trees may be asked for, where the word's node bound is this one.
///
/// # Errors
///
/// Where the cell bound or else the node bound, so many times, is more than 4,194,304: kind 5 or kind 6, with the
/// product.
pub fn admit_lists(problem: &Problem<'_>, nodes: u64, k: u32) -> Result<(), LimitFault>
    requires few_trees { k ≤ most_first_trees }
    requires node_bound { IsNodeBound problem.now.grammar (length problem.now.word) nodes }
    requires few_nodes { nodes ≤ most_nodes }
    ensures { MatchResult result (λ _. KeepsListLimits problem.now.grammar (length problem.now.word) k)
        (IsListLimitFault problem.now.grammar (length problem.now.word) k) }
{
    let entries = problem.cells * u64::from(k);
    if entries > MOST_LISTED {
        return Err(LimitFault {
            kind: 5,
            number: entries,
        });
    }
    let listed = nodes * u64::from(k);
    if listed > MOST_LISTED {
        return Err(LimitFault {
            kind: 6,
            number: listed,
        });
    }
    Ok(())
}
