ghost use Rattle.std.specs.Prelude.{ℕ, ◌+◌, ◌^◌, ◌<◌, ◌≤◌, length, slice_index, vec_len};
ghost use Rattle.grammar_check.specs.Fills.{rules_plan, AreFillable, StayFillable, IsKept, IsKeptRanked, IsFilledTo, IsRankFilled};

use crate::rule_plan::RulePlan;
use crate::table::Table;

/// Writes the bounds at this length of the rules of this rank, once those of all lesser ranks are written.
fn fill_rank(
    plans: &mut Vec<RulePlan<'_>>,
    ranks: &[u32],
    table: &mut Table,
    len: usize,
    rank: usize,
)
    requires fillable { AreFillable ranks.now table.old plans.old }
    requires within { len < table.old.width }
    requires short { len < 2 ^ 32 }
    ensures stay { StayFillable table.old plans.old table.new plans.new }
    ensures filled { (bound : ℕ → ℕ → ℕ) → IsKept bound (rules_plan plans.old.items) len
        → IsKeptRanked ranks.now (rules_plan plans.old.items)
        → IsRankFilled bound ranks.now table.old plans.old.items len rank
        → IsRankFilled bound ranks.now table.new plans.new.items len (rank + 1) }
{
    for rule in 0..plans.len() {
        if ranks[rule] as usize == rank {
            let plan = &mut plans[rule];
            let value = plan.extend(table, len);
            table.set(rule, len, value);
        }
    }
}

/// Writes the bounds of all rules, whose ranks are below `count`, at this length, once those at all lesser lengths are
/// written.
fn fill_length(
    plans: &mut Vec<RulePlan<'_>>,
    ranks: &[u32],
    count: usize,
    table: &mut Table,
    len: usize,
)
    requires fillable { AreFillable ranks.now table.old plans.old }
    requires below { (rule : ℕ) → rule < vec_len plans.old → slice_index ranks.now rule < count }
    requires within { len < table.old.width }
    requires short { len < 2 ^ 32 }
    ensures stay { StayFillable table.old plans.old table.new plans.new }
    ensures filled { (bound : ℕ → ℕ → ℕ) → IsKept bound (rules_plan plans.old.items) len
        → IsKeptRanked ranks.now (rules_plan plans.old.items)
        → IsFilledTo bound table.old plans.old.items len → IsFilledTo bound table.new plans.new.items (len + 1) }
{
    for rank in 0..count {
        fill_rank(plans, ranks, table, len, rank);
    }
}

/// A number that all of these ranks are below, and no more than one above the greatest.
fn count_of(ranks: &[u32]) -> usize
    ensures { (rule : ℕ) → rule < length ranks.now → slice_index ranks.now rule < result }
{
    let mut count = 0;
    for rank in ranks {
        count = count.max(*rank as usize + 1);
    }
    count
}

/// Writes the bounds of all rules at all lengths up to `most`.
pub fn fill(plans: &mut Vec<RulePlan<'_>>, ranks: &[u32], table: &mut Table, most: usize)
    requires fillable { AreFillable ranks.now table.old plans.old }
    requires within { most < table.old.width }
    requires short { most < 2 ^ 32 }
    ensures stay { StayFillable table.old plans.old table.new plans.new }
    ensures filled { (bound : ℕ → ℕ → ℕ) → ((len : ℕ) → len ≤ most → IsKept bound (rules_plan plans.old.items) len)
        → IsKeptRanked ranks.now (rules_plan plans.old.items)
        → IsFilledTo bound table.old plans.old.items 0 → IsFilledTo bound table.new plans.new.items (most + 1) }
{
    let count = count_of(ranks);
    for len in 0..most + 1 {
        fill_length(plans, ranks, count, table, len);
    }
}
