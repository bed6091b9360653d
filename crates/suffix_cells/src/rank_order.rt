ghost use Rattle.std.specs.Prelude.{◌≡◌, ℕ, ◌<◌, IfOk, length, slice_index};
ghost use Rattle.suffix_cells.specs.Ranks.{AreRanked};

use adp_model::Problem;
use adp_model::laws::demand::demanded_children_are_below;
use std::alloc::{AllocError, Global};

/// The rank of a rule.
fn rank(ranks: &[u32], rule: &u32) -> u32
    ensures { result ≡ slice_index ranks.now rule.now }
{
    ranks.get(*rule as usize).copied().unwrap_or(0)
}

/// The numbers below this one.
fn numbers(alloc: Global, count: u32) -> Result<Vec<u32>, AllocError>
    ensures each { IfOk result (λ numbers. length numbers.items ≡ count) }
    ensures are { IfOk result (λ numbers. (number : ℕ) → number < count → slice_index numbers.items number ≡ number) }
{
    let mut numbers = Vec::with_capacity(alloc, count as usize)?;
    for number in 0..count {
        numbers.push(number)?;
    }
    Ok(numbers)
}

/// The rules by rising ranks. Fails for want of memory alone.
pub fn rules_by_rank(alloc: Global, problem: &Problem<'_>) -> Result<Vec<u32>, AllocError>
    ensures { IfOk result (λ rules. AreRanked problem.now rules.items) }
{
    demanded_children_are_below();
    let ranks = problem.ranks.as_slice();
    let mut rules = numbers(alloc, ranks.len() as u32)?;
    rules.sort_unstable_by_key(|rule| rank(ranks, rule));
    Ok(rules)
}
