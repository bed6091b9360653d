ghost use Rattle.std.specs.Prelude.{◌≡◌, ◌≤◌, ◌↔◌, ℕ, ◌<◌, IfSome, IsTrue, MatchOption, length};
ghost use Rattle.std.specs.List.{All};
ghost use Rattle.adp_model.specs.GrammarFaults.{HasImpossibleAlternative, HasPossibleAlternatives, IsFirstFaulty};
ghost use Rattle.adp_model.specs.Lengths.{low_of, high_of};
ghost use Rattle.adp_model.specs.Sizes.{IsPossible, greatest_of, greatest_sum, least_of, least_sum, sum_of};
ghost use Rattle.yield_sizes.specs.GrammarSizes.{AreSizes};
ghost use Rattle.yield_sizes.specs.Possible.{kept, kept_greatest_sum, kept_least_sum};

use crate::rule_sizes::Sizes;
use adp_model::{Alt, Arg, Grammar, Rule};

fn wide(length: Option<u32>) -> Option<u64>
    ensures { result ≡ length }
{
    match length {
        Some(length) => Some(u64::from(length)),
        None => None,
    }
}

fn least_of(least: &[u32], argument: &Arg) -> u64
    ensures { result ≡ least_of least.now argument.now }
{
    match argument {
        Arg::Rule(rule) => u64::from(least.get(*rule as usize).copied().unwrap_or(0)),
        Arg::Literal(text) => text.bytes().len() as u64,
        Arg::Letter(_) => 1,
        Arg::Run { low, .. } => u64::from(*low),
    }
}

fn greatest_of(greatest: &[Option<u32>], argument: &Arg) -> Option<u64>
    ensures { result ≡ greatest_of greatest.now argument.now }
{
    match argument {
        Arg::Rule(rule) => wide(greatest.get(*rule as usize).copied().flatten()),
        Arg::Literal(text) => Some(text.bytes().len() as u64),
        Arg::Letter(_) => Some(1),
        Arg::Run { high, .. } => wide(*high),
    }
}

fn least_sum(least: &[u32], arguments: &[Arg]) -> u64
    ensures { result ≡ kept_least_sum least.now arguments.now }
{
    arguments.iter().fold(
        0,
        |sum: u64, argument| sum.saturating_add(least_of(least, argument)),
    )
}

fn sum_of(first: Option<u64>, second: Option<u64>) -> Option<u64>
    ensures { result ≡ kept (sum_of first second) }
{
    match (first, second) {
        (Some(first), Some(second)) => Some(first.saturating_add(second)),
        _ => None,
    }
}

fn greatest_sum(greatest: &[Option<u32>], arguments: &[Arg]) -> Option<u64>
    ensures { result ≡ kept_greatest_sum greatest.now arguments.now }
{
    arguments.iter().fold(
        Some(0),
        |sum, argument| sum_of(sum, greatest_of(greatest, argument)),
    )
}

/// Whether the least lengths of the alternative's arguments together are within its high bound.
fn fits_under(least: &[u32], alternative: &Alt) -> bool
    ensures { IsTrue result
        ↔ IfSome (high_of alternative.now.size) (λ most. least_sum least.now alternative.now.args ≤ most) }
{
    match alternative.high() {
        None => true,
        Some(high) => least_sum(least, alternative.args.as_slice()) <= u64::from(high),
    }
}

/// Whether the greatest lengths of the alternative's arguments together reach its low bound.
fn reaches(greatest: &[Option<u32>], alternative: &Alt) -> bool
    ensures { IsTrue result
        ↔ IfSome (greatest_sum greatest.now alternative.now.args) (λ sum. low_of alternative.now.size ≤ sum) }
{
    match greatest_sum(greatest, alternative.args.as_slice()) {
        None => true,
        Some(sum) => u64::from(alternative.low()) <= sum,
    }
}

fn is_possible(least: &[u32], greatest: &[Option<u32>], alternative: &Alt) -> bool
    ensures { IsTrue result ↔ IsPossible least.now greatest.now alternative.now }
{
    fits_under(least, alternative) && reaches(greatest, alternative)
}

fn are_possible(least: &[u32], greatest: &[Option<u32>], alternatives: &[Alt]) -> bool
    ensures { IsTrue result ↔ All (IsPossible least.now greatest.now) alternatives.now }
{
    alternatives
        .iter()
        .all(|alternative| is_possible(least, greatest, alternative))
}

/// The first rule with an alternative that no length fits: its arguments are too long for its high bound, or too short
/// for its low one. `None` where there is none.
pub fn first_impossible(grammar: &Grammar, sizes: &Sizes) -> Option<usize>
    requires { AreSizes grammar.now sizes.now }
    ensures { MatchOption result
        ((rule : ℕ) → rule < length grammar.now.rules → HasPossibleAlternatives grammar.now rule)
        (IsFirstFaulty (HasImpossibleAlternative grammar.now) (HasPossibleAlternatives grammar.now)
        (length grammar.now.rules)) }
{
    let least = sizes.least.as_slice();
    let greatest = sizes.greatest.as_slice();
    for (number, rule) in grammar.rules.as_slice().iter().enumerate() {
        if !are_possible(least, greatest, rule.alts.as_slice()) {
            return Some(number);
        }
    }
    None
}
