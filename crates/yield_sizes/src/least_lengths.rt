ghost use Rattle.std.specs.Prelude.{◌≡◌, ◌<◌, IfOk, IsTrue, false, min, length};
ghost use Rattle.adp_model.specs.WellFormed.{is_well_formed};
ghost use Rattle.yield_sizes.specs.KnownLengths.{added, allowed_least, alternative_least, argument_least, arguments_least, fall_left, is_within, lesser, rule_least};
ghost use Rattle.yield_sizes.specs.KnownLengths.{AreLeast, AreLeastLengths, AreLengths};

use adp_model::laws::well_formed::numbers_fit_together;
use adp_model::{Alt, Arg, Grammar};
use std::alloc::{AllocError, Global};

/// The sum of two lengths, where both are known.
pub fn added(total: Option<u32>, length: Option<u32>) -> Option<u32>
    ensures { result ≡ added u32.MAX total length }
{
    match (total, length) {
        (Some(total), Some(length)) => Some(total.saturating_add(length)),
        _ => None,
    }
}

/// The length of a text, or the greatest that is kept.
pub fn kept_length(text: &[u8]) -> u32
    ensures { result ≡ min (length text.now) u32.MAX }
{
    u32::try_from(text.len()).unwrap_or(u32::MAX)
}

fn lesser(first: Option<u32>, second: Option<u32>) -> Option<u32>
    ensures { result ≡ lesser first second }
{
    match (first, second) {
        (Some(first), Some(second)) => Some(first.min(second)),
        (None, second) => second,
        (first, None) => first,
    }
}

fn argument_least(known: &[Option<u32>], argument: &Arg) -> Option<u32>
    ensures { result ≡ argument_least u32.MAX known.now argument.now }
{
    match argument {
        Arg::Rule(rule) => known.get(*rule as usize).copied().flatten(),
        Arg::Literal(text) => Some(kept_length(text.bytes())),
        Arg::Letter(_) => Some(1),
        Arg::Run { low, .. } => Some(*low),
    }
}

fn arguments_least(known: &[Option<u32>], arguments: &[Arg]) -> Option<u32>
    ensures { result ≡ arguments_least u32.MAX known.now arguments.now }
{
    arguments.iter().fold(Some(0), |total, argument| {
        added(total, argument_least(known, argument))
    })
}

fn is_within(high: Option<u32>, length: u32) -> bool
    ensures { result ≡ is_within high length }
{
    match high {
        None => true,
        Some(high) => length <= high,
    }
}

/// The least length of an alternative whose arguments have this sum.
fn allowed_least(alternative: &Alt, sum: Option<u32>) -> Option<u32>
    ensures { result ≡ allowed_least alternative.now.size sum }
{
    match sum {
        Some(sum) if is_within(alternative.high(), sum) => Some(sum.max(alternative.low())),
        _ => None,
    }
}

fn alternative_least(known: &[Option<u32>], alternative: &Alt) -> Option<u32>
    ensures { result ≡ alternative_least u32.MAX known.now alternative.now }
{
    let sum = arguments_least(known, alternative.args.as_slice());
    allowed_least(alternative, sum)
}

fn rule_least(known: &[Option<u32>], alternatives: &[Alt]) -> Option<u32>
    ensures { result ≡ rule_least u32.MAX known.now alternatives.now }
{
    alternatives.iter().fold(None, |least, alternative| {
        lesser(least, alternative_least(known, alternative))
    })
}

/// Lowers the known length of each rule to that of its alternatives, rule by rule, and answers whether any fell.
fn improve(grammar: &Grammar, known: &mut [Option<u32>]) -> bool
    requires well_formed { IsTrue (is_well_formed grammar.now) }
    requires lengths { AreLengths grammar.now u32.MAX known.old }
    ensures lengths { AreLengths grammar.now u32.MAX known.new }
    ensures fell { IsTrue result → fall_left u32.MAX known.new < fall_left u32.MAX known.old }
    ensures least { result ≡ false → AreLeast grammar.now u32.MAX known.new }
{
    numbers_fit_together();
    let mut fell = false;
    for (number, rule) in grammar.rules.as_slice().iter().enumerate() {
        let least = lesser(known[number], rule_least(known, rule.alts.as_slice()));
        if least != known[number] {
            known[number] = least;
            fell = true;
        }
    }
    fell
}

/// The least length of each rule that has one, at most `u32::MAX`: rounds over the rules until nothing falls, which is
/// after at most one round more than there are rules.
pub fn least_lengths(alloc: Global, grammar: &Grammar) -> Result<Vec<Option<u32>>, AllocError>
    requires { IsTrue (is_well_formed grammar.now) }
    ensures { IfOk result (λ known. AreLeastLengths grammar.now known.items) }
{
    numbers_fit_together();
    let mut known = vec![in alloc; None; grammar.rules.as_slice().len()]?;
    while improve(grammar, &mut known) {}
    Ok(known)
}
