ghost use Rattle.std.specs.Prelude.{◌≡◌, ℕ, ◌<◌, ◌⊎◌, IfOk, IsTrue, List, MatchOption, [], ◌∷◌, false, true, length, slice_index_or};
ghost use Rattle.std.specs.List.{All};
ghost use Rattle.adp_model.specs.Parts.{alternatives_of};
ghost use Rattle.adp_model.specs.Sizes.{AreGreatestSizes, bounded, cut_to, sum_of};
ghost use Rattle.yield_sizes.specs.declared.places.Place.{Place as AnyPlace};
ghost use Rattle.yield_sizes.specs.KnownGreatest.{AreRising, alternative_greatest, argument_greatest, arguments_greatest, is_below, rise_left, work_left};
ghost use Rattle.yield_sizes.specs.Places.{AreNamingRows, ArePlaces};

use crate::least_lengths::kept_length;
use crate::places::{Place, all_places, alternative_at, naming_rows};
use adp_model::{Alt, Arg, Grammar, Sequence};
use std::alloc::{AllocError, Global};

/// The greatest length that doesn't count as unbounded.
const GREATEST_BOUNDED: u32 = 4_000;

/// What a length counts as: `None` stands for unbounded.
fn bounded(length: Option<u32>) -> Option<u32>
    ensures { result ≡ bounded length }
{
    match length {
        Some(length) if length <= GREATEST_BOUNDED => Some(length),
        _ => None,
    }
}

/// What the sum of two lengths counts as.
fn bounded_sum(first: Option<u32>, second: Option<u32>) -> Option<u32>
    ensures { result ≡ bounded (sum_of first second) }
{
    match (first, second) {
        (Some(first), Some(second)) => bounded(Some(first.saturating_add(second))),
        _ => None,
    }
}

fn cut_to(high: Option<u32>, length: Option<u32>) -> Option<u32>
    ensures { result ≡ cut_to high length }
{
    match (high, length) {
        (None, length) => length,
        (Some(high), None) => Some(high),
        (Some(high), Some(length)) => Some(length.min(high)),
    }
}

fn argument_greatest(known: &[Option<u32>], argument: &Arg) -> Option<u32>
    ensures { result ≡ argument_greatest known.now argument.now }
{
    match argument {
        Arg::Rule(rule) => known.get(*rule as usize).copied().flatten(),
        Arg::Literal(text) => Some(kept_length(text.bytes())),
        Arg::Letter(_) => Some(1),
        Arg::Run { high, .. } => *high,
    }
}

fn arguments_greatest(known: &[Option<u32>], arguments: &[Arg]) -> Option<u32>
    ensures { result ≡ arguments_greatest known.now arguments.now }
{
    arguments.iter().fold(Some(0), |total, argument| {
        bounded_sum(total, argument_greatest(known, argument))
    })
}

fn alternative_greatest(known: &[Option<u32>], alternative: &Alt) -> Option<u32>
    ensures { result ≡ alternative_greatest known.now alternative.now }
{
    let sum = arguments_greatest(known, alternative.args.as_slice());
    bounded(cut_to(alternative.high(), sum))
}

fn is_below(length: Option<u32>, other: Option<u32>) -> bool
    ensures { result ≡ is_below length other }
{
    match (length, other) {
        (None, _) => false,
        (Some(_), None) => true,
        (Some(length), Some(other)) => length < other,
    }
}

/// Raises the greatest length of the rule at this place until the alternative there tells no greater one, and marks the
/// rule if its length rose. An alternative that names its own rule is done with at once, before others look at it.
fn raise_at(grammar: &Grammar, place: Place, known: &mut [Option<u32>], risen: &mut [bool])
    requires place { place.alternative < length (alternatives_of grammar.now place.rule) }
    requires rising { (waiting : List AnyPlace) × AreRising grammar.now (place ∷ waiting) known.old risen.old }
    ensures rising { (waiting : List AnyPlace) → AreRising grammar.now (place ∷ waiting) known.old risen.old
        → AreRising grammar.now waiting known.new risen.new }
    ensures change { ((known.new ≡ known.old) × (risen.new ≡ risen.old)) ⊎ (rise_left known.new < rise_left known.old) }
{
    let alternative = alternative_at(grammar, place);
    let mut greatest = alternative_greatest(known, alternative);
    while is_below(known[place.rule], greatest) {
        known[place.rule] = greatest;
        risen[place.rule] = true;
        greatest = alternative_greatest(known, alternative);
    }
}

/// Raises the greatest lengths of the rules at these places to what the alternatives there tell, and marks the rules
/// whose lengths rose.
fn raise(grammar: &Grammar, places: &[Place], known: &mut [Option<u32>], risen: &mut [bool])
    requires places { ArePlaces grammar.now places.now }
    requires rising { AreRising grammar.now places.now known.old risen.old }
    ensures rising { AreRising grammar.now [] known.new risen.new }
    ensures change { ((known.new ≡ known.old) × (risen.new ≡ risen.old)) ⊎ (rise_left known.new < rise_left known.old) }
{
    for place in places {
        raise_at(grammar, *place, known, risen);
    }
}

fn first_risen(risen: &[bool]) -> Option<usize>
    ensures { MatchOption result (All (λ it. it ≡ false) risen.now)
        (λ rule. (rule < length risen.now) × (slice_index_or risen.now rule false ≡ true)) }
{
    risen.iter().position(|risen| *risen)
}

/// Takes the mark of a rule whose length rose, and looks again at the alternatives that name it. Answers whether there
/// was such a rule.
fn raise_again(
    grammar: &Grammar,
    naming: &[Sequence<Place>],
    known: &mut [Option<u32>],
    risen: &mut [bool],
) -> bool
    requires naming { AreNamingRows grammar.now naming.now }
    requires rising { AreRising grammar.now [] known.old risen.old }
    ensures rising { AreRising grammar.now [] known.new risen.new }
    ensures less { IsTrue result → work_left known.new risen.new < work_left known.old risen.old }
    ensures done { result ≡ false → AreGreatestSizes grammar.now known.new }
{
    match first_risen(risen) {
        None => false,
        Some(rule) => {
            risen[rule] = false;
            raise(grammar, naming[rule].as_slice(), known, risen);
            true
        }
    }
}

/// The greatest length of each rule, at most 4,000, or `None` where it is unbounded. From 0 up: where a length rises, the
/// alternatives that name its rule are looked at again, at most 4,001 times for each argument and each rule.
pub fn greatest_lengths(alloc: Global, grammar: &Grammar) -> Result<Vec<Option<u32>>, AllocError>
    ensures { IfOk result (λ known. AreGreatestSizes grammar.now known.items) }
{
    let count = grammar.rules.as_slice().len();
    let places = all_places(alloc, grammar)?;
    let naming = naming_rows(alloc, grammar, &places, count)?;
    let mut known = vec![in alloc; Some(0); count]?;
    let mut risen = vec![in alloc; false; count]?;
    raise(grammar, &places, &mut known, &mut risen);
    while raise_again(grammar, &naming, &mut known, &mut risen) {}
    Ok(known)
}
