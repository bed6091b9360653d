ghost use Rattle.std.specs.Prelude.{◌≡◌, ◌<◌, IfOk, length, map};
ghost use Rattle.std.specs.List.{filter, range_with_len};
ghost use Rattle.adp_model.specs.Parts.{alternative_at, alternatives_of};
ghost use Rattle.yield_sizes.specs.Places.{AreAllPlaces, is_named_at, places_naming};

use crate::argument_tests::has_rule;
use adp_model::laws::well_formed::alternatives_fit;
use adp_model::{Alt, Grammar, Rule, Sequence};
use std::alloc::{AllocError, Global};

/// An alternative of a grammar: the number of its rule, and its own among the rule's.
#[derive(Clone, Copy)]
pub struct Place {
    pub rule: usize,
    pub alternative: usize,
}

/// All alternatives of the grammar.
pub fn all_places(alloc: Global, grammar: &Grammar) -> Result<Vec<Place>, AllocError>
    ensures { IfOk result (λ places. AreAllPlaces grammar.now places.items) }
{
    let mut places = Vec::new(alloc);
    for (rule, it) in grammar.rules.as_slice().iter().enumerate() {
        for alternative in 0..it.alts.as_slice().len() {
            places.push(Place { rule, alternative })?;
        }
    }
    Ok(places)
}

/// The alternative at this place.
pub fn alternative_at(grammar: &Grammar, place: Place) -> &Alt
    requires { place.alternative < length (alternatives_of grammar.now place.rule) }
    ensures { result.now ≡ alternative_at grammar.now place.rule place.alternative }
{
    alternatives_fit();
    let rules = grammar.rules.as_slice();
    let alternatives = rules[place.rule].alts.as_slice();
    &alternatives[place.alternative]
}

/// Whether the alternative at this place names the rule.
fn is_named_at(grammar: &Grammar, rule: usize, place: &Place) -> bool
    ensures { result ≡ is_named_at grammar.now rule place.now }
{
    match grammar.rules.as_slice().get(place.rule) {
        Some(it) => match it.alts.as_slice().get(place.alternative) {
            Some(alternative) => has_rule(rule, alternative),
            None => false,
        },
        None => false,
    }
}

fn places_naming(
    alloc: Global,
    grammar: &Grammar,
    places: &[Place],
    rule: usize,
) -> Result<Vec<Place>, AllocError>
    ensures { IfOk result (λ naming. naming.items ≡ places_naming grammar.now places.now rule) }
{
    places
        .iter()
        .filter(|place| is_named_at(grammar, rule, place))
        .copied()
        .collect(alloc)
}

/// For each of so many rules those of the places whose alternatives name it.
pub fn naming_rows(
    alloc: Global,
    grammar: &Grammar,
    places: &[Place],
    count: usize,
) -> Result<Vec<Sequence<Place>>, AllocError>
    ensures { IfOk result (λ rows. rows.items
        ≡ map (places_naming grammar.now places.now) (range_with_len 0 count)) }
{
    let mut rows = Vec::new(alloc);
    for rule in 0..count {
        let naming = places_naming(alloc, grammar, places, rule)?;
        rows.push(Sequence::new(naming))?;
    }
    Ok(rows)
}
