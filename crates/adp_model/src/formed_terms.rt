//! Whether terms are well-formed.

ghost use Rattle.std.specs.Prelude.{◌≡◌, ◌+◌, ◌<◌, length, MatchOption};
ghost use Rattle.std.specs.List.{list_all, list_any};
ghost use Rattle.adp_model.specs.WideForm as wide;
ghost use Rattle.adp_model.specs.WideTerms.{form_of};
ghost use Rattle.adp_model.specs.Terms.{leaves};
ghost use Rattle.adp_model.specs.WellFormed.{are_apart, has_no_value_twice, is_in_range, is_leaf, is_linear, is_same_value, is_term, is_term_for, is_wide};

use crate::grammar::{Linear, Sign, Term, Wide};

/// The most leaves of a wide term.
const MOST_LEAVES: u32 = 32;

pub(crate) fn is_in_range(number: i64) -> bool
    ensures { result ≡ is_in_range number }
{
    number.unsigned_abs() < 1 << 62
}

fn are_in_range(numbers: &[i64]) -> bool
    ensures { result ≡ list_all is_in_range numbers.now }
{
    numbers.iter().all(|number| is_in_range(*number))
}

fn is_linear(count: usize, term: &Linear) -> bool
    ensures { result ≡ is_linear count term.now }
{
    let factors = term.factors.as_slice();
    is_in_range(term.constant) && are_in_range(factors) && factors.len() == count
}

// How many further leaves there may be behind those of the term, where there may be so many.
fn room_behind(term: &Wide, room: u32) -> Option<u32>
    ensures { MatchOption result (room < length (leaves (form_of term.now))) (λ left. left + length (leaves (form_of term.now)) ≡ room) }
{
    match term {
        Wide::Number(_) | Wide::Value(_) => room.checked_sub(1),
        Wide::Sum(left, right)
        | Wide::Difference(left, right)
        | Wide::Product(left, right)
        | Wide::Greater(left, right)
        | Wide::Lesser(left, right) => room_behind(right, room_behind(left, room)?),
    }
}

fn are_leaves(count: usize, term: &Wide) -> bool
    ensures { result ≡ list_all (is_leaf count) (leaves (form_of term.now)) }
{
    match term {
        Wide::Number(number) => 0 <= *number && is_in_range(*number),
        Wide::Value(place) => (*place as usize) < count,
        Wide::Sum(left, right)
        | Wide::Difference(left, right)
        | Wide::Product(left, right)
        | Wide::Greater(left, right)
        | Wide::Lesser(left, right) => are_leaves(count, left) && are_leaves(count, right),
    }
}

fn names_value(term: &Wide, place: u32) -> bool
    ensures { result ≡ list_any (is_same_value (wide.Value place)) (leaves (form_of term.now)) }
{
    match term {
        Wide::Number(_) => false,
        Wide::Value(other) => place == *other,
        Wide::Sum(left, right)
        | Wide::Difference(left, right)
        | Wide::Product(left, right)
        | Wide::Greater(left, right)
        | Wide::Lesser(left, right) => names_value(left, place) || names_value(right, place),
    }
}

// Whether no value stands in both.
fn are_apart(term: &Wide, other: &Wide) -> bool
    ensures { result ≡ are_apart (leaves (form_of term.now)) (leaves (form_of other.now)) }
{
    match term {
        Wide::Number(_) => true,
        Wide::Value(place) => !names_value(other, *place),
        Wide::Sum(left, right)
        | Wide::Difference(left, right)
        | Wide::Product(left, right)
        | Wide::Greater(left, right)
        | Wide::Lesser(left, right) => are_apart(left, other) && are_apart(right, other),
    }
}

#[tactic(auto, using(crate::proofs::TwiceValues::once_apart))]
fn has_no_value_twice(term: &Wide) -> bool
    ensures { result ≡ has_no_value_twice (leaves (form_of term.now)) }
{
    match term {
        Wide::Number(_) | Wide::Value(_) => true,
        Wide::Sum(left, right)
        | Wide::Difference(left, right)
        | Wide::Product(left, right)
        | Wide::Greater(left, right)
        | Wide::Lesser(left, right) => {
            has_no_value_twice(left) && are_apart(left, right) && has_no_value_twice(right)
        }
    }
}

fn is_wide(count: usize, term: &Wide) -> bool
    ensures { result ≡ is_wide count (form_of term.now) }
{
    room_behind(term, MOST_LEAVES).is_some() && are_leaves(count, term) && has_no_value_twice(term)
}

/// Whether the term is one for so many arguments.
pub fn is_term_for(count: usize, term: &Term) -> bool
    ensures { result ≡ is_term_for count term.now }
{
    match term {
        Term::Linear(term) => is_linear(count, term),
        Term::Wide(term) => is_wide(count, term.root()),
    }
}

pub(crate) fn is_term(sign: &Sign, term: &Term) -> bool
    ensures { result ≡ is_term (sign.now, term.now) }
{
    is_term_for(sign.kinds.as_slice().len(), term)
}
