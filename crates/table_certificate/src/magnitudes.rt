//! How great terms can become.

ghost use Rattle.std.specs.Prelude.{◌*◌, map, max, nat_abs, slice_index};
ghost use Rattle.adp_model.specs.Terms.{linear_magnitude, magnitude, weighted_total, wide_magnitude};
ghost use Rattle.adp_model.specs.WideTerms.{form_of};
ghost use Rattle.table_certificate.specs.Magnitudes.{IsInRange};

use adp_model::{Linear, Term, Wide};

/// The greatest absolute value that a score may have.
const GREATEST_SCORE: u64 = (1 << 62) - 1;

/// The number, where it is one that a score may have.
fn in_range(number: u64) -> Option<u64>
    ensures { IsInRange number result }
{
    if number <= GREATEST_SCORE {
        Some(number)
    } else {
        None
    }
}

/// The product of two numbers, each of which counts as 1 at least.
fn product(left: u64, right: u64) -> Option<u64>
    ensures { IsInRange (max 1 left * max 1 right) result }
{
    in_range(left.max(1).checked_mul(right.max(1))?)
}

/// Each factor's absolute value times that of its value, added up.
fn weighted_total(factors: &[i64], values: &[i64]) -> Option<u64>
    ensures { IsInRange (weighted_total factors.now (map nat_abs values.now)) result }
{
    let Some((factor, factors)) = factors.split_first() else {
        return Some(0);
    };
    let Some((value, values)) = values.split_first() else {
        return Some(0);
    };
    let others = weighted_total(factors, values)?;
    let first = factor.unsigned_abs().checked_mul(value.unsigned_abs())?;
    in_range(first.checked_add(others)?)
}

fn linear_magnitude(term: &Linear, values: &[i64]) -> Option<u64>
    ensures { IsInRange (linear_magnitude term.now (map nat_abs values.now)) result }
{
    let total = weighted_total(term.factors.as_slice(), values)?;
    in_range(term.constant.unsigned_abs().checked_add(total)?)
}

fn value_magnitude(values: &[i64], place: usize) -> Option<u64>
    ensures { IsInRange (slice_index (map nat_abs values.now) place) result }
{
    match values.get(place) {
        Some(value) => in_range(value.unsigned_abs()),
        None => Some(0),
    }
}

fn wide_magnitude(term: &Wide, values: &[i64]) -> Option<u64>
    ensures { IsInRange (wide_magnitude (form_of term.now) (map nat_abs values.now)) result }
{
    match term {
        Wide::Number(number) => in_range(number.unsigned_abs()),
        Wide::Value(place) => value_magnitude(values, *place as usize),
        Wide::Sum(left, right) | Wide::Difference(left, right) => {
            in_range(wide_magnitude(left, values)? + wide_magnitude(right, values)?)
        }
        Wide::Product(left, right) => {
            product(
                wide_magnitude(left, values)?,
                wide_magnitude(right, values)?,
            )
        }
        Wide::Greater(left, right) | Wide::Lesser(left, right) => {
            Some(wide_magnitude(left, values)?.max(wide_magnitude(right, values)?))
        }
    }
}

/// How great a term can become in absolute value, where its arguments are at most as great as these values; `None` where
/// that is more than a score may be. Takes no memory.
pub fn magnitude(term: &Term, values: &[i64]) -> Option<u64>
    ensures { IsInRange (magnitude term.now (map nat_abs values.now)) result }
{
    match term {
        Term::Linear(term) => linear_magnitude(term, values),
        Term::Wide(term) => wide_magnitude(term.root(), values),
    }
}
