ghost use Rattle.std.specs.Prelude.{◌≡◌, ◌≤◌, length, map, nat_abs};
ghost use Rattle.adp_model.specs.ProblemFields.{greatest_score};
ghost use Rattle.adp_model.specs.Terms.{linear_magnitude, linear_value, magnitude, term_value, wide_magnitude, wide_value};
ghost use Rattle.adp_model.specs.WideTerms.{form_of};
ghost use Rattle.term_values.specs.Values.{HasValues, HasWideValues};

use adp_model::laws::terms::values_are_within_magnitudes;
use adp_model::{Linear, Term, Wide};

fn linear_value(term: &Linear, values: &[i64]) -> i64
    requires each { length values.now ≡ length term.now.factors }
    requires bounded { linear_magnitude term.now (map nat_abs values.now) ≤ greatest_score }
    ensures { result ≡ linear_value term.now values.now }
{
    let factors = term.factors.as_slice();
    let mut total = term.constant;
    for (i, factor) in factors.iter().enumerate() {
        total += *factor * values[i];
    }
    total
}

fn wide_value(term: &Wide, values: &[i64]) -> i64
    requires there { HasWideValues (length values.now) (form_of term.now) }
    requires bounded { wide_magnitude (form_of term.now) (map nat_abs values.now) ≤ greatest_score }
    ensures { result ≡ wide_value (form_of term.now) values.now }
{
    values_are_within_magnitudes();
    match term {
        Wide::Number(number) => *number,
        Wide::Value(place) => values[*place as usize],
        Wide::Sum(left, right) => wide_value(left, values) + wide_value(right, values),
        Wide::Difference(left, right) => wide_value(left, values) - wide_value(right, values),
        Wide::Product(left, right) => wide_value(left, values) * wide_value(right, values),
        Wide::Greater(left, right) => wide_value(left, values).max(wide_value(right, values)),
        Wide::Lesser(left, right) => wide_value(left, values).min(wide_value(right, values)),
    }
}

/// The exact value of a term, where its arguments have these values. Takes no memory.
pub fn eval(term: &Term, values: &[i64]) -> i64
    requires there { HasValues (length values.now) term.now }
    requires bounded { magnitude term.now (map nat_abs values.now) ≤ greatest_score }
    ensures { result ≡ term_value term.now values.now }
{
    match term {
        Term::Linear(term) => linear_value(term, values),
        Term::Wide(term) => wide_value(term.root(), values),
    }
}
