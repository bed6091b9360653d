//! Terms that come to a constant and a factor for each argument.

ghost use Rattle.std.specs.Prelude.{◌≡◌, ◌+◌, ◌*◌, ◌<◌, ◌≤◌, ℤ, pos, ◌+ℤ◌, ◌*ℤ◌, nat_abs, length, replicate, slice_index_or, IfSome, IsSome, MatchOption};
ghost use Rattle.adp_model.specs.declared.grammar.Term.TheVariants as terms;
ghost use Rattle.adp_model.specs.WideForm as wide;
ghost use Rattle.adp_model.specs.WideTerms.{form_of};
ghost use Rattle.adp_model.specs.ProblemFields.{greatest_score};
ghost use Rattle.adp_model.specs.TermForms.{IsLinearFor};
ghost use Rattle.term_values.specs.Lowering.{IsForFew, IsLow, IsLowered, IsOfLinearForm, most_arguments};
ghost use Rattle.term_values.specs.LoweredParts.{IsProductOf, IsSumOf, MatchFixed, MatchLowered, size_of};
ghost use Rattle.term_values.specs.Values.{HasWideValues};

use adp_model::{Linear, Term, Wide};

/// The greatest number of a lowered term, 2^62 - 1.
const GREATEST: u128 = 4_611_686_018_427_387_903;

/// A constant and the factor of each argument, behind which stand zeros: what a linear term is, and what a wide one
/// comes to that is linear by its form.
#[derive(Clone, Copy, Debug, PartialEq, Eq)]
pub struct LinearForm {
    pub constant: i64,
    pub factors: [i64; 4],
}

/// The number, where it is in range.
fn in_range(number: i128) -> Option<i64>
    ensures { MatchOption result (greatest_score < nat_abs number)
        (λ found. (found ≡ number) × (nat_abs number ≤ greatest_score)) }
{
    if number.unsigned_abs() <= GREATEST {
        Some(number as i64)
    } else {
        None
    }
}

fn sum(one: i64, other: i64) -> Option<i64>
    ensures { MatchOption result (greatest_score < nat_abs one + nat_abs other)
        (λ found. (found ≡ (one +ℤ other)) × (nat_abs found ≤ greatest_score)) }
{
    in_range(i128::from(one) + i128::from(other))
}

fn product(one: i64, other: i64) -> Option<i64>
    ensures { MatchOption result (greatest_score < nat_abs one * nat_abs other)
        (λ found. (found ≡ (one *ℤ other)) × (nat_abs found ≤ greatest_score)) }
{
    in_range(i128::from(one) * i128::from(other))
}

impl LinearForm {
    /// A number alone.
    fn number(constant: i64) -> LinearForm
        ensures constant { result.constant ≡ constant }
        ensures factors { result.factors ≡ replicate most_arguments (pos 0) }
    {
        LinearForm {
            constant,
            factors: [0; 4],
        }
    }

    /// The value of the argument at this place.
    fn value(place: u32) -> LinearForm
        requires { place < most_arguments }
        ensures { IsLowered (terms.Wide (wide.Value place)) result }
    {
        let mut factors = [0; 4];
        factors[place as usize] = 1;
        LinearForm {
            constant: 0,
            factors,
        }
    }

    /// The sum of both, where its numbers are in range.
    fn plus(&self, other: &LinearForm) -> Option<LinearForm>
        ensures { MatchOption result (greatest_score < size_of self.now + size_of other.now)
            (IsSumOf self.now other.now) }
    {
        let [a, b, c, d] = self.factors;
        let [e, f, g, h] = other.factors;
        Some(LinearForm {
            constant: sum(self.constant, other.constant)?,
            factors: [sum(a, e)?, sum(b, f)?, sum(c, g)?, sum(d, h)?],
        })
    }

    /// So many times its numbers, where these are in range.
    fn times(&self, factor: i64) -> Option<LinearForm>
        ensures { MatchOption result (greatest_score < nat_abs factor * size_of self.now)
            (IsProductOf factor self.now) }
    {
        let [a, b, c, d] = self.factors;
        Some(LinearForm {
            constant: product(factor, self.constant)?,
            factors: [
                product(factor, a)?,
                product(factor, b)?,
                product(factor, c)?,
                product(factor, d)?,
            ],
        })
    }
}

/// The value of a wide term in which no value stands.
fn fixed(term: &Wide) -> Option<i64>
    ensures { MatchFixed (form_of term.now) result }
{
    match term {
        Wide::Number(number) => in_range(i128::from(*number)),
        Wide::Value(_) => None,
        Wide::Sum(left, right) => sum(fixed(left)?, fixed(right)?),
        Wide::Difference(left, right) => sum(fixed(left)?, -fixed(right)?),
        Wide::Product(left, right) => product(fixed(left)?, fixed(right)?),
        Wide::Greater(left, right) => Some(fixed(left)?.max(fixed(right)?)),
        Wide::Lesser(left, right) => Some(fixed(left)?.min(fixed(right)?)),
    }
}

fn lowered_wide(term: &Wide) -> Option<LinearForm>
    requires { HasWideValues most_arguments (form_of term.now) }
    ensures { MatchLowered (form_of term.now) result }
{
    match term {
        Wide::Number(_) | Wide::Greater(_, _) | Wide::Lesser(_, _) => {
            Some(LinearForm::number(fixed(term)?))
        }
        Wide::Value(place) => Some(LinearForm::value(*place)),
        Wide::Sum(left, right) => lowered_wide(left)?.plus(&lowered_wide(right)?),
        Wide::Difference(left, right) => {
            lowered_wide(left)?.plus(&lowered_wide(right)?.times(-1)?)
        }
        Wide::Product(left, right) => match fixed(left) {
            Some(factor) => lowered_wide(right)?.times(factor),
            None => lowered_wide(left)?.times(fixed(right)?),
        },
    }
}

fn factor_at(factors: &[i64], place: usize) -> i64
    ensures { result ≡ slice_index_or factors.now place (pos 0) }
{
    factors.get(place).copied().unwrap_or(0)
}

fn lowered_linear(term: &Linear) -> LinearForm
    requires few { length term.now.factors ≤ most_arguments }
    requires low { IsLinearFor (length term.now.factors) term.now }
    ensures { IsLowered (terms.Linear term.now) result }
{
    let factors = term.factors.as_slice();
    LinearForm {
        constant: term.constant,
        factors: [
            factor_at(factors, 0),
            factor_at(factors, 1),
            factor_at(factors, 2),
            factor_at(factors, 3),
        ],
    }
}

/// What a term comes to that is linear, or a wide one that is so by its form; `None` for any other. Of one whose
/// numbers come to more than is in range it may be `None` too. Takes no memory.
pub fn lowered(term: &Term) -> Option<LinearForm>
    requires { IsForFew term.now }
    ensures exact { IfSome result (IsLowered term.now) }
    ensures linear { IsSome result → IsOfLinearForm term.now }
    ensures found { IsOfLinearForm term.now → IsLow term.now → IsSome result }
{
    match term {
        Term::Linear(term) => Some(lowered_linear(term)),
        Term::Wide(term) => lowered_wide(term.root()),
    }
}
