//! The numbers of a compiled algebra.

ghost use Rattle.std.specs.Prelude.{◌≡◌, ◌≤◌, ◌^◌, IfOk, length};
ghost use Rattle.adp_model.specs.declared.grammar.Term.TheVariants as terms;
ghost use Rattle.adp_model.specs.ProblemFields.{greatest_score};
ghost use Rattle.lex_product.specs.CompiledTerms.{joined_factors, joined_term, joined_terms};
ghost use Rattle.lex_product.specs.CompiledGrammar.{greatest_factor, greatest_of_term, greatest_number};
ghost use Rattle.lex_product.specs.FittingTerms.{AreFactorsOf, AreTermsOf, IsLinear};

use crate::joining::Joining;
use adp_model::{Kind, Linear, Sequence, Sign, Term};
use std::alloc::{AllocError, Global};

/// The greatest absolute value of the token factors of two terms as one.
fn greatest_factor(joining: &Joining, kinds: &[Kind], factors: &[i64], others: &[i64]) -> u128
    requires multiplier { joining.now.multiplier ≤ 2 ^ 63 }
    requires factors { length factors.now ≡ length kinds.now }
    requires others { length others.now ≡ length kinds.now }
    ensures { result ≡ greatest_factor joining.now.multiplier joining.now.same kinds.now factors.now others.now }
{
    let mut greatest = 0;
    for (place, kind) in kinds.iter().enumerate() {
        match kind {
            Kind::Score => {}
            Kind::Token => {
                let number = joining.join(factors[place], others[place]);
                greatest = number.unsigned_abs().max(greatest);
            }
        }
    }
    greatest
}

/// What a linear term holds.
fn linear(term: &Term) -> &Linear
    requires { IsLinear term.now }
    ensures { term.now ≡ terms.Linear result.now }
{
    match term {
        Term::Linear(term) => term,
        Term::Wide(_) => unreachable!(),
    }
}

/// The greatest absolute value of the constant and the token factors of two terms as one.
fn greatest_of_term(joining: &Joining, kinds: &[Kind], term: &Term, other: &Term) -> u128
    requires multiplier { joining.now.multiplier ≤ 2 ^ 63 }
    requires term { AreFactorsOf kinds.now term.now }
    requires other { AreFactorsOf kinds.now other.now }
    ensures { result ≡ greatest_of_term joining.now.multiplier joining.now.same kinds.now term.now other.now }
{
    let (term, other) = (linear(term), linear(other));
    let constant = joining.join(term.constant, other.constant).unsigned_abs();
    constant.max(greatest_factor(
        joining,
        kinds,
        term.factors.as_slice(),
        other.factors.as_slice(),
    ))
}

/// The greatest absolute value of the constants and the token factors of two algebras' terms as one.
pub fn greatest_number(joining: &Joining, signs: &[Sign], terms: &[Term], others: &[Term]) -> u128
    requires multiplier { joining.now.multiplier ≤ 2 ^ 63 }
    requires terms { AreTermsOf signs.now terms.now }
    requires others { AreTermsOf signs.now others.now }
    ensures { result ≡ greatest_number joining.now.multiplier joining.now.same signs.now terms.now others.now }
{
    let mut greatest = 0;
    for (place, sign) in signs.iter().enumerate() {
        let kinds = sign.kinds.as_slice();
        let number = greatest_of_term(joining, kinds, &terms[place], &others[place]);
        greatest = number.max(greatest);
    }
    greatest
}

/// The factors of two terms as one: 1 for a score, both factors in one for a token.
fn joined_factors(
    alloc: Global,
    joining: &Joining,
    kinds: &[Kind],
    factors: &[i64],
    others: &[i64],
) -> Result<Vec<i64>, AllocError>
    requires multiplier { joining.now.multiplier ≤ 2 ^ 63 }
    requires factors { length factors.now ≡ length kinds.now }
    requires others { length others.now ≡ length kinds.now }
    requires low { greatest_factor joining.now.multiplier joining.now.same kinds.now factors.now others.now
        ≤ greatest_score }
    ensures { IfOk result (λ joined. joined.items
        ≡ joined_factors joining.now.multiplier joining.now.same kinds.now factors.now others.now) }
{
    let mut joined = Vec::with_capacity(alloc, kinds.len())?;
    for (place, kind) in kinds.iter().enumerate() {
        let factor = match kind {
            Kind::Score => 1,
            Kind::Token => joining.join(factors[place], others[place]) as i64,
        };
        joined.push(factor)?;
    }
    Ok(joined)
}

/// Two terms for a sign with these kinds as one.
fn joined_term(
    alloc: Global,
    joining: &Joining,
    kinds: &[Kind],
    term: &Term,
    other: &Term,
) -> Result<Term, AllocError>
    requires multiplier { joining.now.multiplier ≤ 2 ^ 63 }
    requires term { AreFactorsOf kinds.now term.now }
    requires other { AreFactorsOf kinds.now other.now }
    requires low { greatest_of_term joining.now.multiplier joining.now.same kinds.now term.now other.now
        ≤ greatest_score }
    ensures { IfOk result (λ joined. joined
        ≡ joined_term joining.now.multiplier joining.now.same kinds.now term.now other.now) }
{
    let (term, other) = (linear(term), linear(other));
    let constant = joining.join(term.constant, other.constant) as i64;
    let factors = joined_factors(
        alloc,
        joining,
        kinds,
        term.factors.as_slice(),
        other.factors.as_slice(),
    )?;
    Ok(Term::Linear(Linear {
        constant,
        factors: Sequence::new(factors),
    }))
}

/// Both terms of each sign as one.
pub fn joined_terms(
    alloc: Global,
    joining: &Joining,
    signs: &[Sign],
    terms: &[Term],
    others: &[Term],
) -> Result<Vec<Term>, AllocError>
    requires multiplier { joining.now.multiplier ≤ 2 ^ 63 }
    requires terms { AreTermsOf signs.now terms.now }
    requires others { AreTermsOf signs.now others.now }
    requires low { greatest_number joining.now.multiplier joining.now.same signs.now terms.now others.now
        ≤ greatest_score }
    ensures { IfOk result (λ joined. joined.items
        ≡ joined_terms joining.now.multiplier joining.now.same signs.now terms.now others.now) }
{
    let mut joined = Vec::with_capacity(alloc, signs.len())?;
    for (place, sign) in signs.iter().enumerate() {
        let kinds = sign.kinds.as_slice();
        joined.push(joined_term(alloc, joining, kinds, &terms[place], &others[place])?)?;
    }
    Ok(joined)
}
