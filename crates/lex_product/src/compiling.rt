ghost use Rattle.std.specs.Prelude.{◌≡◌, ◌<◌, ◌≤◌, ◌^◌, IfOk, ℕ, IsTrue, length};
ghost use Rattle.adp_model.specs.Bounds.{IsScoreBound};
ghost use Rattle.adp_model.specs.ProblemFields.{greatest_score};
ghost use Rattle.adp_model.specs.WellFormed.{is_well_formed};
ghost use Rattle.grammar_check.specs.CheckedGrammar.{PassesChecks};
ghost use Rattle.lex_product.specs.CompiledGrammar.{compiled_algebra, compiled_grammar, greatest_compiled, has_same_goal, multiplier_of};
ghost use Rattle.lex_product.specs.PairFaults.{AllAddScores};
ghost use Rattle.lex_product.specs.PairAnswers.{IsButForAlgebra, IsPair, MatchCompiled, MatchCompiledBy, with_algebra};

use crate::checking::with_grammar;
use crate::copying::Copied;
use crate::error::CompileError;
use crate::joining::{Joining, is_same_goal};
use crate::numbers::{greatest_number, joined_terms};
use adp_model::laws::bounds::words_have_one_bound;
use adp_model::laws::terms::monotone_terms_keep_order;
use adp_model::laws::well_formed::terms_fit_their_signs;
use adp_model::{Algebra, Grammar, LimitFault, Sequence};
use grammar_check::{Checked, score_bound};
use std::alloc::{AllocError, Global};

/// The greatest number of a compiled algebra in absolute value.
const GREATEST_NUMBER: u128 = 4_611_686_018_427_387_903;
/// Greater numbers are told as this one.
const MOST_TOLD: u128 = 9_223_372_036_854_775_808;

/// Whether the algebras of a pair have one goal.
pub fn have_same_goal(first: &Checked, second: &Checked) -> bool
    requires { IsPair first.now second.now }
    ensures { result ≡ has_same_goal first.now.grammar first.now.algebra second.now.algebra }
{
    first.passes();
    second.passes();
    let goal = first.grammar.algebras.as_slice()[first.algebra as usize].goal;
    let other = second.grammar.algebras.as_slice()[second.algebra as usize].goal;
    is_same_goal(goal, other)
}

/// How two algebras of the grammar are one, where the second has this score bound.
fn joining_of(grammar: &Grammar, first: u32, second: u32, bound: u64) -> Joining
    requires first { first < length grammar.now.algebras }
    requires second { second < length grammar.now.algebras }
    requires bound { bound ≤ greatest_score }
    ensures multiplier { result.multiplier ≡ multiplier_of bound }
    ensures same { result.same ≡ has_same_goal grammar.now first second }
{
    let algebras = grammar.algebras.as_slice();
    Joining {
        multiplier: 2 * bound + 1,
        same: is_same_goal(
            algebras[first as usize].goal,
            algebras[second as usize].goal,
        ),
    }
}

/// The greatest of the compiled algebra's constants and token factors in absolute value.
fn greatest_compiled(joining: &Joining, grammar: &Grammar, first: u32, second: u32) -> u128
    requires well_formed { IsTrue (is_well_formed grammar.now) }
    requires first { first < length grammar.now.algebras }
    requires second { second < length grammar.now.algebras }
    requires adding { AllAddScores grammar.now first second }
    requires multiplier { joining.now.multiplier ≤ 2 ^ 63 }
    requires same { joining.now.same ≡ has_same_goal grammar.now first second }
    ensures { result ≡ greatest_compiled grammar.now first second joining.now.multiplier }
{
    terms_fit_their_signs();
    let algebras = grammar.algebras.as_slice();
    greatest_number(
        joining,
        grammar.signs.as_slice(),
        algebras[first as usize].terms.as_slice(),
        algebras[second as usize].terms.as_slice(),
    )
}

/// The first algebra with both algebras' terms as one.
fn compiled_algebra(
    alloc: Global,
    joining: &Joining,
    grammar: &Grammar,
    first: u32,
    second: u32,
) -> Result<Algebra, AllocError>
    requires well_formed { IsTrue (is_well_formed grammar.now) }
    requires first { first < length grammar.now.algebras }
    requires second { second < length grammar.now.algebras }
    requires adding { AllAddScores grammar.now first second }
    requires multiplier { joining.now.multiplier ≤ 2 ^ 63 }
    requires same { joining.now.same ≡ has_same_goal grammar.now first second }
    requires low { greatest_compiled grammar.now first second joining.now.multiplier ≤ greatest_score }
    ensures { IfOk result (λ algebra. algebra ≡ compiled_algebra grammar.now first second joining.now.multiplier) }
{
    terms_fit_their_signs();
    let algebras = grammar.algebras.as_slice();
    let own = &algebras[first as usize];
    let terms = joined_terms(
        alloc,
        joining,
        grammar.signs.as_slice(),
        own.terms.as_slice(),
        algebras[second as usize].terms.as_slice(),
    )?;
    Ok(Algebra {
        name: own.name.copied(alloc)?,
        goal: own.goal,
        terms: Sequence::new(terms),
    })
}

/// The checked grammar with another algebra in its own algebra's place.
fn with_algebra(checked: Checked, algebra: Algebra) -> Checked
    requires known { checked.algebra < length checked.grammar.algebras }
    requires passes { PassesChecks (with_algebra checked algebra) }
    ensures { result ≡ with_algebra checked algebra }
{
    let Checked {
        grammar,
        algebra: place,
        sizes,
        anchors,
        ranks,
    } = checked;
    let Grammar {
        classes,
        signs,
        algebras,
        rules,
        axiom,
    } = grammar;
    let mut algebras = algebras.into_vec();
    algebras[place as usize] = algebra;
    Checked {
        grammar: Grammar {
            classes,
            signs,
            algebras: Sequence::new(algebras),
            rules,
            axiom,
        },
        algebra: place,
        sizes,
        anchors,
        ranks,
    }
}

/// A pair's checked grammar with the compiled algebra of both in the first one's place and under its name, where the
/// second algebra has this score bound, whatever the length. The compiled algebra has the first one's goal and the
/// factor 1 for each score. With twice the bound and one more as the multiplier, each constant and each token factor is
/// the first algebra's so many times, and to it the second's added where the goals are equal, taken from it where they
/// differ. A refusal is that such a number lies outside -(2^62 - 1) to 2^62 - 1; it carries the greatest absolute
/// value among them all, or 2^63 where that is more.
pub fn compile_by(
    alloc: Global,
    first: &Checked,
    second: &Checked,
    bound: u64,
) -> Result<Checked, CompileError>
    requires pair { IsPair first.now second.now }
    requires low { bound ≤ greatest_score }
    ensures { MatchCompiledBy first.now second.now bound result }
{
    first.passes();
    let grammar = first.grammar.copied(alloc)?;
    let copy = with_grammar(alloc, first, grammar, first.algebra)?;
    recompile_by(alloc, first, second, copy, bound)
}

/// The same, made of the first grammar with whatever algebra in its algebra's place, as that which was compiled by
/// another bound: nothing is copied but what the algebra is made of.
pub fn recompile_by(
    alloc: Global,
    first: &Checked,
    second: &Checked,
    compiled: Checked,
    bound: u64,
) -> Result<Checked, CompileError>
    requires pair { IsPair first.now second.now }
    requires compiled { IsButForAlgebra first.now compiled }
    requires low { bound ≤ greatest_score }
    ensures { MatchCompiledBy first.now second.now bound result }
{
    first.passes();
    second.passes();
    compiled.passes();
    terms_fit_their_signs();
    monotone_terms_keep_order();
    let grammar = &first.grammar;
    let joining = joining_of(grammar, first.algebra, second.algebra, bound);
    let greatest = greatest_compiled(&joining, grammar, first.algebra, second.algebra);
    if greatest > GREATEST_NUMBER {
        let number = greatest.min(MOST_TOLD) as u64;
        return Err(CompileError::Fault(LimitFault { kind: 7, number }));
    }
    let algebra = compiled_algebra(alloc, &joining, grammar, first.algebra, second.algebra)?;
    Ok(with_algebra(compiled, algebra))
}

/// The same for words of `n` letters: by the second algebra's score bound of these, which keeps its limit.
pub fn compile(
    alloc: Global,
    first: &Checked,
    second: &Checked,
    n: u32,
) -> Result<Checked, CompileError>
    requires short { n ≤ 4000 }
    requires pair { IsPair first.now second.now }
    requires low { (bound : ℕ) × IsScoreBound second.now.grammar second.now.algebra n bound
        × (bound ≤ greatest_score) }
    ensures { MatchCompiled first.now second.now n result }
{
    second.passes();
    words_have_one_bound();
    let bound = score_bound(alloc, second, n)?;
    compile_by(alloc, first, second, bound)
}
