ghost use Rattle.std.specs.Prelude.{◌≡◌, ◌↔◌, ◌<◌, IfOk, IsTrue, MatchOption, ℕ, length};
ghost use Rattle.adp_model.specs.GrammarFaults.{IsFirstFaulty};
ghost use Rattle.adp_model.specs.TermForms.{IsTermFor};
ghost use Rattle.adp_model.specs.WellFormed.{is_well_formed};
ghost use Rattle.grammar_check.specs.CheckedGrammar.{PassesChecks};
ghost use Rattle.lex_product.specs.PairFaults.{HaveUnitScores, IsAdding, AddsScores, AllAddScores, BothAddScores, HasOtherFactor};
ghost use Rattle.lex_product.specs.PairAnswers.{MatchPair};

use crate::copying::Copied;
use crate::error::PairError;
use adp_model::laws::terms::monotone_terms_keep_order;
use adp_model::laws::well_formed::terms_fit_their_signs;
use adp_model::{Grammar, GrammarFault, Kind, Term, Text};
use grammar_check::{Checked, algebra_named};
use std::alloc::{AllocError, Global};

/// Whether each score argument has the factor 1.
fn have_unit_scores(factors: &[i64], kinds: &[Kind]) -> bool
    requires { length kinds.now ≡ length factors.now }
    ensures { IsTrue result ↔ HaveUnitScores factors.now kinds.now }
{
    for (place, factor) in factors.iter().enumerate() {
        match kinds[place] {
            Kind::Score => {
                if *factor != 1 {
                    return false;
                }
            }
            Kind::Token => {}
        }
    }
    true
}

/// Whether the term adds its arguments' scores as they are: no wide one counts as one that does.
fn is_adding(term: &Term, kinds: &[Kind]) -> bool
    requires { IsTermFor (length kinds.now) term.now }
    ensures { IsTrue result ↔ IsAdding term.now kinds.now }
{
    match term {
        Term::Linear(term) => have_unit_scores(term.factors.as_slice(), kinds),
        Term::Wide(_) => false,
    }
}

/// Whether the algebra's term for the sign does.
fn adds_scores(grammar: &Grammar, algebra: u32, sign: usize) -> bool
    requires well_formed { IsTrue (is_well_formed grammar.now) }
    requires algebra { algebra < length grammar.now.algebras }
    requires sign { sign < length grammar.now.signs }
    ensures { IsTrue result ↔ AddsScores grammar.now algebra sign }
{
    terms_fit_their_signs();
    let algebra = &grammar.algebras.as_slice()[algebra as usize];
    let term = &algebra.terms.as_slice()[sign];
    let kinds = grammar.signs.as_slice()[sign].kinds.as_slice();
    is_adding(term, kinds)
}

/// Whether both algebras' terms for the sign do.
fn both_add_scores(grammar: &Grammar, first: u32, second: u32, sign: usize) -> bool
    requires well_formed { IsTrue (is_well_formed grammar.now) }
    requires first { first < length grammar.now.algebras }
    requires second { second < length grammar.now.algebras }
    requires sign { sign < length grammar.now.signs }
    ensures { IsTrue result ↔ BothAddScores grammar.now first second sign }
{
    adds_scores(grammar, first, sign) && adds_scores(grammar, second, sign)
}

/// The first sign whose term in one of the algebras is wide, or has a score with a factor other than 1.
fn first_other_factor(grammar: &Grammar, first: u32, second: u32) -> Option<usize>
    requires well_formed { IsTrue (is_well_formed grammar.now) }
    requires first { first < length grammar.now.algebras }
    requires second { second < length grammar.now.algebras }
    ensures { MatchOption result (AllAddScores grammar.now first second)
        (IsFirstFaulty (HasOtherFactor grammar.now first second) (BothAddScores grammar.now first second)
        (length grammar.now.signs)) }
{
    for sign in 0..grammar.signs.as_slice().len() {
        if !both_add_scores(grammar, first, second, sign) {
            return Some(sign);
        }
    }
    None
}

/// The fault of this kind, with a copy of the name.
fn fault(alloc: Global, kind: u8, name: &Text) -> Result<GrammarFault, AllocError>
    ensures { IfOk result (λ fault. fault ≡ record { kind = kind; name = name.now }) }
{
    Ok(GrammarFault {
        kind,
        name: name.copied(alloc)?,
    })
}

/// What the checks found of a grammar, copied to another grammar of which they would find the same.
pub fn with_grammar(
    alloc: Global,
    checked: &Checked,
    grammar: Grammar,
    algebra: u32,
) -> Result<Checked, AllocError>
    requires { PassesChecks (record checked.now { grammar = grammar; algebra = algebra }) }
    ensures { IfOk result (λ other. other ≡ record checked.now { grammar = grammar; algebra = algebra }) }
{
    Ok(Checked {
        grammar,
        algebra,
        sizes: checked.sizes.copied(alloc)?,
        anchors: checked.anchors.copied(alloc)?,
        ranks: checked.ranks.copied(alloc)?,
    })
}

/// The checked grammar with its algebra of this name in the place of its own, where both can be made one: in each
/// algebra all terms are linear, and every score argument of every sign has the factor 1. A refusal is the first that
/// holds: no algebra has the name; a sign's term in one of them is wide or has another factor. It carries the asked
/// name, or that of the first such sign.
pub fn check_pair(alloc: Global, first: &Checked, second: &Text) -> Result<Checked, PairError>
    ensures { MatchPair first.now second.now result }
{
    first.passes();
    monotone_terms_keep_order();
    let grammar = &first.grammar;
    let Some(number) = algebra_named(grammar, second) else {
        return Err(PairError::Fault(fault(alloc, 1, second)?));
    };
    if let Some(sign) = first_other_factor(grammar, first.algebra, number) {
        let name = &grammar.signs.as_slice()[sign].name;
        return Err(PairError::Fault(fault(alloc, 6, name)?));
    }
    let copy = grammar.copied(alloc)?;
    Ok(with_grammar(alloc, first, copy, number)?)
}
