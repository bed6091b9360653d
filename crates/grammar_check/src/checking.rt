ghost use Rattle.std.specs.Prelude.{◌≡◌, ℕ, ◌<◌, IfOk, IsTrue, MatchOption, length};
ghost use Rattle.adp_model.specs.GrammarFaults.{IsNamed, IsFirstFaulty, HasOtherTerm};
ghost use Rattle.adp_model.specs.GrammarSigns.{HasMonotoneTerm};
ghost use Rattle.adp_model.specs.WellFormed.{is_well_formed};
ghost use Rattle.grammar_check.specs.CheckAnswers.{IsFirstFalse, IsFirstUnproductive, IsRefusal, MatchFaultless, MatchFindings, MatchCheck};

use crate::checked::Checked;
use crate::error::CheckError;
use crate::signs::known_signs;
use adp_model::laws::terms::monotone_terms_keep_order;
use adp_model::laws::well_formed::{alternatives_fit, numbers_fit_together, terms_fit_their_signs};
use adp_model::{Grammar, GrammarFault, Sequence, Text};
use std::alloc::{AllocError, Global};
use term_values::monotone;
use yield_sizes::{
    Anchors, Sizes, anchors, first_impossible, first_loop, productive, ranks, sizes,
};

/// What the checks find of a grammar that has no fault under an algebra, by its number.
#[derive(Drop)]
struct Findings {
    algebra: u32,
    sizes: Sizes,
    anchors: Anchors,
    ranks: Sequence<u32>,
}

/// The number of the algebra with this name.
pub fn algebra_named(grammar: &Grammar, name: &Text) -> Option<u32>
    requires { IsTrue (is_well_formed grammar.now) }
    ensures { MatchOption result ((algebra : ℕ) → IsNamed grammar.now name.now algebra → ⊥)
        (IsNamed grammar.now name.now) }
{
    for (number, algebra) in grammar.algebras.as_slice().iter().enumerate() {
        if algebra.name.bytes() == name.bytes() {
            return Some(number as u32);
        }
    }
    None
}

/// The place of the first `false`.
fn first_false(flags: &[bool]) -> Option<usize>
    ensures { IsFirstFalse flags.now result }
{
    for (place, flag) in flags.iter().enumerate() {
        if !*flag {
            return Some(place);
        }
    }
    None
}

/// The first sign whose term in the algebra is not monotone.
fn first_other_term(grammar: &Grammar, algebra: u32) -> Option<usize>
    requires well_formed { IsTrue (is_well_formed grammar.now) }
    requires algebra { algebra < length grammar.now.algebras }
    ensures { MatchOption result
        ((sign : ℕ) → sign < length grammar.now.signs → HasMonotoneTerm grammar.now algebra sign)
        (IsFirstFaulty (HasOtherTerm grammar.now algebra) (HasMonotoneTerm grammar.now algebra)
        (length grammar.now.signs)) }
{
    terms_fit_their_signs();
    let known = known_signs(grammar, algebra);
    let terms = grammar.algebras.as_slice()[algebra as usize]
        .terms
        .as_slice();
    let signs = grammar.signs.as_slice();
    for sign in 0..signs.len() {
        let kinds = signs[sign].kinds.as_slice();
        if !monotone(&terms[sign], kinds, known.tokens, known.scores) {
            return Some(sign);
        }
    }
    None
}

/// A refusal that carries a copy of the name.
fn refusal(alloc: Global, kind: u8, name: &Text) -> CheckError
    ensures { IsRefusal kind name.now result }
{
    match Vec::from_slice(alloc, name.bytes()) {
        Err(_) => CheckError::Memory,
        Ok(bytes) => CheckError::Fault(GrammarFault {
            kind,
            name: Text::new(bytes),
        }),
    }
}

/// The first rule that is not productive.
fn first_unproductive(alloc: Global, grammar: &Grammar) -> Result<Option<usize>, AllocError>
    requires { IsTrue (is_well_formed grammar.now) }
    ensures { IfOk result (IsFirstUnproductive grammar.now) }
{
    let flags = productive(alloc, grammar)?;
    Ok(first_false(&flags))
}

/// The number of the algebra of this name and the sizes of the rules, where the grammar has no fault under it.
fn faultless(alloc: Global, grammar: &Grammar, algebra: &Text) -> Result<(u32, Sizes), CheckError>
    requires { IsTrue (is_well_formed grammar.now) }
    ensures { MatchFaultless grammar.now algebra.now result }
{
    numbers_fit_together();
    let Some(number) = algebra_named(grammar, algebra) else {
        return Err(refusal(alloc, 1, algebra));
    };
    if let Some(rule) = first_unproductive(alloc, grammar)? {
        let name = &grammar.rules.as_slice()[rule].name;
        return Err(refusal(alloc, 2, name));
    }
    let sizes = sizes(alloc, grammar)?;
    if let Some(rule) = first_loop(alloc, grammar, &sizes)? {
        let name = &grammar.rules.as_slice()[rule as usize].name;
        return Err(refusal(alloc, 3, name));
    }
    if let Some(sign) = first_other_term(grammar, number) {
        let name = &grammar.signs.as_slice()[sign].name;
        return Err(refusal(alloc, 4, name));
    }
    if let Some(rule) = first_impossible(grammar, &sizes) {
        let name = &grammar.rules.as_slice()[rule].name;
        return Err(refusal(alloc, 5, name));
    }
    Ok((number, sizes))
}

/// What a checked grammar keeps beside the grammar, which has no fault under the algebra of this name.
fn examine(alloc: Global, grammar: &Grammar, algebra: &Text) -> Result<Findings, CheckError>
    requires { IsTrue (is_well_formed grammar.now) }
    ensures { MatchFindings grammar.now algebra.now result }
{
    let (algebra, sizes) = faultless(alloc, grammar, algebra)?;
    let ranks = Sequence::new(ranks(alloc, grammar, &sizes)?);
    let anchors = anchors(alloc, grammar, &sizes)?;
    Ok(Findings {
        algebra,
        sizes,
        anchors,
        ranks,
    })
}

/// Checks a grammar under its algebra of this name. A refusal is the first that holds: no algebra has the name; a rule
/// is not productive; a rule is on a loop; a sign's term in the algebra is not monotone; a rule has an alternative that no
/// length fits. It carries the asked name, or that of the first such rule or sign, and the grammar is gone.
pub fn check(alloc: Global, grammar: Grammar, algebra: &Text) -> Result<Checked, CheckError>
    requires { IsTrue (is_well_formed grammar) }
    ensures { MatchCheck grammar algebra.now result }
{
    monotone_terms_keep_order();
    alternatives_fit();
    let found = examine(alloc, &grammar, algebra)?;
    Ok(Checked {
        grammar,
        algebra: found.algebra,
        sizes: found.sizes,
        anchors: found.anchors,
        ranks: found.ranks,
    })
}
