ghost use Rattle.std.specs.Prelude.{◌≡◌, ◌<◌, length, Some, None, IfSome};
ghost use Rattle.adp_model.specs.Bounds.{greatest_weight};
ghost use Rattle.adp_model.specs.Parts.{algebra_at, letters_of};
ghost use Rattle.grammar_check.specs.GrammarPlans.{constant_in, factor_in, weight_in, wide_in, worth_in};

use crate::part::Worth;
use adp_model::{Arg, Grammar, Term, WideTerm};

/// What is bounded.
#[derive(Clone, Copy)]
pub enum Measure {
    /// The scores under the algebra of this number.
    Scores { algebra: u32 },
    /// The nodes of trees.
    Nodes,
}

/// The terms of an algebra, one for each sign.
fn terms(grammar: &Grammar, algebra: u32) -> &[Term]
    ensures { result.now ≡ (algebra_at grammar.now algebra).terms }
{
    match grammar.algebras.as_slice().get(algebra as usize) {
        None => &[],
        Some(algebra) => algebra.terms.as_slice(),
    }
}

/// The greatest weight of letters in absolute value.
fn entries_weight(entries: &[(u8, i64)]) -> u64
    ensures { result ≡ greatest_weight entries.now }
{
    let mut greatest = 0;
    let mut rest = entries;
    while let Some((first, others)) = rest.split_first() {
        greatest = greatest.max(first.1.unsigned_abs());
        rest = others;
    }
    greatest
}

/// The greatest weight of a class in absolute value.
fn class_weight(grammar: &Grammar, class: u32) -> u64
    ensures { result ≡ greatest_weight (letters_of grammar.now class) }
{
    match grammar.classes.as_slice().get(class as usize) {
        None => 0,
        Some(class) => entries_weight(class.letters.as_slice()),
    }
}

impl Measure {
    /// The term of the sign, where it is a wide one that scores are bounded by.
    pub fn wide_term(self, grammar: &Grammar, sign: u32) -> Option<&WideTerm>
        ensures wide { IfSome result (λ term. wide_in grammar.now self sign ≡ Some term.now) }
        ensures linear { result ≡ None → wide_in grammar.now self sign ≡ None }
    {
        match self {
            Measure::Scores { algebra } => match terms(grammar, algebra).get(sign as usize) {
                Some(Term::Wide(term)) => Some(term),
                Some(Term::Linear(_)) | None => None,
            },
            Measure::Nodes => None,
        }
    }

    /// What an alternative of the sign adds of its own.
    pub fn constant(self, grammar: &Grammar, sign: u32) -> u64
        ensures { result ≡ constant_in grammar.now self sign }
    {
        match self {
            Measure::Scores { algebra } => match terms(grammar, algebra).get(sign as usize) {
                Some(Term::Linear(term)) => term.constant.unsigned_abs(),
                Some(Term::Wide(_)) | None => 0,
            },
            Measure::Nodes => 1,
        }
    }

    /// How often what the argument at this place adds is counted.
    pub fn factor(self, grammar: &Grammar, sign: u32, place: usize) -> u64
        ensures { result ≡ factor_in grammar.now self sign place }
    {
        match self {
            Measure::Scores { algebra } => match terms(grammar, algebra).get(sign as usize) {
                Some(Term::Linear(term)) => match term.factors.as_slice().get(place) {
                    None => 0,
                    Some(factor) => factor.unsigned_abs(),
                },
                Some(Term::Wide(_)) => 1,
                None => 0,
            },
            Measure::Nodes => 1,
        }
    }

    /// How much a letter of the class adds.
    fn weight(self, grammar: &Grammar, class: u32) -> u64
        ensures { result ≡ weight_in grammar.now self class }
    {
        match self {
            Measure::Scores { .. } => class_weight(grammar, class),
            Measure::Nodes => 0,
        }
    }

    /// What the argument adds, counted so often.
    pub fn worth(self, grammar: &Grammar, factor: u64, argument: &Arg) -> Worth
        ensures { result ≡ worth_in grammar.now self factor argument.now }
    {
        match argument {
            Arg::Rule(rule) => Worth::OfRule {
                rule: *rule,
                factor,
            },
            Arg::Literal(_) => Worth::OfLetters { weight: 0, factor },
            Arg::Letter(class) => Worth::OfLetters {
                weight: self.weight(grammar, *class),
                factor,
            },
            Arg::Run { class, .. } => Worth::OfLetters {
                weight: self.weight(grammar, *class),
                factor,
            },
        }
    }
}
