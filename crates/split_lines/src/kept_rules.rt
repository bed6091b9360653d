//! What a grammar and an algebra alone tell of the alternatives, whatever the word is.

ghost use Rattle.std.specs.Prelude.{◌≡◌, ℕ, ◌+◌, ◌<◌, ◌≤◌, IfOk, MatchOption, drop, length};
ghost use Rattle.std.specs.Bool.{OnTrue};
ghost use Rattle.std.specs.List.{AllByRecursion};
ghost use Rattle.adp_model.specs.declared.grammar.Grammar.{Grammar};
ghost use Rattle.adp_model.specs.WellFormed.{IsKnown};
ghost use Rattle.split_lines.specs.Laid.{IsFixed};
ghost use Rattle.split_lines.specs.Lines.{IsLastOpen, HasLine};
ghost use Rattle.split_lines.specs.EachWord.{AtEachWord};
ghost use Rattle.split_lines.specs.KeptRules.{AreKeptFor, AreMiddles, HasAllOf, IsKeptOrNone, IsKeptRule, IsNumberOf, kept_of};

use crate::beginnings::Beginnings;
use crate::classes::{LetterWeights, class_weights};
use crate::extents::{Extent, extent_of};
use crate::kept::{KeptAlternative, kept_alternative};
use crate::matches::fixed_letters;
use crate::tokens::{first_letter, first_text, is_fixed};
use adp_model::{Arg, Problem};
use std::alloc::{AllocError, Global};

/// How many of the kept lists are compared with tokens before these get a list of their own.
const MOST_COMPARED: usize = 64;

/// Tokens of fixed length between the two arguments of a line, and the letter with which they begin, if one is known.
#[derive(Clone, Copy)]
pub struct Middle<'a> {
    pub tokens: &'a [Arg],
    pub first: Option<u8>,
}

/// A line as it is kept: with the number of its middle.
#[derive(Clone, Copy)]
pub struct KeptLine {
    pub first: u8,
    pub between: u8,
    pub tail: u16,
    pub before: Extent,
    pub behind: Extent,
    pub middle: usize,
}

/// What is kept of a rule: its alternatives, and which of them may begin with some letters.
#[derive(Drop)]
pub struct KeptRule<'a> {
    pub alternatives: Vec<KeptAlternative<'a>>,
    pub beginnings: Beginnings,
}

/// What is kept of all classes and rules, and the middles of their lines.
#[derive(Drop)]
pub struct KeptRules<'a> {
    pub weights: Vec<LetterWeights>,
    pub middles: Vec<Middle<'a>>,
    pub rules: Vec<KeptRule<'a>>,
    /// Whether arguments of an alternative may come before its line.
    pub have_tails: bool,
}

/// What is kept of all rules, for a word alone or for all words of a job.
#[derive(Drop)]
pub enum Kept<'a> {
    Own(KeptRules<'a>),
    Shared(&'a KeptRules<'a>),
}

impl<'a> Kept<'a> {
    /// What is kept.
    #[inline(always)]
    pub fn rules(&self) -> &KeptRules<'a>
        ensures { result.now ≡ kept_of self.now }
    {
        match self {
            Kept::Own(rules) => rules,
            Kept::Shared(rules) => rules,
        }
    }
}

/// The number of the last argument of open length.
fn last_open(arguments: &[Arg]) -> Option<usize>
    ensures { MatchOption result (AllByRecursion IsFixed arguments.now) (IsLastOpen arguments.now) }
{
    for number in (0..arguments.len()).rev() {
        if !is_fixed(&arguments[number]) {
            return Some(number);
        }
    }
    None
}

/// The number of the first argument of the line, and how many tokens stand between it and the second one.
fn line_of(arguments: &[Arg]) -> Option<(usize, usize)>
    ensures { MatchOption result ((first between : ℕ) → HasLine (drop first arguments.now) between → ⊥)
        (λ line. HasLine (drop line.0 arguments.now) line.1) }
{
    let second = last_open(arguments)?;
    let first = last_open(&arguments[..second])?;
    Some((first, second - first - 1))
}

/// Whether the tokens are the same. Tokens of open length never are.
fn is_same(first: &Arg, second: &Arg) -> bool
    ensures { OnTrue result (first.now ≡ second.now) }
{
    match (first, second) {
        (Arg::Literal(text), Arg::Literal(other)) => text.bytes() == other.bytes(),
        (Arg::Letter(class), Arg::Letter(other)) => class == other,
        _ => false,
    }
}

/// The same of lists of tokens.
fn are_same(tokens: &[Arg], others: &[Arg]) -> bool
    ensures { OnTrue result (tokens.now ≡ others.now) }
{
    if tokens.is_empty() || others.is_empty() {
        return tokens.len() == others.len();
    }
    is_same(&tokens[0], &others[0]) && are_same(&tokens[1..], &others[1..])
}

/// The number of these tokens among the middles, behind which they are put unless they are found among the first ones.
fn number_of<'a>(tokens: &'a [Arg], middles: &mut Vec<Middle<'a>>) -> Result<usize, AllocError>
    requires { AllByRecursion IsFixed tokens.now }
    ensures middles { IfOk result (λ _. (grammar : Grammar) → AllByRecursion (IsKnown grammar) tokens.now
        → AreMiddles grammar middles.old.items → AreMiddles grammar middles.new.items) }
    ensures kept { IfOk result (λ _. HasAllOf middles.old.items middles.new.items) }
    ensures number { IfOk result (IsNumberOf middles.new.items tokens.now) }
{
    let first = first_letter(tokens);
    for number in 0..middles.len().min(MOST_COMPARED) {
        let middle = middles[number];
        if middle.first == first && are_same(middle.tokens, tokens) {
            return Ok(number);
        }
    }
    let number = middles.len();
    middles.push(Middle { tokens, first })?;
    Ok(number)
}

/// The line of these arguments, as it is kept.
fn kept_line<'a>(
    problem: &Problem<'_>,
    arguments: &'a [Arg],
    middles: &mut Vec<Middle<'a>>,
) -> Result<Option<KeptLine>, AllocError>
    requires known { AllByRecursion (IsKnown problem.now.grammar) arguments.now }
    requires few { length arguments.now ≤ 4 }
    requires middles { AreMiddles problem.now.grammar middles.old.items }
    ensures middles { IfOk result (λ _. AreMiddles problem.now.grammar middles.new.items) }
    ensures kept { IfOk result (λ _. HasAllOf middles.old.items middles.new.items) }
    ensures line { IfOk result (λ line. AtEachWord problem.now.grammar problem.now.algebra
        (λ p. IsKeptOrNone p middles.new.items arguments.now line)) }
{
    let Some((first, between)) = line_of(arguments) else {
        return Ok(None);
    };
    let second = first + between + 1;
    let middle = number_of(&arguments[first + 1..second], middles)?;
    let tail = fixed_letters(&arguments[second + 1..]);
    Ok(Some(KeptLine {
        first: first as u8,
        between: between as u8,
        tail: tail as u16,
        before: extent_of(problem, &arguments[first]),
        behind: extent_of(problem, &arguments[second]),
        middle,
    }))
}

/// What is kept of a rule.
fn kept_rule<'a>(
    alloc: Global,
    problem: &Problem<'a>,
    rule: u32,
    middles: &mut Vec<Middle<'a>>,
) -> Result<KeptRule<'a>, AllocError>
    requires rule { rule < length problem.now.grammar.rules }
    requires middles { AreMiddles problem.now.grammar middles.old.items }
    ensures middles { IfOk result (λ _. AreMiddles problem.now.grammar middles.new.items) }
    ensures longer { IfOk result (λ _. HasAllOf middles.old.items middles.new.items) }
    ensures kept { IfOk result (λ kept. AtEachWord problem.now.grammar problem.now.algebra
        (λ p. IsKeptRule p middles.new.items rule kept)) }
{
    let count = problem.alternatives(rule).len();
    let mut alternatives = Vec::with_capacity(alloc, count)?;
    let mut beginnings = Beginnings::none();
    for number in 0..count {
        let alt = number as u8;
        let line = kept_line(problem, problem.arguments(rule, alt), middles)?;
        let kept = kept_alternative(problem, rule, alt, line);
        beginnings.add(alt, first_text(kept.front));
        alternatives.push(kept)?;
    }
    Ok(KeptRule {
        alternatives,
        beginnings,
    })
}

/// Whether some of an alternative's arguments behind the tokens in front come before its line.
fn has_tail(alternative: &KeptAlternative<'_>) -> bool {
    match alternative.line {
        Some(line) => line.first as usize > alternative.front.len(),
        None => false,
    }
}

/// What is kept of all classes and rules, in time for each alternative and for the letters of literals and classes. Memory
/// is about a hundred bytes for each alternative, about 800 for each rule, and 4,096 for each class. Fails for want of
/// memory alone.
pub fn kept_rules<'a>(alloc: Global, problem: &Problem<'a>) -> Result<KeptRules<'a>, AllocError>
    ensures { IfOk result (AreKeptFor problem.now.grammar problem.now.algebra) }
{
    problem.admissible();
    let weights = class_weights(alloc, problem.grammar)?;
    let mut middles = Vec::new(alloc);
    let count = problem.grammar.rules.as_slice().len();
    let mut rules = Vec::with_capacity(alloc, count)?;
    let mut have_tails = false;
    for rule in 0..count {
        let kept = kept_rule(alloc, problem, rule as u32, &mut middles)?;
        have_tails |= kept.alternatives.iter().any(|it| has_tail(it));
        rules.push(kept)?;
    }
    Ok(KeptRules {
        weights,
        middles,
        rules,
        have_tails,
    })
}
