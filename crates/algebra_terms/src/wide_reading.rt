ghost use Rattle.std.specs.Prelude.{◌≡◌, ◌∷◌, ◌≤◌, ◌^◌, [], map, length, is_some, All, IfOk, MatchResult};
ghost use Rattle.std.specs.List.{list_all};
ghost use Rattle.adp_model.specs.WideTerms.{form_of};
ghost use Rattle.job_texts.specs.WideText as texts;
ghost use Rattle.algebra_terms.specs.Tokens.{IsIn, said};
ghost use Rattle.algebra_terms.specs.WideSteps.{operation_of, step_seen, steps_seen};
ghost use Rattle.algebra_terms.specs.WideReading.{AreNumbers, GivesWide, Steps, built_on, forms_seen, is_declared, is_leaf_of, is_named, is_numbered, join_top, leaf_form, repeats, stands_again, stepped, top_of, wide_of_steps, words_of};
ghost use Rattle.algebra_terms.specs.declared.wide_error.WideError.TheVariants.{Memory};

use crate::lexer::{Token, tokens};
use crate::number::{begins_number, number_of};
use crate::pile::Pile;
use crate::wide_error::WideError;
use crate::wide_steps::{Operation, Step, wide_steps};
use adp_model::{Text, Wide, is_name};
use std::alloc::{AllocError, Global};
use std::collections::BTreeMap;

/// The most leaves of a term.
const MOST_LEAVES: usize = 32;

/// Whether these tokens of a line spell a wide term.
pub fn is_wide_term(alloc: Global, line: &[u8], tokens: &[Token]) -> Result<bool, AllocError>
    requires { All (IsIn line.now) tokens.now }
    ensures { IfOk result (λ spells. spells ≡ is_some (texts.tree_of (map (said line.now) tokens.now))) }
{
    let steps = wide_steps(alloc, line, tokens)?;
    Ok(steps.is_some())
}

/// The wide term of these variables that the text spells: sums, differences and products of numbers, variables and
/// terms in brackets, and `max` and `min` of two; a product binds more tightly, operations of one kind go from left to
/// right, and a sum may begin with a `-`, which takes its first product from 0. A variable is the value at its place
/// among these, at the first of two.
///
/// Otherwise it is the first that holds of these: Shape, where a byte begins no token or the tokens are no term's;
/// Name, where a variable is no name; Number, where a number word is no number from 0 to 2^62 - 1; Unknown, where a
/// variable isn't declared; Count, where there are more than 32 numbers and variables, each first `-` with a number
/// more; Twice, where a variable stands twice.
///
/// Brackets may be as deep as memory allows, and no term of more than 32 leaves is built.
pub fn read_wide(alloc: Global, bytes: &[u8], vars: &[Text]) -> Result<Wide, WideError>
    requires { length bytes.now ≤ 2 ^ 31 }
    ensures { GivesWide (texts.wide_reading bytes.now vars.now) result }
{
    let tokens = tokens(alloc, bytes)?;
    let Some(steps) = wide_steps(alloc, bytes, &tokens)? else {
        return Err(WideError::Shape);
    };
    wide_of_steps(alloc, &steps, vars)
}

// The term that the steps build of these variables, or the first that is wrong with it.
fn wide_of_steps(alloc: Global, steps: &[Step<'_>], vars: &[Text]) -> Result<Wide, WideError>
    ensures { GivesWide (wide_of_steps vars.now (steps_seen steps.now)) result }
{
    if !are_named(steps) {
        return Err(WideError::Name);
    }
    if !are_numbered(steps) {
        return Err(WideError::Number);
    }
    let numbers = numbered(alloc, vars)?;
    if !are_declared(&numbers, vars, steps) {
        return Err(WideError::Unknown);
    }
    let leaves = leaf_count(steps);
    if leaves > MOST_LEAVES {
        return Err(WideError::Count(small(leaves)?));
    }
    if repeats(steps) {
        return Err(WideError::Twice);
    }
    build(alloc, &numbers, vars, steps)
}

fn are_named(steps: &[Step<'_>]) -> bool
    ensures { result ≡ list_all is_named (steps_seen steps.now) }
{
    steps.iter().all(|step| is_named(step))
}

fn is_named(step: &Step<'_>) -> bool
    ensures { result ≡ is_named (step_seen step.now) }
{
    match step {
        Step::Leaf(word) => begins_number(word) || is_name(word),
        Step::Join(_) => true,
    }
}

fn are_numbered(steps: &[Step<'_>]) -> bool
    ensures { result ≡ list_all is_numbered (steps_seen steps.now) }
{
    steps.iter().all(|step| is_numbered(step))
}

fn is_numbered(step: &Step<'_>) -> bool
    ensures { result ≡ is_numbered (step_seen step.now) }
{
    match step {
        Step::Leaf(word) => !begins_number(word) || number_of(word).is_some(),
        Step::Join(_) => true,
    }
}

// The number of the first of each variable.
fn numbered<'v>(alloc: Global, vars: &'v [Text]) -> Result<BTreeMap<&'v [u8], u32>, WideError>
    ensures { MatchResult result (λ numbers. AreNumbers numbers vars.now) (λ error. error ≡ Memory) }
{
    let mut numbers = BTreeMap::new(alloc);
    for (i, variable) in vars.iter().enumerate() {
        let name = variable.bytes();
        if numbers.get(name).is_none() {
            numbers.insert(name, small(i)?)?;
        }
    }
    Ok(numbers)
}

// The number in 32 bits. More than these can count aren't in memory.
fn small(number: usize) -> Result<u32, WideError>
    ensures { MatchResult result (λ same. same ≡ number) (λ error. error ≡ Memory) }
{
    if number > u32::MAX as usize {
        return Err(WideError::Memory);
    }
    Ok(number as u32)
}

// Whether each variable is one of these, whose numbers these are.
fn are_declared(numbers: &BTreeMap<&[u8], u32>, vars: &[Text], steps: &[Step<'_>]) -> bool
    requires { AreNumbers numbers.now vars.now }
    ensures { result ≡ list_all (is_declared vars.now) (steps_seen steps.now) }
{
    for step in steps {
        if !is_declared(numbers, vars, step) {
            return false;
        }
    }
    true
}

fn is_declared(numbers: &BTreeMap<&[u8], u32>, vars: &[Text], step: &Step<'_>) -> bool
    requires { AreNumbers numbers.now vars.now }
    ensures { result ≡ is_declared vars.now (step_seen step.now) }
{
    let _ = vars;
    match step {
        Step::Leaf(word) => begins_number(word) || numbers.get(*word).is_some(),
        Step::Join(_) => true,
    }
}

fn leaf_count(steps: &[Step<'_>]) -> usize
    ensures { result ≡ length (words_of (steps_seen steps.now)) }
{
    let mut leaves = 0;
    for step in steps {
        if let Step::Leaf(_) = step {
            leaves += 1;
        }
    }
    leaves
}

// Whether a variable stands twice.
fn repeats(steps: &[Step<'_>]) -> bool
    ensures { result ≡ repeats (steps_seen steps.now) }
{
    let mut rest = steps;
    while let [first, others @ ..] = rest {
        if stands_again(first, others) {
            return true;
        }
        rest = others;
    }
    false
}

fn stands_again(step: &Step<'_>, others: &[Step<'_>]) -> bool
    ensures { result ≡ stands_again (step_seen step.now) (steps_seen others.now) }
{
    match step {
        Step::Leaf(word) => !begins_number(word)
            && others.iter().any(|other| is_leaf_of(word, other)),
        Step::Join(_) => false,
    }
}

fn is_leaf_of(word: &[u8], step: &Step<'_>) -> bool
    ensures { result ≡ is_leaf_of word.now (step_seen step.now) }
{
    match step {
        Step::Leaf(other) => word == *other,
        Step::Join(_) => false,
    }
}

// The term that the steps build; Shape where they build none.
fn build(
    alloc: Global,
    numbers: &BTreeMap<&[u8], u32>,
    vars: &[Text],
    steps: &[Step<'_>],
) -> Result<Wide, WideError>
    requires { AreNumbers numbers.now vars.now }
    ensures { GivesWide (top_of (built_on vars.now [] (steps_seen steps.now))) result }
{
    let mut pile = Pile::new(alloc);
    for step in steps {
        if !take_step(alloc, numbers, vars, &mut pile, step)? {
            return Err(WideError::Shape);
        }
    }
    match pile.pop() {
        Some(term) => Ok(term),
        None => Err(WideError::Shape),
    }
}

// Makes a step on a pile of terms; whether it has the terms to join.
fn take_step(
    alloc: Global,
    numbers: &BTreeMap<&[u8], u32>,
    vars: &[Text],
    pile: &mut Pile<Wide>,
    step: &Step<'_>,
) -> Result<bool, AllocError>
    requires { AreNumbers numbers.now vars.now }
    ensures { IfOk result (λ made. Steps (stepped vars.now (forms_seen pile.old) (step_seen step.now)) made
        (forms_seen pile.new)) }
{
    match step {
        Step::Leaf(word) => {
            pile.push(leaf(numbers, vars, word))?;
            Ok(true)
        }
        Step::Join(operation) => join_top(alloc, pile, *operation),
    }
}

fn leaf(numbers: &BTreeMap<&[u8], u32>, vars: &[Text], word: &[u8]) -> Wide
    requires { AreNumbers numbers.now vars.now }
    ensures { form_of result ≡ leaf_form vars.now word.now }
{
    let _ = vars;
    if begins_number(word) {
        Wide::Number(number_of(word).unwrap_or(0) as i64)
    } else {
        Wide::Value(numbers.get(word).copied().unwrap_or(0))
    }
}

fn join_top(alloc: Global, pile: &mut Pile<Wide>, operation: Operation) -> Result<bool, AllocError>
    ensures { IfOk result (λ made. Steps (join_top (forms_seen pile.old) (operation_of operation)) made
        (forms_seen pile.new)) }
{
    let Some(right) = pile.pop() else {
        return Ok(false);
    };
    let Some(left) = pile.pop() else {
        return Ok(false);
    };
    pile.push(joined(alloc, operation, left, right)?)?;
    Ok(true)
}

fn joined(alloc: Global, operation: Operation, left: Wide, right: Wide) -> Result<Wide, AllocError>
    ensures { IfOk result (λ term.
        form_of term ≡ texts.joined (operation_of operation) (form_of left) (form_of right)) }
{
    let left = Box::new(alloc, left)?;
    let right = Box::new(alloc, right)?;
    match operation {
        Operation::Sum => Ok(Wide::Sum(left, right)),
        Operation::Difference => Ok(Wide::Difference(left, right)),
        Operation::Product => Ok(Wide::Product(left, right)),
        Operation::Greater => Ok(Wide::Greater(left, right)),
        Operation::Lesser => Ok(Wide::Lesser(left, right)),
    }
}
