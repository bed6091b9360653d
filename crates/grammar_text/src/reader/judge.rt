// What a declaration shows by itself: words that are no names, no numbers or no bounds, letters, and crossed bounds.

ghost use Rattle.std.specs.Prelude.{◌≡◌, ◌≤◌, ◌^◌, ◌∷◌, true, false, is_some, length, map, IfOk};
ghost use Rattle.std.specs.Option.{option_copied, option_map_or, option_to_list};
ghost use Rattle.job_texts.specs.TermParts.{term_reading};
ghost use Rattle.job_texts.specs.WideText.{wide_reading};
ghost use Rattle.std.specs.List.{flat_map, list_all, list_any};
ghost use Rattle.job_texts.specs.TextFaults as faults;
ghost use Rattle.adp_model.specs.WellFormed as words;
ghost use Rattle.grammar_text.specs.Judged as judged;
ghost use Rattle.grammar_text.specs.Seen.{alternative_seen, argument_seen, declaration_seen, item_seen, kept_size_seen, term_seen, words_seen};

use crate::reader::declaration::{Alternative, Argument, Declaration, Item, SizeWords, Term};
use crate::reader::letters::class_letters;
use crate::reader::shape::is_second;
use adp_model::laws::well_formed::names_are_short_and_printable;
use adp_model::{Text, WideTerm, is_name};
use algebra_terms::{TermError, WideError, number_of, read_term, read_wide};
use std::alloc::{AllocError, Global};

/// The greatest bound of a run.
const GREATEST_BOUND: u64 = 1_000_000;

/// The number of an item; `None` where its word is no number.
pub(crate) fn weight_of(item: &Item<'_>) -> Option<i64>
    ensures { result ≡ faults.weight_of (item_seen item.now) }
{
    let number = number_of(item.number)? as i64;
    Some(if item.negative { -number } else { number })
}

/// The bound that a word is: digits alone, and a value of at most 1,000,000.
pub(crate) fn bound_of(word: &[u8]) -> Option<u32>
    ensures { result ≡ faults.bound_of word.now }
{
    let number = number_of(word)?;
    if number > GREATEST_BOUND {
        return None;
    }
    Some(number as u32)
}

/// Whether a word at the place of a name is none. A `let`'s term is not looked at.
pub(crate) fn has_other_name(declaration: &Declaration<'_>) -> bool
    ensures { result ≡ judged.has_other_name (declaration_seen declaration.now) }
{
    match declaration {
        Declaration::Class { name, .. }
        | Declaration::Sign { name, .. }
        | Declaration::Algebra { name, .. } => !is_name(name),
        Declaration::Let {
            sign,
            variables,
            ..
        } => !is_name(sign) || !are_names(variables),
        Declaration::Rule { name, alternatives } => {
            !is_name(name) || !all_have_names(alternatives)
        }
        Declaration::Axiom { rule } => !is_name(rule),
        Declaration::Words => false,
    }
}

fn are_names(texts: &[&[u8]]) -> bool
    ensures { result ≡ list_all words.is_name (words_seen texts.now) }
{
    texts.iter().all(|text| is_name(text))
}

fn all_have_names(alternatives: &[Alternative<'_>]) -> bool
    ensures { result
        ≡ list_all words.is_name (flat_map faults.alternative_names (map alternative_seen alternatives.now)) }
{
    alternatives
        .iter()
        .all(|alternative| has_names(alternative))
}

fn has_names(alternative: &Alternative<'_>) -> bool
    ensures { result ≡ list_all words.is_name (faults.alternative_names (alternative_seen alternative.now)) }
{
    is_name(alternative.sign)
        && alternative
            .arguments
            .iter()
            .all(|argument| has_argument_name(argument))
}

fn has_argument_name(argument: &Argument<'_>) -> bool
    ensures { result ≡ list_all words.is_name (faults.argument_names (argument_seen argument.now)) }
{
    match argument {
        Argument::Named(name) | Argument::OneOf(name) => is_name(name),
        Argument::Spelled(_) => true,
        Argument::RunOf { class, .. } | Argument::RunFrom { class, .. } => is_name(class),
    }
}

/// Whether a weight or a bound is none. A `let`'s term is not looked at.
pub(crate) fn has_other_number(declaration: &Declaration<'_>) -> bool
    ensures { result ≡ judged.has_other_number (declaration_seen declaration.now) }
{
    match declaration {
        Declaration::Class { items, .. } => !have_weights(items),
        Declaration::Rule { alternatives, .. } => !all_have_bounds(alternatives),
        _ => false,
    }
}

fn have_weights(items: &[Item<'_>]) -> bool
    ensures { result ≡ list_all (λ item. is_some (faults.weight_of item)) (map item_seen items.now) }
{
    items.iter().all(|item| weight_of(item).is_some())
}

fn all_have_bounds(alternatives: &[Alternative<'_>]) -> bool
    ensures { result
        ≡ list_all (λ word. is_some (faults.bound_of word))
        (flat_map faults.alternative_bounds (map alternative_seen alternatives.now)) }
{
    alternatives
        .iter()
        .all(|alternative| has_bounds(alternative))
}

fn has_bounds(alternative: &Alternative<'_>) -> bool
    ensures { result
        ≡ list_all (λ word. is_some (faults.bound_of word))
        (faults.alternative_bounds (alternative_seen alternative.now)) }
{
    have_bounds(&alternative.arguments) && has_size_bounds(&alternative.size)
}

fn have_bounds(arguments: &[Argument<'_>]) -> bool
    ensures { result
        ≡ list_all (λ word. is_some (faults.bound_of word))
        (flat_map faults.argument_bounds (map argument_seen arguments.now)) }
{
    arguments
        .iter()
        .all(|argument| has_argument_bounds(argument))
}

fn has_size_bounds(size: &Option<Box<SizeWords<'_>>>) -> bool
    ensures { result ≡ list_all (λ word. is_some (faults.bound_of word))
        (faults.size_bounds (kept_size_seen size.now)) }
{
    match size {
        None => true,
        Some(size) => are_bounds(size.low, size.high),
    }
}

// Whether a low bound and, where there is one, a high bound are bounds.
fn are_bounds(low: &[u8], high: Option<&[u8]>) -> bool
    ensures { result ≡ list_all (λ word. is_some (faults.bound_of word)) (low.now ∷ option_to_list (option_copied high.entry)) }
{
    bound_of(low).is_some() && high.is_none_or(|word| bound_of(word).is_some())
}

fn has_argument_bounds(argument: &Argument<'_>) -> bool
    ensures { result
        ≡ list_all (λ word. is_some (faults.bound_of word)) (faults.argument_bounds (argument_seen argument.now)) }
{
    match argument {
        Argument::RunOf { low, high, .. } => are_bounds(low, Some(high)),
        Argument::RunFrom { low, .. } => are_bounds(low, None),
        _ => true,
    }
}

/// Whether the high bound of a run or of a size is below its low bound.
pub(crate) fn has_crossed_run(declaration: &Declaration<'_>) -> bool
    ensures { result ≡ judged.has_crossed_run (declaration_seen declaration.now) }
{
    match declaration {
        Declaration::Rule { alternatives, .. } => some_is_crossed(alternatives),
        _ => false,
    }
}

fn some_is_crossed(alternatives: &[Alternative<'_>]) -> bool
    ensures { result
        ≡ list_any faults.is_crossed_alternative (map alternative_seen alternatives.now) }
{
    alternatives
        .iter()
        .any(|alternative| is_crossed(alternative))
}

fn is_crossed(alternative: &Alternative<'_>) -> bool
    ensures { result ≡ faults.is_crossed_alternative (alternative_seen alternative.now) }
{
    has_crossed_argument(alternative) || has_crossed_size(&alternative.size)
}

fn has_crossed_size(size: &Option<Box<SizeWords<'_>>>) -> bool
    ensures { result ≡ option_map_or (λ size. faults.are_crossed size.low size.high)
        (kept_size_seen size.now) false }
{
    match size {
        None => false,
        Some(size) => are_crossed(size.low, size.high),
    }
}

fn has_crossed_argument(alternative: &Alternative<'_>) -> bool
    ensures { result ≡ list_any faults.has_crossed_bounds (map argument_seen alternative.now.arguments.items) }
{
    alternative
        .arguments
        .iter()
        .any(|argument| has_crossed_bounds(argument))
}

fn has_crossed_bounds(argument: &Argument<'_>) -> bool
    ensures { result ≡ faults.has_crossed_bounds (argument_seen argument.now) }
{
    match argument {
        Argument::RunOf { low, high, .. } => are_crossed(low, Some(high)),
        _ => false,
    }
}

// Whether a high bound is below the low one.
fn are_crossed(low: &[u8], high: Option<&[u8]>) -> bool
    ensures { result ≡ faults.are_crossed low.now (option_copied high.entry) }
{
    let Some(high) = high else {
        return false;
    };
    match (bound_of(low), bound_of(high)) {
        (Some(least), Some(most)) => most < least,
        _ => false,
    }
}

/// Whether a class has no letter, or a letter twice.
pub(crate) fn misletters(alloc: Global, declaration: &Declaration<'_>) -> Result<bool, AllocError>
    ensures { IfOk result (λ found. found ≡ faults.misletters (declaration_seen declaration.now)) }
{
    match declaration {
        Declaration::Class { items, .. } => {
            let letters = class_letters(alloc, items)?;
            Ok(letters.is_empty() || !are_distinct(&letters))
        }
        _ => Ok(false),
    }
}

// Whether no letter stands twice.
fn are_distinct(letters: &[(u8, i64)]) -> bool
    ensures { result ≡ words.letters_are_distinct letters.now }
{
    let mut seen = [false; 256];
    for (letter, _) in letters {
        let place = usize::from(*letter);
        if seen[place] {
            return false;
        }
        seen[place] = true;
    }
    true
}

/// The term of a `let` of these variables, or the first that is wrong with it: Name, where a variable of the term is no
/// name; Number, where a number of it is none or too great, or where the constant or a factor of a linear term is out of
/// range; Unknown, where the term has another variable; Count, where a wide term has too many leaves; Twice, where it
/// names a variable twice. Shape never comes.
pub(crate) fn read_let(
    alloc: Global,
    variables: &[&[u8]],
    term: &Term<'_>,
) -> Result<adp_model::Term, WideError>
    requires { list_all words.is_name (words_seen variables.now) ≡ true }
    ensures { judged.IsJudged (words_seen variables.now) (term_seen term.now.version term.now.bytes.now) result }
{
    let mut names = Vec::with_capacity(alloc, variables.len())?;
    for variable in variables {
        names.push(text_of(alloc, variable)?)?;
    }
    if is_second(term.version) {
        read_second(alloc, term.bytes, &names)
    } else {
        read_first(alloc, term.bytes, &names)
    }
}

// A wide term.
fn read_second(alloc: Global, bytes: &[u8], vars: &[Text]) -> Result<adp_model::Term, WideError>
    requires { length bytes.now ≤ 2 ^ 31 }
    ensures { judged.GivesSecond (wide_reading bytes.now vars.now) result }
{
    match read_wide(alloc, bytes, vars) {
        Ok(root) => Ok(adp_model::Term::Wide(WideTerm::new(root))),
        Err(error) => Err(error),
    }
}

// A linear term.
fn read_first(alloc: Global, bytes: &[u8], vars: &[Text]) -> Result<adp_model::Term, WideError>
    requires { length bytes.now ≤ 2 ^ 31 }
    ensures { judged.GivesFirst (term_reading bytes.now vars.now) result }
{
    match read_term(alloc, bytes, vars) {
        Ok(term) => Ok(adp_model::Term::Linear(term)),
        Err(TermError::Shape) => Err(WideError::Shape),
        Err(TermError::Name) => Err(WideError::Name),
        Err(TermError::Number) => Err(WideError::Number),
        Err(TermError::Unknown) => Err(WideError::Unknown),
        Err(TermError::Memory) => Err(WideError::Memory),
    }
}

/// A name as a text of its own.
pub(crate) fn text_of(alloc: Global, name: &[u8]) -> Result<Text, AllocError>
    requires { words.is_name name.now ≡ true }
    ensures { IfOk result (λ text. text ≡ name.now) }
{
    names_are_short_and_printable();
    let mut bytes = Vec::with_capacity(alloc, name.len())?;
    bytes.extend_from_slice(name)?;
    Ok(Text::new(bytes))
}
