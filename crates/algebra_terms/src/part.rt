ghost use Rattle.std.specs.Prelude.{◌≡◌, ◌<◌, ◌^◌, ◌∷◌, true, length, map, is_some, All, IfOk, IfSome, Some, MatchResult};
ghost use Rattle.job_texts.specs.LineTokens as lines;
ghost use Rattle.job_texts.specs.TermParts as parts;
ghost use Rattle.job_texts.specs.TermText as terms;
ghost use Rattle.algebra_terms.specs.Reading.{IsAfterTimes, IsPart, IsFurtherPart, IsMissing, parts_seen};
ghost use Rattle.algebra_terms.specs.Tokens.{IsIn, said};

use crate::error::TermError;
use crate::lexer::Token;
use crate::number::{begins_number, number_of};
use crate::symbols::{Symbol, split_symbol};
use std::alloc::Global;

/// A constant, and a part for each variable of the greatest sign: room for these saves growing.
const USUAL_PARTS: usize = 5;

/// What a part of a term adds, to the constant or to the factor of its variable.
#[derive(Clone, Copy)]
pub struct Part<'a> {
    /// `None` for a plain number.
    pub variable: Option<&'a [u8]>,
    /// The number with its sign; `None` where the number word is no number.
    pub amount: Option<i64>,
}

/// The number with its sign.
fn signed(negative: bool, number: u64) -> i64
    requires { number < 2 ^ 62 }
    ensures { Some result ≡ terms.signed negative (Some number) }
{
    let number = number as i64;
    if negative { -number } else { number }
}

/// The amount of a number word behind its sign.
fn amount_of(negative: bool, word: &[u8]) -> Option<i64>
    ensures { result ≡ terms.signed negative (terms.number_of word.now) }
{
    let number = number_of(word)?;
    Some(signed(negative, number))
}

/// A number times the variable that is the first of these tokens of a line, and the tokens after it.
fn multiple_at<'a, 'b>(
    negative: bool,
    number: &[u8],
    line: &'a [u8],
    tokens: &'b [Token],
) -> Option<(Part<'a>, &'b [Token])>
    requires number { terms.begins_number number.now ≡ true }
    requires spans { All (IsIn line.now) tokens.now }
    ensures part { IsPart line.now
        (parts.parts_from negative (lines.Word number.now ∷ lines.Times ∷ map (said line.now) tokens.now)) result }
    ensures within { IfSome result (λ found. All (IsIn line.now) found.1.now) }
    ensures shorter { IfSome result (λ found. length found.1.now < length tokens.now) }
{
    let (symbol, rest) = split_symbol(line, tokens)?;
    let Symbol::Word(variable) = symbol else {
        return None;
    };
    if begins_number(variable) {
        return None;
    }
    let amount = amount_of(negative, number);
    let variable = Some(variable);
    Some((Part { variable, amount }, rest))
}

/// The tokens after the `*` that is the first of these.
fn after_times<'b>(line: &[u8], tokens: &'b [Token]) -> Option<&'b [Token]>
    requires { All (IsIn line.now) tokens.now }
    ensures times { IsAfterTimes line.now (map (said line.now) tokens.now) result }
    ensures within { IfSome result (λ rest. All (IsIn line.now) rest.now) }
    ensures shorter { IfSome result (λ rest. length rest.now < length tokens.now) }
{
    match split_symbol(line, tokens)? {
        (Symbol::Times, rest) => Some(rest),
        _ => None,
    }
}

/// The part that these tokens of a line begin with, and the tokens after it.
fn part_at<'a, 'b>(
    negative: bool,
    line: &'a [u8],
    tokens: &'b [Token],
) -> Option<(Part<'a>, &'b [Token])>
    requires { All (IsIn line.now) tokens.now }
    ensures part { IsPart line.now (parts.parts_from negative (map (said line.now) tokens.now)) result }
    ensures within { IfSome result (λ found. All (IsIn line.now) found.1.now) }
    ensures shorter { IfSome result (λ found. length found.1.now < length tokens.now) }
{
    let (symbol, rest) = split_symbol(line, tokens)?;
    let Symbol::Word(word) = symbol else {
        return None;
    };
    if !begins_number(word) {
        let variable = Some(word);
        let amount = Some(signed(negative, 1));
        return Some((Part { variable, amount }, rest));
    }
    if let Some(after) = after_times(line, rest) {
        return multiple_at(negative, word, line, after);
    }
    let amount = amount_of(negative, word);
    Some((
        Part {
            variable: None,
            amount,
        },
        rest,
    ))
}

/// The first part of the term that these tokens of a line spell, and the tokens after it.
fn first_part<'a, 'b>(line: &'a [u8], tokens: &'b [Token]) -> Option<(Part<'a>, &'b [Token])>
    requires { All (IsIn line.now) tokens.now }
    ensures part { IsPart line.now (parts.parts_of (map (said line.now) tokens.now)) result }
    ensures within { IfSome result (λ found. All (IsIn line.now) found.1.now) }
    ensures shorter { IfSome result (λ found. length found.1.now < length tokens.now) }
{
    match split_symbol(line, tokens) {
        Some((Symbol::Minus, rest)) => part_at(true, line, rest),
        _ => part_at(false, line, tokens),
    }
}

/// A further part behind its sign, and the tokens after it; `None` where there is no token.
fn further_part<'a, 'b>(
    line: &'a [u8],
    tokens: &'b [Token],
) -> Result<Option<(Part<'a>, &'b [Token])>, TermError>
    requires { All (IsIn line.now) tokens.now }
    ensures part { IsFurtherPart line.now (parts.further_parts (map (said line.now) tokens.now)) result }
    ensures within { IfOk result (λ next. IfSome next (λ found. All (IsIn line.now) found.1.now)) }
    ensures shorter { IfOk result (λ next. IfSome next (λ found. length found.1.now < length tokens.now)) }
{
    let Some((symbol, rest)) = split_symbol(line, tokens) else {
        return Ok(None);
    };
    let found = match symbol {
        Symbol::Plus => part_at(false, line, rest),
        Symbol::Minus => part_at(true, line, rest),
        _ => None,
    };
    match found {
        None => Err(TermError::Shape),
        Some(next) => Ok(Some(next)),
    }
}

/// Whether these tokens of a line spell a term. Takes no memory.
pub fn is_term(line: &[u8], tokens: &[Token]) -> bool
    requires { All (IsIn line.now) tokens.now }
    ensures { result ≡ is_some (parts.parts_of (map (said line.now) tokens.now)) }
{
    let Some((_, mut rest)) = first_part(line, tokens) else {
        return false;
    };
    loop {
        match further_part(line, rest) {
            Ok(Some((_, after))) => rest = after,
            Ok(None) => return true,
            Err(_) => return false,
        }
    }
}

/// The parts of the term that these tokens of a line spell, in order. Shape where they spell none.
pub fn read_parts<'a>(
    alloc: Global,
    line: &'a [u8],
    tokens: &[Token],
) -> Result<Vec<Part<'a>>, TermError>
    requires { All (IsIn line.now) tokens.now }
    ensures { MatchResult result
        (λ found. parts.parts_of (map (said line.now) tokens.now) ≡ Some (parts_seen found.items))
        (λ error. IsMissing (parts.parts_of (map (said line.now) tokens.now)) error) }
{
    let mut parts = Vec::with_capacity(alloc, USUAL_PARTS)?;
    let Some((first, mut rest)) = first_part(line, tokens) else {
        return Err(TermError::Shape);
    };
    parts.push(first)?;
    while let Some((part, after)) = further_part(line, rest)? {
        parts.push(part)?;
        rest = after;
    }
    Ok(parts)
}
