ghost use Rattle.std.specs.Prelude.{◌≡◌, ◌≤◌, ◌^◌, true, length};
ghost use Rattle.std.specs.Option.{option_copied, option_map_or};
ghost use Rattle.job_texts.specs.TermParts.{term_reading};
ghost use Rattle.job_texts.specs.TermText as terms;
ghost use Rattle.adp_model.specs.WellFormed as words;
ghost use Rattle.algebra_terms.specs.Reading.{parts_seen, Gives};

use crate::error::TermError;
use crate::lexer::tokens;
use crate::part::{Part, read_parts};
use crate::total::{constant_of, factors_by_variable, totals_fit};
use adp_model::{Linear, Sequence, Text, is_name};
use std::alloc::Global;

fn has_name(part: &Part<'_>) -> bool
    ensures { result ≡ option_map_or words.is_name (option_copied part.now.variable) true }
{
    match part.variable {
        None => true,
        Some(variable) => is_name(variable),
    }
}

/// Whether every variable is a name.
fn are_names(parts: &[Part<'_>]) -> bool
    ensures { result ≡ terms.are_names (parts_seen parts.now) }
{
    for part in parts {
        if !has_name(part) {
            return false;
        }
    }
    true
}

/// Whether every number word is a number.
fn are_numbers(parts: &[Part<'_>]) -> bool
    ensures { result ≡ terms.are_numbers (parts_seen parts.now) }
{
    for part in parts {
        if part.amount.is_none() {
            return false;
        }
    }
    true
}

/// The term of these variables that the parts sum to, where nothing is wrong with their names and numbers alone.
fn term_of_parts(alloc: Global, parts: &[Part<'_>], vars: &[Text]) -> Result<Linear, TermError>
    requires names { terms.are_names (parts_seen parts.now) ≡ true }
    requires numbers { terms.are_numbers (parts_seen parts.now) ≡ true }
    ensures { Gives (terms.term_of_parts vars.now (parts_seen parts.now)) result }
{
    let constant = constant_of(parts);
    let mut totals = factors_by_variable(alloc, parts)?;
    if !totals_fit(parts, constant, &totals) {
        return Err(TermError::Number);
    }
    let mut factors = Vec::with_capacity(alloc, vars.len())?;
    for variable in vars {
        // What is taken out is gone for a later variable of the same name.
        let factor = totals.remove(variable.bytes()).unwrap_or(0);
        factors.push(factor as i64)?;
    }
    if !totals.is_empty() {
        return Err(TermError::Unknown);
    }
    Ok(Linear {
        constant: constant as i64,
        factors: Sequence::new(factors),
    })
}

/// The term of these variables that the text spells: a `-` or none, then parts with a `+` or a `-` between two, where a
/// part is a number, a variable, or a number, `*` and a variable. A factor stands for each variable, in order; of a
/// variable that stands twice the first has the factor, and the others have 0.
///
/// Otherwise it is the first that holds of these: Shape, where a byte begins no token or the tokens are no term's;
/// Name, where a variable is no name; Number, where a number word is no number from 0 to 2^62 - 1, or where the
/// constant or the factor of a variable, declared or not, lies outside -(2^62 - 1) to 2^62 - 1; Unknown, where a
/// variable isn't declared.
pub fn read_term(alloc: Global, bytes: &[u8], vars: &[Text]) -> Result<Linear, TermError>
    requires { length bytes.now ≤ 2 ^ 31 }
    ensures { Gives (term_reading bytes.now vars.now) result }
{
    let tokens = tokens(alloc, bytes)?;
    let parts = read_parts(alloc, bytes, &tokens)?;
    if !are_names(&parts) {
        return Err(TermError::Name);
    }
    if !are_numbers(&parts) {
        return Err(TermError::Number);
    }
    term_of_parts(alloc, &parts, vars)
}
