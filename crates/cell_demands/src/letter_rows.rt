//! Where the letters stand that literals of a grammar begin with.

ghost use Rattle.std.specs.Prelude.{◌≡◌, ℕ, ◌≤◌, [], ◌∷◌, IfOk, IfSome, length};
ghost use Rattle.std.specs.Result.{OnOk};
ghost use Rattle.std.specs.List.{AllByRecursion};
ghost use Rattle.adp_model.specs.declared.grammar.Arg.TheVariants.{Rule};
ghost use Rattle.adp_model.specs.PosedProblem.{PosedProblem};
ghost use Rattle.split_lines.specs.Kept.{BeginWith};
ghost use Rattle.cell_demands.specs.LetterRows.{AreBegun, AreLetterRows, AreWithLetter, IsLetterRow};

use crate::bits::{clear_bits, set_bit};
use adp_model::{Arg, Problem};
use std::alloc::{AllocError, Global};

/// A letter, and bits of the positions of a word at which it stands.
#[derive(Drop)]
pub struct LetterRow {
    pub letter: u8,
    pub bits: Vec<u64>,
}

/// For each letter that a literal of a grammar begins with where it stands in a word.
#[derive(Drop)]
pub struct LetterRows {
    pub rows: Vec<LetterRow>,
}

/// The letter with which an argument begins wherever it matches, where it is a literal that is not empty.
fn first_letter(argument: &Arg) -> Option<u8>
    ensures { IfSome result (BeginWith (argument.now ∷ [])) }
{
    let Arg::Literal(text) = argument else {
        return None;
    };
    match text.bytes().split_first() {
        Some((letter, _)) => Some(*letter),
        None => None,
    }
}

/// Where a letter stands. Fails for want of memory alone.
fn letter_row(alloc: Global, word: &[u8], letter: u8) -> Result<LetterRow, AllocError>
    requires { length word.now ≤ 4000 }
    ensures { IfOk result (IsLetterRow word.now) }
{
    let mut bits = clear_bits(alloc, word.len())?;
    for place in 0..word.len() {
        if word[place] == letter {
            set_bit(&mut bits, place as u16);
        }
    }
    Ok(LetterRow { letter, bits })
}

/// The bits of a letter, if there is a row of it.
fn bits_of(rows: &[LetterRow], letter: u8) -> Option<&[u64]>
    ensures { (p : PosedProblem) → AllByRecursion (IsLetterRow p.word) rows.now
        → IfSome result (λ bits. AreWithLetter p.word letter bits.now) }
{
    let Some((row, others)) = rows.split_first() else {
        return None;
    };
    if row.letter == letter {
        return Some(&row.bits);
    }
    bits_of(others, letter)
}

/// Adds a row of the letter with which an argument begins, if there is none. Fails for want of memory alone.
fn add_row(
    alloc: Global,
    word: &[u8],
    argument: &Arg,
    rows: &mut Vec<LetterRow>,
) -> Result<(), AllocError>
    requires short { length word.now ≤ 4000 }
    requires rows { AllByRecursion (IsLetterRow word.now) rows.old.items }
    ensures { OnOk result (AllByRecursion (IsLetterRow word.now) rows.new.items) }
{
    let Some(letter) = first_letter(argument) else {
        return Ok(());
    };
    if bits_of(rows, letter).is_none() {
        rows.push(letter_row(alloc, word, letter)?)?;
    }
    Ok(())
}

impl LetterRows {
    /// The letters that literals of the grammar begin with, in the word. Takes a bit for each letter and position.
    /// Fails for want of memory alone.
    pub fn new(alloc: Global, problem: &Problem<'_>) -> Result<LetterRows, AllocError>
        ensures { IfOk result (AreLetterRows problem.now) }
    {
        problem.admissible();
        let word = problem.letters();
        let mut rows = Vec::new(alloc);
        for rule in problem.grammar.rules.as_slice() {
            for alternative in rule.alts.as_slice() {
                for argument in alternative.args.as_slice() {
                    add_row(alloc, word, argument, &mut rows)?;
                }
            }
        }
        Ok(LetterRows { rows })
    }

    /// Bits of the positions at which an argument may begin, as far as its first letter tells: `None` where any may be
    /// one. Takes time for each letter.
    pub fn begins(&self, argument: &Arg) -> Option<&[u64]>
        ensures begun { (p : PosedProblem) → AreLetterRows p self.now
            → IfSome result (λ bits. AreBegun p argument.now bits.now) }
        ensures token { IfSome result (λ bits. (rule : ℕ) → argument.now ≡ Rule rule → ⊥) }
    {
        match first_letter(argument) {
            Some(letter) => bits_of(&self.rows, letter),
            None => None,
        }
    }
}
