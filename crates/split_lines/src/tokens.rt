//! Tokens of fixed length: literals and letters.

ghost use Rattle.std.specs.Prelude.{◌≡◌, ◌↔◌, ℕ, IfSome, IsTrue, Some, false, slice_get};
ghost use Rattle.split_lines.specs.Kept.{BeginWith, first_text};
ghost use Rattle.split_lines.specs.Laid.{IsFixed};
ghost use Rattle.split_lines.specs.Matching.{fixed_length};

use adp_model::Arg;

/// Whether the argument is a token of fixed length.
#[inline(always)]
pub fn is_fixed(argument: &Arg) -> bool
    ensures { IsTrue result ↔ IsFixed argument.now }
{
    match argument {
        Arg::Literal(_) | Arg::Letter(_) => true,
        Arg::Rule(_) | Arg::Run { .. } => false,
    }
}

/// How many letters a token of fixed length has.
pub fn fixed_length(token: &Arg) -> usize
    ensures { result ≡ fixed_length token.now }
{
    match token {
        Arg::Literal(text) => text.bytes().len(),
        Arg::Letter(_) => 1,
        Arg::Rule(_) | Arg::Run { .. } => 0,
    }
}

/// The letters of the first token, where that is a literal.
pub fn first_text(tokens: &[Arg]) -> &[u8]
    ensures { result.now ≡ first_text tokens.now }
{
    match tokens.split_first() {
        Some((Arg::Literal(text), _)) => text.bytes(),
        _ => &[],
    }
}

/// The letter with which tokens begin wherever they match, where the first one is a literal that is not empty.
pub fn first_letter(tokens: &[Arg]) -> Option<u8>
    ensures { IfSome result (BeginWith tokens.now) }
{
    let Some((Arg::Literal(text), _)) = tokens.split_first() else {
        return None;
    };
    match text.bytes().split_first() {
        Some((letter, _)) => Some(*letter),
        None => None,
    }
}

/// The letter that stands at the position, where there is one.
#[inline(always)]
pub fn letter_at(word: &[u8], position: usize) -> Option<u8>
    ensures { result ≡ slice_get word.now position }
{
    match word.get(position) {
        Some(letter) => Some(*letter),
        None => None,
    }
}

/// Whether the letter stands at the position.
#[inline(always)]
pub fn stands(word: &[u8], position: usize, letter: u8) -> bool
    ensures { IsTrue result ↔ (slice_get word.now position ≡ Some letter) }
{
    match word.get(position) {
        Some(found) => *found == letter,
        None => false,
    }
}

/// Whether the letter stands anywhere.
pub fn occurs(word: &[u8], letter: u8) -> bool
    ensures { result ≡ false → (position : ℕ) → slice_get word.now position ≡ Some letter → ⊥ }
{
    word.contains(&letter)
}
