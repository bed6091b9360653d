//! Where tokens of fixed length match.

ghost use Rattle.std.specs.Prelude.{◌≡◌, ◌↔◌, ℕ, ◌+◌, ◌^◌, ◌<◌, ◌≤◌, IfOk, IfSome, IsTrue, List, length};
ghost use Rattle.std.specs.Bool.{OnTrue};
ghost use Rattle.std.specs.List.{AllAdjacentBelow, AllByRecursion, Contains};
ghost use Rattle.adp_model.specs.declared.grammar.Arg.{Arg as Argument};
ghost use Rattle.adp_model.specs.PosedProblem.{IsSpan, PosedProblem};
ghost use Rattle.adp_model.specs.ProblemFields.{most_letters};
ghost use Rattle.adp_model.specs.WellFormed.{IsKnown};
ghost use Rattle.viable_splits.specs.Placing.{Cover};
ghost use Rattle.split_lines.specs.Kept.{BeginWith};
ghost use Rattle.split_lines.specs.Laid.{IsFixed};
ghost use Rattle.split_lines.specs.Flags.{AreBits};
ghost use Rattle.score_numbers.specs.Limits.{AreLimited};
ghost use Rattle.split_lines.specs.Matching.{fixed_length, HaveLetters, AreCounts, AreLimitsOf, AreMatches, MatchNowhere};

use crate::classes::ClassTables;
use crate::spans::token_end;
use crate::tokens::{first_letter, fixed_length, occurs, stands};
use adp_model::{Arg, MOST_LETTERS, Problem};
use cell_tables::{WORD, set_each, set_places};
use score_numbers::{NO_LIMIT, SHORT_MARK};
use std::alloc::{AllocError, Global};

/// The positions of a word at which some tokens of fixed length (literals and letters) match one behind the other, in
/// order, and for each position how many of them come before it.
#[derive(Drop)]
pub struct Matches {
    /// How many letters the tokens have, or 4,001, where they have more than any word.
    pub letters: u16,
    pub positions: Vec<u16>,
    pub before: Vec<u16>,
    /// The limit of a sum of 16 bits at each position of the word: none where they match, else the mark.
    pub limits: Vec<i16>,
    /// Bits of the positions where they match, 64 positions in a number.
    pub here: Vec<u64>,
    /// Bits of the positions behind their letters.
    pub behind: Vec<u64>,
}

/// How many letters tokens of fixed length have, or 4,001, where they have more than any word.
pub fn fixed_letters(tokens: &[Arg]) -> usize
    requires { AllByRecursion IsFixed tokens.now }
    ensures letters { (p : PosedProblem) → length p.word ≤ most_letters → HaveLetters p tokens.now result }
    ensures short { result ≤ 4001 }
{
    if tokens.is_empty() {
        return 0;
    }
    let most = MOST_LETTERS + 1;
    let first = fixed_length(&tokens[0]).min(most);
    most.min(first + fixed_letters(&tokens[1..]))
}

/// Whether tokens of fixed length match the letters from `from` to `to`.
pub fn covers(tables: &ClassTables<'_>, tokens: &[Arg], from: usize, to: usize) -> bool
    requires known { AllByRecursion (IsKnown tables.now.grammar) tokens.now }
    requires fixed { AllByRecursion IsFixed tokens.now }
    requires span { IsSpan tables.now.word from to }
    requires short { to ≤ 4000 }
    ensures { IsTrue result ↔ Cover tables.now tokens.now from to }
{
    if tokens.is_empty() {
        return from == to;
    }
    match token_end(tables, &tokens[0], from, to) {
        Some(end) => covers(tables, &tokens[1..], end, to),
        None => false,
    }
}

/// The same, where the tokens begin with this letter, if one is known: in most cases it tells that they don't match.
#[inline(always)]
fn cover_there(
    tables: &ClassTables<'_>,
    tokens: &[Arg],
    first: Option<u8>,
    from: usize,
    to: usize,
) -> bool
    requires known { AllByRecursion (IsKnown tables.now.grammar) tokens.now }
    requires fixed { AllByRecursion IsFixed tokens.now }
    requires first { IfSome first (BeginWith tokens.now) }
    requires span { IsSpan tables.now.word from to }
    requires short { to ≤ 4000 }
    ensures { IsTrue result ↔ Cover tables.now tokens.now from to }
{
    if let Some(letter) = first {
        if !stands(tables.problem().letters(), from, letter) {
            return false;
        }
    }
    covers(tables, tokens, from, to)
}

/// The limit of a sum at each of so many positions: none where it is one of these, else the mark. Fails for want of
/// memory alone.
fn limits_of(alloc: Global, count: usize, positions: &[u16]) -> Result<Vec<i16>, AllocError>
    requires { (position : ℕ) → Contains positions.now position → position < count }
    ensures { IfOk result (λ limits. AreLimitsOf count positions.now limits.items) }
{
    let mut limits = vec![in alloc; SHORT_MARK; count]?;
    set_places(&mut limits, positions, 0, 0, NO_LIMIT);
    Ok(limits)
}

/// Bits for so many positions, of which those of these positions are set, each moved by `shift`. Fails for want of
/// memory alone.
fn bits_of(
    alloc: Global,
    count: usize,
    positions: &[u16],
    shift: u16,
) -> Result<Vec<u64>, AllocError>
    requires count { count ≤ 2 ^ 16 }
    requires within { (position : ℕ) → Contains positions.now position → position + shift < count }
    ensures { IfOk result (λ bits. AreBits positions.now shift bits.items) }
{
    let mut bits = vec![in alloc; 0; count / WORD as usize + 1]?;
    set_each(&mut bits, 0, 0, positions, shift);
    Ok(bits)
}

/// Whether tokens match nowhere in the word. Of tokens that don't begin with a literal it isn't told.
pub fn match_nowhere(tables: &ClassTables<'_>, tokens: &[Arg]) -> bool
    requires known { AllByRecursion (IsKnown tables.now.grammar) tokens.now }
    requires fixed { AllByRecursion IsFixed tokens.now }
    ensures { OnTrue result (MatchNowhere tables.now tokens.now) }
{
    let Some(letter) = first_letter(tokens) else {
        return false;
    };
    let problem = tables.problem();
    let word = problem.letters();
    if !occurs(word, letter) {
        return true;
    }
    problem.admissible();
    let width = fixed_letters(tokens);
    for position in 0..(word.len() + 1).saturating_sub(width) {
        if cover_there(tables, tokens, Some(letter), position, position + width) {
            return false;
        }
    }
    true
}

impl Matches {
    /// Where tokens match that match nowhere.
    pub fn nowhere(alloc: Global, problem: &Problem<'_>) -> Result<Matches, AllocError>
        ensures { IfOk result (λ matches. (tokens : List Argument) → MatchNowhere problem.now tokens
            → AreMatches problem.now tokens matches) }
    {
        problem.admissible();
        let count = problem.letters().len() + 1;
        Ok(Matches {
            letters: 0,
            positions: Vec::new(alloc),
            before: vec![in alloc; 0; count + 1]?,
            limits: limits_of(alloc, count, &[])?,
            here: bits_of(alloc, count, &[], 0)?,
            behind: bits_of(alloc, count, &[], 0)?,
        })
    }

    /// Where the tokens match. Memory is four bytes and two bits for each position of the word, and two bytes more
    /// where they match.
    pub fn new(
        alloc: Global,
        tables: &ClassTables<'_>,
        tokens: &[Arg],
    ) -> Result<Matches, AllocError>
        requires known { AllByRecursion (IsKnown tables.now.grammar) tokens.now }
        requires fixed { AllByRecursion IsFixed tokens.now }
        ensures { IfOk result (AreMatches tables.now tokens.now) }
    {
        let problem = tables.problem();
        let len = problem.letters().len();
        let width = fixed_letters(tokens);
        let first = first_letter(tokens);
        let mut positions = Vec::new(alloc);
        let mut before = Vec::with_capacity(alloc, len + 2)?;
        for position in 0..len + 1 {
            before.push(positions.len() as u16)?;
            let end = position + width;
            if end <= len && cover_there(tables, tokens, first, position, end) {
                positions.push(position as u16)?;
            }
        }
        before.push(positions.len() as u16)?;
        let letters = width as u16;
        let limits = limits_of(alloc, len + 1, &positions)?;
        let here = bits_of(alloc, len + 1, &positions, 0)?;
        let behind = bits_of(alloc, len + 1, &positions, letters)?;
        Ok(Matches {
            letters,
            positions,
            before,
            limits,
            here,
            behind,
        })
    }

    /// Those of the positions that lie from `first` on and before `past`. Takes constant time and no memory.
    pub fn between(&self, first: u16, past: u16) -> &[u16]
        requires in_order { first ≤ past }
        requires within { past < length self.now.before.items }
        requires counts { AreCounts self.now.positions.items self.now.before.items }
        requires rising { AllAdjacentBelow (λ (a b : ℕ). a < b) self.now.positions.items
            (length self.now.positions.items) }
        ensures exact { (position : ℕ) → Contains result.now position
            ↔ (Contains self.now.positions.items position × (first ≤ position) × (position < past)) }
        ensures rising { AllAdjacentBelow (λ (a b : ℕ). a < b) result.now (length result.now) }
    {
        let start = self.before[first as usize] as usize;
        let end = self.before[past as usize] as usize;
        &self.positions[start..end]
    }

    /// The limit of a sum at each position from the first of these to the last one: none where it is one of these, else
    /// the mark, where these are all of the positions that lie there. Takes constant time and no memory.
    pub fn limits_among(&self, positions: &[u16]) -> &[i16]
        requires some { (position : ℕ) → Contains positions.now position → Contains self.now.positions.items position }
        requires whole { (first position last : ℕ) → Contains positions.now first → Contains positions.now last
            → first ≤ position → position ≤ last → Contains self.now.positions.items position
            → Contains positions.now position }
        requires rising { AllAdjacentBelow (λ (a b : ℕ). a < b) positions.now (length positions.now) }
        requires limits { AreLimitsOf (length self.now.limits.items) self.now.positions.items self.now.limits.items }
        ensures { AreLimited positions.now result.now }
    {
        match (positions.first(), positions.last()) {
            (Some(first), Some(last)) => &self.limits[*first as usize..*last as usize + 1],
            _ => &[],
        }
    }
}
