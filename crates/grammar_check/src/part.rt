ghost use Rattle.std.specs.Prelude.{◌≡◌, ℕ, ◌*◌, ◌^◌, ◌-◌, ◌<◌, [], ◌∷◌, min, true, length, slice_index_or, IfOk};
ghost use Rattle.adp_model.specs.LimitFaults.{told};
ghost use Rattle.grammar_check.specs.Plans.{worth_of, IsReadable, ReadsRight, is_fixed, fixed_length, fixed_worth, lows, open_parts};
ghost use Rattle.grammar_check.specs.LetterSteps.{are_letters, letter_of};
ghost use Rattle.grammar_check.specs.TokenNumbers.{letters_worth};

use crate::cut::{cut_product, cut_sum};
use crate::table::Table;
use std::alloc::{AllocError, Global};

/// What an argument adds to a bound, by its length.
#[derive(Clone, Copy)]
pub enum Worth {
    /// So many times the rule's bound at the length.
    OfRule { rule: u32, factor: u64 },
    /// So many times the length, times the weight.
    OfLetters { weight: u64, factor: u64 },
}

/// An argument of an alternative: what it adds, its least length, and how many letters more it may have.
#[derive(Clone, Copy)]
pub struct Part {
    pub worth: Worth,
    pub low: usize,
    pub room: usize,
}

impl Worth {
    /// What an argument of this length adds, cut, where the table has the rules' bounds.
    pub fn at(self, bounds: &Table, len: usize) -> u64
        requires readable { IsReadable bounds.now.rows self }
        requires within { len < bounds.now.width }
        ensures { (bound : ℕ → ℕ → ℕ) → ReadsRight bound bounds.now self len → result ≡ told (worth_of bound self len) }
    {
        match self {
            Worth::OfRule { rule, factor } => cut_product(factor, bounds.get(rule as usize, len)),
            Worth::OfLetters { weight, factor } => {
                cut_product(factor, cut_product(weight, len as u64))
            }
        }
    }

    /// Whether the two add the same.
    fn is_same(self, other: Worth) -> bool
        ensures { result ≡ true → self ≡ other }
    {
        match (self, other) {
            (
                Worth::OfRule { rule, factor },
                Worth::OfRule {
                    rule: other_rule,
                    factor: other_factor,
                },
            ) => rule == other_rule && factor == other_factor,
            (
                Worth::OfLetters { weight, factor },
                Worth::OfLetters {
                    weight: other_weight,
                    factor: other_factor,
                },
            ) => weight == other_weight && factor == other_factor,
            _ => false,
        }
    }

    /// What a letter adds, cut; 0 for a rule.
    pub fn letter(self) -> u64
        ensures { result ≡ letter_of self }
    {
        match self {
            Worth::OfRule { .. } => 0,
            Worth::OfLetters { weight, factor } => cut_product(factor, weight),
        }
    }

    /// How much a letter adds; nothing for a rule.
    pub fn letter_weight(self) -> u64
        ensures { (len : ℕ) → letters_worth self len ≡ result * len }
    {
        match self {
            Worth::OfRule { .. } => 0,
            Worth::OfLetters { weight, .. } => weight,
        }
    }
}

impl Part {
    /// Whether it is a token of one length.
    fn is_fixed(self) -> bool
        ensures { result ≡ is_fixed self }
    {
        match self.worth {
            Worth::OfRule { .. } => false,
            Worth::OfLetters { .. } => self.room == 0,
        }
    }

    /// What it adds, cut, where it is a token of one length; else 0.
    fn fixed_worth(self) -> u64
        ensures { result ≡ told (fixed_worth (self ∷ [])) }
    {
        match self.worth {
            Worth::OfLetters { weight, factor } if self.room == 0 => {
                cut_product(factor, cut_product(weight, self.low as u64))
            }
            _ => 0,
        }
    }

    /// Whether the two are the same.
    pub fn is_same(self, other: Part) -> bool
        ensures { result ≡ true → self ≡ other }
    {
        self.low == other.low && self.room == other.room && self.worth.is_same(other.worth)
    }
}

/// The least length of all parts together, or the greatest number that there is.
pub fn lows(parts: &[Part]) -> usize
    ensures { result ≡ min (lows parts.now) (2 ^ 64 - 1) }
{
    let mut total: usize = 0;
    let mut rest = parts;
    while let Some((first, others)) = rest.split_first() {
        total = total.saturating_add(first.low);
        rest = others;
    }
    total
}

/// The letters of the tokens of one length, or the greatest number that there is.
pub fn fixed_length(parts: &[Part]) -> usize
    ensures { result ≡ min (fixed_length parts.now) (2 ^ 64 - 1) }
{
    let mut total: usize = 0;
    let mut rest = parts;
    while let Some((first, others)) = rest.split_first() {
        if first.is_fixed() {
            total = total.saturating_add(first.low);
        }
        rest = others;
    }
    total
}

/// What the tokens of one length add, cut.
pub fn fixed_worth(parts: &[Part]) -> u64
    ensures { result ≡ told (fixed_worth parts.now) }
{
    let mut total = 0;
    let mut rest = parts;
    while let Some((first, others)) = rest.split_first() {
        total = cut_sum(total, first.fixed_worth());
        rest = others;
    }
    total
}

/// The parts other than tokens of one length.
pub fn open_parts(alloc: Global, parts: &[Part]) -> Result<Vec<Part>, AllocError>
    ensures { IfOk result (λ others. others.items ≡ open_parts parts.now) }
{
    let mut kept = Vec::new(alloc);
    let mut rest = parts;
    while let Some((first, others)) = rest.split_first() {
        if !first.is_fixed() {
            kept.push(*first)?;
        }
        rest = others;
    }
    Ok(kept)
}

/// Whether all of them add by the number of letters.
pub fn are_letters(parts: &[Part]) -> bool
    ensures { result ≡ are_letters parts.now }
{
    let mut rest = parts;
    while let Some((first, others)) = rest.split_first() {
        let Worth::OfLetters { .. } = first.worth else {
            return false;
        };
        rest = others;
    }
    true
}

/// Whether the parts have this one.
pub fn has(parts: &[Part], wanted: Part) -> bool
    ensures { result ≡ true → (place : ℕ) × (place < length parts.now)
        × (slice_index_or parts.now place wanted ≡ wanted) }
{
    for part in parts {
        if part.is_same(wanted) {
            return true;
        }
    }
    false
}

/// Whether the two lists are the same.
pub fn is_same_list(parts: &[Part], others: &[Part]) -> bool
    ensures { result ≡ true → parts.now ≡ others.now }
{
    let mut rest = parts;
    let mut other_rest = others;
    while let Some((first, behind)) = rest.split_first() {
        match other_rest.split_first() {
            Some((other, other_behind)) if first.is_same(*other) => {
                rest = behind;
                other_rest = other_behind;
            }
            _ => return false,
        }
    }
    other_rest.is_empty()
}
