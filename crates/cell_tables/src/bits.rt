//! Bits for spans of a word, 64 far ends in a number.

ghost use Rattle.std.specs.Prelude.{◌≡◌, ◌↔◌, ℕ, ◌+◌, ◌-◌, ◌*◌, ◌/◌, ◌^◌, ◌<◌, ◌≤◌, IfOk, IfSome, IsSome, IsTrue, MatchOption, None, length};
ghost use Rattle.std.specs.Int.{bit_at};
ghost use Rattle.std.specs.List.{Contains};
ghost use Rattle.adp_model.specs.Cells.{IsCounted};
ghost use Rattle.cell_layouts.specs.Layout.{cell_at};
ghost use Rattle.cell_tables.specs.Spans.{value_at};
ghost use Rattle.cell_tables.specs.Bits.{AreSetToo, IsBitIn, IsBitOf, IsFirstMissing, IsSet};
ghost use Rattle.cell_tables.specs.WordBits.{AreBitsSet, IsBitOfFar};

use crate::grid::Grid;
use cell_layouts::{Layout, Side, WORD};
use std::alloc::{AllocError, Global};

/// The grid that has a number, 0, for each 64 far ends among which that of a counted cell lies. Fails for want of
/// memory alone.
pub fn word_grid(alloc: Global, layout: &Layout<'_>, side: Side) -> Result<Grid<u64>, AllocError>
    ensures there { IfOk result (λ grid. (rule near far : ℕ)
        → IsCounted layout.now.grammar (length layout.now.word) (cell_at side rule near far)
        → IsSome (value_at grid rule near (far / 64))) }
    ensures none { IfOk result (λ grid. (rule near far : ℕ) → IsSet grid rule near far → ⊥) }
{
    Grid::new(alloc, layout.positions(), layout.words(side), 0)
}

impl Grid<u64> {
    /// Whether the bit of a span is there and set. Takes constant time and no memory.
    pub fn is_set(&self, rule: u32, near: u16, far: u16) -> bool
        ensures { IsTrue result ↔ IsSet self.now rule near far }
    {
        match self.get(rule, near, far / WORD) {
            Some(word) => word >> (far % WORD) & 1 == 1,
            None => false,
        }
    }

    /// Sets bits of the 64 far ends from `64 * number` on. Takes constant time and no memory.
    #[inline(always)]
    pub fn set_word(&mut self, rule: u32, near: u16, number: u16, word: u64)
        requires { IsSome (value_at self.old rule near number) }
        ensures { AreSetToo self.old self.new rule near (IsBitIn word number) }
    {
        let old = self.get(rule, near, number).unwrap_or(0);
        self.set(rule, near, number, old | word);
    }

    /// Sets the bit of a span. Takes constant time and no memory.
    pub fn set_bit(&mut self, rule: u32, near: u16, far: u16)
        requires { IsSome (value_at self.old rule near (far / 64)) }
        ensures { AreSetToo self.old self.new rule near (λ other. other ≡ far) }
    {
        self.set_word(rule, near, far / WORD, 1 << (far % WORD));
    }

    /// Sets the bits of the spans with this near end whose far ends lie from `first` on and before `past`, where `bits`
    /// are set: these are for the far ends from 0 on, 64 in a number. Takes no memory.
    #[inline(always)]
    pub fn set_bits_of(&mut self, rule: u32, near: u16, first: u16, past: u16, bits: &[u64])
        requires first { first < past → IsSome (value_at self.old rule near (first / 64)) }
        requires last { first < past → IsSome (value_at self.old rule near ((past - 1) / 64)) }
        requires bits { past ≤ 64 * length bits.now }
        ensures { AreSetToo self.old self.new rule near (IsBitOf bits.now first past) }
    {
        if first >= past {
            return;
        }
        if let Some(block) = self.block(rule, near) {
            let start = block.place as usize + (first / WORD - block.first) as usize;
            set_words(&mut self.values, start, first, past, bits);
        }
    }

    /// The first far end from `first` on and before `past`, of those whose bits are set, whose span with this near end
    /// has no bit or one that is not set: `bits` are for the far ends from 0 on, 64 in a number. Takes no memory.
    #[inline]
    pub(crate) fn first_missing(
        &self,
        rule: u32,
        near: u16,
        first: u16,
        past: u16,
        bits: &[u64],
    ) -> Option<u16>
        requires bits { past ≤ 64 * length bits.now }
        ensures { MatchOption result
            ((far : ℕ) → IsBitOf bits.now first past far → IsSet self.now rule near far)
            (IsFirstMissing bits.now first past (λ far. IsSet self.now rule near far)) }
    {
        if first >= past {
            return None;
        }
        for number in first / WORD..(past - 1) / WORD + 1 {
            let set = self.get(rule, near, number).unwrap_or(0);
            let missing = word_between(bits, number as usize, first, past) & !set;
            if let Some(far) = first_bit(missing, number) {
                return Some(far);
            }
        }
        None
    }
}

/// Sets the bits of these far ends, each moved by `shift`: the numbers of the far ends from `64 * low` on stand from
/// `start` on.
pub fn set_each(words: &mut [u64], start: usize, low: u16, fars: &[u16], shift: u16)
    requires start { start < 2 ^ 32 }
    requires short { (far : ℕ) → Contains fars.now far → far + shift < 2 ^ 16 }
    requires low { (far : ℕ) → Contains fars.now far → low ≤ (far + shift) / 64 }
    requires within { (far : ℕ) → Contains fars.now far → start + ((far + shift) / 64 - low) < length words.old }
    ensures { AreBitsSet words.old words.new (IsBitOfFar start low
        (λ place. (far : ℕ) × Contains fars.now far × (place ≡ far + shift))) }
{
    for far in fars {
        let place = *far + shift;
        words[start + (place / WORD - low) as usize] |= 1 << (place % WORD);
    }
}

/// Ones at a place of a number and behind it.
fn ones_from(place: u16) -> u64
    requires { place < 64 }
    ensures { (k : ℕ) → k < 64 → (bit_at result k ≡ 1) ↔ (place ≤ k) }
{
    u64::MAX << place
}

/// Ones at a place of a number and before it.
fn ones_to(place: u16) -> u64
    requires { place < 64 }
    ensures { (k : ℕ) → k < 64 → (bit_at result k ≡ 1) ↔ (k ≤ place) }
{
    u64::MAX >> (WORD - 1 - place)
}

/// The bits of the 64 far ends from `64 * number` on that lie from `first` on and before `past`.
fn word_between(bits: &[u64], number: usize, first: u16, past: u16) -> u64
    requires some { first < past }
    requires low { first / 64 ≤ number }
    requires high { number ≤ (past - 1) / 64 }
    requires bits { past ≤ 64 * length bits.now }
    ensures { (k : ℕ) → k < 64 → (bit_at result k ≡ 1) ↔ IsBitOf bits.now first past (64 * number + k) }
{
    let mut word = bits[number];
    if number == (first / WORD) as usize {
        word &= ones_from(first % WORD);
    }
    if number == ((past - 1) / WORD) as usize {
        word &= ones_to((past - 1) % WORD);
    }
    word
}

/// Sets the bits of the far ends from `first` on and before `past` that are set among `bits`: the number of `first` is
/// that at `start`.
#[inline(always)]
fn set_words(words: &mut [u64], start: usize, first: u16, past: u16, bits: &[u64])
    requires start { start < 2 ^ 33 }
    requires some { first < past }
    requires within { start + ((past - 1) / 64 - first / 64) < length words.old }
    requires bits { past ≤ 64 * length bits.now }
    ensures { AreBitsSet words.old words.new (IsBitOfFar start (first / 64) (IsBitOf bits.now first past)) }
{
    let (low, high) = ((first / WORD) as usize, ((past - 1) / WORD) as usize);
    words[start] |= word_between(bits, low, first, past);
    for number in low + 1..high {
        words[start + (number - low)] |= bits[number];
    }
    if low < high {
        words[start + (high - low)] |= word_between(bits, high, first, past);
    }
}

/// The last of the 64 places of a number whose bit is set.
pub fn last_bit(bits: u64, number: u16) -> Option<u16>
    requires { number < 2 ^ 10 }
    ensures none { result ≡ None → (place : ℕ) → IsBitIn bits number place → ⊥ }
    ensures set { IfSome result (IsBitIn bits number) }
    ensures last { IfSome result (λ last. (place : ℕ) → IsBitIn bits number place → place ≤ last) }
{
    if bits == 0 {
        return None;
    }
    Some(number * WORD + (WORD - 1 - bits.leading_zeros() as u16))
}

/// The first of the 64 places of a number whose bit is set.
pub fn first_bit(bits: u64, number: u16) -> Option<u16>
    requires { number < 2 ^ 10 }
    ensures none { result ≡ None → (place : ℕ) → IsBitIn bits number place → ⊥ }
    ensures set { IfSome result (IsBitIn bits number) }
    ensures first { IfSome result (λ first. (place : ℕ) → IsBitIn bits number place → first ≤ place) }
{
    if bits == 0 {
        return None;
    }
    Some(number * WORD + bits.trailing_zeros() as u16)
}
