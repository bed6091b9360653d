//! Bits for positions of a word, 64 in a number.

ghost use Rattle.std.specs.Prelude.{◌≡◌, ◌↔◌, ◌+◌, ◌-◌, ◌*◌, ◌/◌, ◌<◌, ◌≤◌, ℕ, IfOk, IfSome, MatchOption};
ghost use Rattle.std.specs.Prelude.{length, slice_index, vec_len};
ghost use Rattle.cell_tables.specs.Bits.{IsBitOf};
ghost use Rattle.cell_demands.specs.PlaceBits.{HasBit, HaveBitsToo, IsFirstAhead, IsLastBehind, IsAhead, IsBehind, IsLastBit};

use cell_tables::WORD;
use std::alloc::{AllocError, Global};

/// Bits for so many positions, none of which is set.
pub fn clear_bits(alloc: Global, positions: usize) -> Result<Vec<u64>, AllocError>
    ensures as_many { IfOk result (λ bits. vec_len bits ≡ positions / 64 + 1) }
    ensures clear { IfOk result (λ bits. (place : ℕ) → HasBit bits.items place → ⊥) }
{
    vec![in alloc; 0; positions / WORD as usize + 1]
}

/// Leaves no bit set.
pub fn clear(bits: &mut [u64])
    ensures as_many { length bits.new ≡ length bits.old }
    ensures clear { (place : ℕ) → HasBit bits.new place → ⊥ }
{
    bits.fill(0);
}

/// The number that has the bit of a position; 0 where there is none.
#[inline(always)]
fn word_at(bits: &[u64], place: u16) -> u64
    ensures { result ≡ slice_index bits.now (place / 64) }
{
    bits.get((place / WORD) as usize).copied().unwrap_or(0)
}

/// Sets the bit of a position.
#[inline(always)]
pub fn set_bit(bits: &mut [u64], place: u16)
    requires { place / 64 < length bits.old }
    ensures { HaveBitsToo bits.old bits.new (λ other. other ≡ place) }
{
    bits[(place / WORD) as usize] |= 1 << (place % WORD);
}

/// Sets the bits of the positions from `first` on and before `past`, which are among the 64 of one number.
#[inline(always)]
fn set_within(bits: &mut [u64], first: u16, past: u16)
    requires some { first < past }
    requires one { (past - 1) / 64 ≡ first / 64 }
    requires there { first / 64 < length bits.old }
    ensures { HaveBitsToo bits.old bits.new (λ other. (first ≤ other) × (other < past)) }
{
    let ahead = u64::MAX << (first % WORD);
    let behind = u64::MAX >> (WORD - 1 - (past - 1) % WORD);
    bits[(first / WORD) as usize] |= ahead & behind;
}

/// Sets the bits of the positions from `first` on and before `past`.
pub fn set_between(bits: &mut [u64], first: u16, past: u16)
    requires order { first ≤ past }
    requires few { past ≤ 4096 }
    requires there { past ≤ 64 * length bits.old }
    ensures { HaveBitsToo bits.old bits.new (λ other. (first ≤ other) × (other < past)) }
{
    let mut place = first;
    while place < past {
        let next = past.min((place / WORD + 1) * WORD);
        set_within(bits, place, next);
        place = next;
    }
}

/// The first position from `place` on, of the 64 of a number, whose bit is set.
#[inline(always)]
fn first_ahead(word: u64, place: u16) -> Option<u16>
    requires { place < 4096 }
    ensures { MatchOption result ((other : ℕ) → IsAhead word place other → ⊥) (IsFirstAhead word place) }
{
    let ahead = word & (u64::MAX << (place % WORD));
    if ahead == 0 {
        return None;
    }
    Some(place / WORD * WORD + ahead.trailing_zeros() as u16)
}

/// The last position up to `place`, of the 64 of a number, whose bit is set.
#[inline(always)]
fn last_behind(word: u64, place: u16) -> Option<u16>
    requires { place < 4096 }
    ensures { MatchOption result ((other : ℕ) → IsBehind word place other → ⊥) (IsLastBehind word place) }
{
    let behind = word & (u64::MAX >> (WORD - 1 - place % WORD));
    if behind == 0 {
        return None;
    }
    Some(place / WORD * WORD + (WORD - 1 - behind.leading_zeros() as u16))
}

/// The first position from `first` on and before `past` whose bit is not set; `past` where there is none.
pub fn first_clear(bits: &[u64], first: u16, past: u16) -> u16
    requires order { first ≤ past }
    requires few { past ≤ 4096 }
    ensures from_first { first ≤ result }
    ensures within { result ≤ past }
    ensures clear { result < past → HasBit bits.now result → ⊥ }
    ensures set_before { (place : ℕ) → first ≤ place → place < result → HasBit bits.now place }
{
    let mut place = first;
    while place < past {
        if let Some(found) = first_ahead(!word_at(bits, place), place) {
            return past.min(found);
        }
        place = (place / WORD + 1) * WORD;
    }
    past
}

/// The first position from `first` on and before `past` whose bit is set; `past` where there is none.
pub fn first_set(bits: &[u64], first: u16, past: u16) -> u16
    requires order { first ≤ past }
    requires few { past ≤ 4096 }
    ensures from_first { first ≤ result }
    ensures within { result ≤ past }
    ensures set { result < past → HasBit bits.now result }
    ensures none_before { (place : ℕ) → first ≤ place → place < result → HasBit bits.now place → ⊥ }
{
    let mut place = first;
    while place < past {
        if let Some(found) = first_ahead(word_at(bits, place), place) {
            return past.min(found);
        }
        place = (place / WORD + 1) * WORD;
    }
    past
}

/// The first position from `first` on and before `past` whose bit is set among both; `past` where there is none.
pub fn first_in_both(bits: &[u64], others: &[u64], first: u16, past: u16) -> u16
    requires order { first ≤ past }
    requires few { past ≤ 4096 }
    ensures from_first { first ≤ result }
    ensures within { result ≤ past }
    ensures set { result < past → HasBit bits.now result }
    ensures none_before { (place : ℕ) → first ≤ place → place < result → HasBit bits.now place
        → HasBit others.now place → ⊥ }
{
    let mut place = first;
    while place < past {
        if let Some(found) = first_ahead(word_at(bits, place) & word_at(others, place), place) {
            return past.min(found);
        }
        place = (place / WORD + 1) * WORD;
    }
    past
}

/// The last position from `first` on and before `past` whose bit is set.
pub fn last_set(bits: &[u64], first: u16, past: u16) -> Option<u16>
    requires few { past ≤ 4096 }
    ensures { MatchOption result
        ((place : ℕ) → IsBitOf bits.now first past place → ⊥) (IsLastBit bits.now first past) }
{
    let mut behind = past;
    while first < behind {
        let place = behind - 1;
        if let Some(found) = last_behind(word_at(bits, place), place) {
            return if found < first { None } else { Some(found) };
        }
        behind = place / WORD * WORD;
    }
    None
}
