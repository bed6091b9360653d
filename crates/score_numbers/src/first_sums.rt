//! The first of the positions of a boundary at which numbers before and behind it have a sum that is given.

ghost use Rattle.std.specs.Prelude.{◌≡◌, ◌↔◌, ℕ, ◌+◌, ◌<◌, ◌≤◌, ◌+ℤ◌, ◌<ℤ◌, IfSome, IsTrue, MatchOption, length, map, slice_index_or};
ghost use Rattle.std.specs.List.{AllAdjacentBelow};
ghost use Rattle.score_numbers.specs.Entries.{no_candidate};
ghost use Rattle.score_numbers.specs.FirstPositions.{IsFirstOf};
ghost use Rattle.score_numbers.specs.Limits.{AreLimited, AreLimits, no_limit};
ghost use Rattle.score_numbers.specs.Packing.{AreProper, IsProper, long, medium, short};
ghost use Rattle.score_numbers.specs.Sums.{AreLowSums, HasScaledSum, HasSum, HaveNumbers, IsUnlimitedSum, number_at};

use crate::packing::{NO_CANDIDATE, NO_LIMIT, SHORT_MARK};
use crate::sums::{Positions, Scales, are_dense, greatest_aligned, greatest_limited_short};
use crate::width::Number;

/// So many numbers are passed over at once where none of their sums is as great as the one that is sought.
const BLOCK: usize = 32;

/// Whether sums are less than this one, of which the greatest is known.
fn are_less(greatest: Option<i64>, sum: i64) -> bool
    ensures { IsTrue result → IfSome greatest (λ greatest. greatest <ℤ sum) }
{
    match greatest {
        Some(greatest) => greatest < sum,
        None => true,
    }
}

/// How many numbers side by side are passed over, in whole blocks, since none of their sums is this one.
fn passed_aligned<N: Number>(first: &[N], second: &[N], sum: i64) -> usize
    requires first { AreProper N.width (map N.value first.now) }
    requires second { AreProper N.width (map N.value second.now) }
    requires as_many { length first.now ≡ length second.now }
    ensures within { result ≤ length first.now }
    ensures none { (k : ℕ) → k < result → HasSum N.width (map N.value first.now) (map N.value second.now) k sum → ⊥ }
{
    let mut passed = 0;
    while first.len() - passed >= BLOCK {
        let end = passed + BLOCK;
        let greatest = greatest_aligned(&first[passed..end], &second[passed..end]);
        if !are_less(greatest, sum) {
            return passed;
        }
        passed = end;
    }
    passed
}

/// How many numbers of 16 bits side by side are passed over, in whole blocks, since none of their sums, where there is
/// no limit, is this one.
fn passed_limited(first: &[i16], second: &[i16], limits: &[i16], sum: i64) -> usize
    requires first { AreProper short first.now }
    requires second { AreProper short second.now }
    requires limits { AreLimits limits.now }
    requires as_many { length first.now ≡ length limits.now }
    requires as_many_behind { length second.now ≡ length limits.now }
    ensures within { result ≤ length limits.now }
    ensures none { (k : ℕ) → k < result → IsUnlimitedSum limits.now first.now second.now k sum → ⊥ }
{
    let mut passed = 0;
    while limits.len() - passed >= BLOCK {
        let end = passed + BLOCK;
        let greatest = greatest_limited_short(
            &first[passed..end],
            &second[passed..end],
            &limits[passed..end],
        );
        if !are_less(greatest, sum) {
            return passed;
        }
        passed = end;
    }
    passed
}

/// The first position, of those from number `passed` on, at which numbers, each times its factor, have this sum.
#[inline(always)]
fn first_scaled<N: Number>(
    first: &[N],
    second: &[N],
    mark: i64,
    positions: Positions<'_>,
    passed: usize,
    scales: Scales,
    sum: i64,
) -> Option<u16>
    requires have { HaveNumbers positions (map N.value first.now) (map N.value second.now) }
    requires rising { AllAdjacentBelow (λ (a b : ℕ). a < b) positions.at.now (length positions.at.now) }
    requires low { AreLowSums mark scales positions (map N.value first.now) (map N.value second.now) }
    requires passed { (k : ℕ) → k < passed → HasScaledSum mark scales (map N.value first.now) (map N.value second.now)
        (number_at positions (slice_index_or positions.at.now k 0)) sum → ⊥ }
    ensures { IsFirstOf positions.entry.at.now (λ position. HasScaledSum mark scales (map N.value first.now)
        (map N.value second.now) (number_at positions.entry position) sum) result }
{
    for index in passed..positions.at.len() {
        let position = positions.at[index];
        let number = position as usize - positions.first as usize;
        let (before, behind) = (first[number].wide(), second[number].wide());
        if scales.make(mark, before, behind, sum) {
            return Some(position);
        }
    }
    None
}

/// The first position at which numbers before and behind it, each times its factor, have this sum.
fn first_sum<N: Number>(
    first: &[N],
    second: &[N],
    positions: Positions<'_>,
    scales: Scales,
    sum: i64,
) -> Option<u16>
    requires first { AreProper N.width (map N.value first.now) }
    requires second { AreProper N.width (map N.value second.now) }
    requires have { HaveNumbers positions (map N.value first.now) (map N.value second.now) }
    requires rising { AllAdjacentBelow (λ (a b : ℕ). a < b) positions.at.now (length positions.at.now) }
    requires low { AreLowSums N.width.mark scales positions (map N.value first.now) (map N.value second.now) }
    ensures { IsFirstOf positions.entry.at.now (λ position. HasScaledSum N.width.mark scales (map N.value first.now)
        (map N.value second.now) (number_at positions.entry position) sum) result }
{
    let (mark, count) = (N::mark().wide(), positions.at.len());
    if !scales.are_plain() || first.len() != count || second.len() != count {
        return first_scaled(first, second, mark, positions, 0, scales, sum);
    }
    let passed = passed_aligned(first, second, sum);
    first_scaled(first, second, mark, positions, passed, scales, sum)
}

/// Whether there is no limit, neither of two numbers of 16 bits is the mark, and this is their sum.
fn make(limit: i16, first: i16, second: i16, sum: i64) -> bool
    requires first { IsProper short first }
    requires second { IsProper short second }
    ensures { IsTrue result ↔ ((limit ≡ no_limit) × (first ≡ short.mark → ⊥) × (second ≡ short.mark → ⊥)
        × (sum ≡ (first +ℤ second))) }
{
    if limit != NO_LIMIT || first == SHORT_MARK || second == SHORT_MARK {
        return false;
    }
    i64::from(first + second) == sum
}

/// The first of numbers of 16 bits side by side, of those from `passed` on, that have this sum where there is no limit.
fn first_limited(
    first: &[i16],
    second: &[i16],
    limits: &[i16],
    passed: usize,
    sum: i64,
) -> Option<usize>
    requires first { AreProper short first.now }
    requires second { AreProper short second.now }
    requires limits { AreLimits limits.now }
    requires as_many { length first.now ≡ length limits.now }
    requires as_many_behind { length second.now ≡ length limits.now }
    requires passed { (k : ℕ) → k < passed → IsUnlimitedSum limits.now first.now second.now k sum → ⊥ }
    ensures { MatchOption result ((k : ℕ) → IsUnlimitedSum limits.now first.now second.now k sum → ⊥)
        (λ k. IsUnlimitedSum limits.now first.now second.now k sum
        × ((other : ℕ) → other < k → IsUnlimitedSum limits.now first.now second.now other sum → ⊥)) }
{
    for k in passed..limits.len() {
        if make(limits[k], first[k], second[k], sum) {
            return Some(k);
        }
    }
    None
}

/// The position of a number, where that of the first one and the last of all positions are these.
fn position_of(first: u16, number: usize, last: u16) -> u16
    requires { first + number ≤ last }
    ensures { result ≡ first + number }
{
    first + number as u16
}

/// The first position at which numbers of 16 bits before and behind it, each times its factor, have this sum. Limits
/// tell the positions too, from the first of them to the last one.
pub fn first_short(
    first: &[i16],
    second: &[i16],
    positions: Positions<'_>,
    limits: &[i16],
    scales: Scales,
    sum: i64,
) -> Option<u16>
    requires first { AreProper short first.now }
    requires second { AreProper short second.now }
    requires have { HaveNumbers positions first.now second.now }
    requires rising { AllAdjacentBelow (λ (a b : ℕ). a < b) positions.at.now (length positions.at.now) }
    requires limits { AreLimited positions.at.now limits.now }
    requires low { AreLowSums short.mark scales positions first.now second.now }
    ensures { IsFirstOf positions.entry.at.now (λ position. HasScaledSum short.mark scales first.now second.now
        (number_at positions.entry position) sum) result }
{
    if !scales.are_plain() || !are_dense(first, second, positions, limits) {
        return first_scaled(
            first,
            second,
            i64::from(SHORT_MARK),
            positions,
            0,
            scales,
            sum,
        );
    }
    let passed = passed_limited(first, second, limits, sum);
    let Some(number) = first_limited(first, second, limits, passed, sum) else {
        return None;
    };
    let last = positions.at[positions.at.len() - 1];
    Some(position_of(positions.first, number, last))
}

/// The first position at which numbers of 32 bits before and behind it, each times its factor, have this sum.
pub fn first_medium(
    first: &[i32],
    second: &[i32],
    positions: Positions<'_>,
    scales: Scales,
    sum: i64,
) -> Option<u16>
    requires first { AreProper medium first.now }
    requires second { AreProper medium second.now }
    requires have { HaveNumbers positions first.now second.now }
    requires rising { AllAdjacentBelow (λ (a b : ℕ). a < b) positions.at.now (length positions.at.now) }
    requires low { AreLowSums medium.mark scales positions first.now second.now }
    ensures { IsFirstOf positions.entry.at.now (λ position. HasScaledSum medium.mark scales first.now second.now
        (number_at positions.entry position) sum) result }
{
    first_sum(first, second, positions, scales, sum)
}

/// The first position at which entries before and behind it, each times its factor, have this sum.
pub fn first_whole(
    first: &[i64],
    second: &[i64],
    positions: Positions<'_>,
    scales: Scales,
    sum: i64,
) -> Option<u16>
    requires have { HaveNumbers positions first.now second.now }
    requires rising { AllAdjacentBelow (λ (a b : ℕ). a < b) positions.at.now (length positions.at.now) }
    requires low { AreLowSums no_candidate scales positions first.now second.now }
    ensures { IsFirstOf positions.entry.at.now (λ position. HasScaledSum no_candidate scales first.now second.now
        (number_at positions.entry position) sum) result }
{
    first_scaled(first, second, NO_CANDIDATE, positions, 0, scales, sum)
}

/// The first position at which numbers of 64 bits before and behind it, each times its factor, have this sum.
pub fn first_long(
    first: &[i64],
    second: &[i64],
    positions: Positions<'_>,
    scales: Scales,
    sum: i64,
) -> Option<u16>
    requires first { AreProper long first.now }
    requires second { AreProper long second.now }
    requires have { HaveNumbers positions first.now second.now }
    requires rising { AllAdjacentBelow (λ (a b : ℕ). a < b) positions.at.now (length positions.at.now) }
    requires low { AreLowSums long.mark scales positions first.now second.now }
    ensures { IsFirstOf positions.entry.at.now (λ position. HasScaledSum long.mark scales first.now second.now
        (number_at positions.entry position) sum) result }
{
    first_sum(first, second, positions, scales, sum)
}
