//! The greatest sum of numbers before and behind the positions of a boundary.

ghost use Rattle.std.specs.Prelude.{◌≡◌, ◌↔◌, ℕ, pos, ◌+◌, ◌/◌, ◌<◌, ◌≤◌, ◌⊎◌, ◌+ℤ◌, ◌*ℤ◌, ◌<ℤ◌, ◌≤ℤ◌, IsTrue, MatchOption, nat_abs, length, map};
ghost use Rattle.std.specs.List.{AllAdjacentBelow};
ghost use Rattle.adp_model.specs.ProblemFields.{greatest_score};
ghost use Rattle.score_numbers.specs.Entries.{no_candidate};
ghost use Rattle.score_numbers.specs.Packing.{AreProper, long, medium, short};
ghost use Rattle.score_numbers.specs.Limits.{AreLimited, AreLimits};
ghost use Rattle.score_numbers.specs.Sums.{AreLowSums, HasScaledSumAt, HasSum, HasSumAt, HasUnlimitedSum, HaveNumbers};
ghost use Rattle.score_numbers.specs.Greatest.{IsGreatestOf};
ghost use Rattle.score_numbers.specs.Spaced.{least_sum};

use crate::packing::{NO_CANDIDATE, SHORT_MARK, score_of};
use crate::width::Number;

/// Where one number in so many, or fewer of them, stands at a position, these are read one by one, and else all are.
const SPARSE: usize = 6;

/// The positions of a boundary, in order. Numbers before them and numbers behind them are those for the positions from
/// `first` on.
#[derive(Clone, Copy)]
pub struct Positions<'l> {
    pub at: &'l [u16],
    pub first: u16,
}

/// The factors of the numbers before the positions and of those behind them.
#[derive(Clone, Copy)]
pub struct Scales {
    pub before: i64,
    pub behind: i64,
}

impl Scales {
    /// Whether they leave numbers as they are.
    pub fn are_plain(self) -> bool
        ensures { IsTrue result ↔ (self.before ≡ pos 1) × (self.behind ≡ pos 1) }
    {
        self.before == 1 && self.behind == 1
    }

    /// The sum of two numbers, each times its factor, as an entry: lowest where one of them is the mark.
    fn sum(self, mark: i64, before: i64, behind: i64) -> i64
        requires low { (before ≡ mark → ⊥) → (behind ≡ mark → ⊥)
            → nat_abs (self.before *ℤ before) + nat_abs (self.behind *ℤ behind) ≤ greatest_score }
        ensures marked { (before ≡ mark) ⊎ (behind ≡ mark) → result ≡ no_candidate }
        ensures scored { (before ≡ mark → ⊥) → (behind ≡ mark → ⊥)
            → result ≡ ((self.before *ℤ before) +ℤ (self.behind *ℤ behind)) }
    {
        if before == mark || behind == mark {
            NO_CANDIDATE
        } else {
            self.before * before + self.behind * behind
        }
    }

    /// Whether neither of two numbers is the mark, and their sum, each times its factor, is this one.
    pub fn make(self, mark: i64, before: i64, behind: i64, sum: i64) -> bool
        requires low { (before ≡ mark → ⊥) → (behind ≡ mark → ⊥)
            → nat_abs (self.before *ℤ before) + nat_abs (self.behind *ℤ behind) ≤ greatest_score }
        ensures apart { IsTrue result → (before ≡ mark → ⊥) × (behind ≡ mark → ⊥) }
        ensures sum { (before ≡ mark → ⊥) → (behind ≡ mark → ⊥)
            → IsTrue result ↔ (sum ≡ ((self.before *ℤ before) +ℤ (self.behind *ℤ behind))) }
    {
        if before == mark || behind == mark {
            return false;
        }
        self.sum(mark, before, behind) == sum
    }
}

/// The greatest sum of numbers at the positions, each times its factor.
fn greatest_scaled<N: Number>(
    first: &[N],
    second: &[N],
    mark: i64,
    positions: Positions<'_>,
    scales: Scales,
) -> Option<i64>
    requires have { HaveNumbers positions (map N.value first.now) (map N.value second.now) }
    requires low { AreLowSums mark scales positions (map N.value first.now) (map N.value second.now) }
    ensures { IsGreatestOf (HasScaledSumAt mark scales positions.entry (map N.value first.now) (map N.value second.now))
        result }
{
    let mut greatest = NO_CANDIDATE;
    for position in positions.at {
        let number = *position as usize - positions.first as usize;
        let (before, behind) = (first[number].wide(), second[number].wide());
        greatest = greatest.max(scales.sum(mark, before, behind));
    }
    score_of(greatest)
}

/// The sum that is the greatest one, where it is one of two scores.
pub fn sum_of<N: Number>(greatest: N) -> Option<i64>
    ensures { MatchOption result (N.value greatest <ℤ least_sum N.width)
        (λ sum. (sum ≡ N.value greatest) × (least_sum N.width ≤ℤ sum)) }
{
    let sum = greatest.wide();
    if sum < N::least_sum() {
        None
    } else {
        Some(sum)
    }
}

/// The greatest sum of numbers side by side.
#[inline(always)]
pub fn greatest_aligned<N: Number>(first: &[N], second: &[N]) -> Option<i64>
    requires first { AreProper N.width (map N.value first.now) }
    requires second { AreProper N.width (map N.value second.now) }
    ensures { IsGreatestOf (λ sum. (k : ℕ) × HasSum N.width (map N.value first.now) (map N.value second.now) k sum)
        result }
{
    N::is_spaced();
    let mut greatest = N::mark();
    for (a, b) in first.iter().zip(second) {
        greatest = greatest.most(a.plus(*b));
    }
    sum_of(greatest)
}

/// The greatest sum of numbers at positions here and there.
fn greatest_scattered<N: Number>(first: &[N], second: &[N], positions: Positions<'_>) -> Option<i64>
    requires first { AreProper N.width (map N.value first.now) }
    requires second { AreProper N.width (map N.value second.now) }
    requires have { HaveNumbers positions (map N.value first.now) (map N.value second.now) }
    ensures { IsGreatestOf (HasSumAt N.width positions.entry (map N.value first.now) (map N.value second.now)) result }
{
    N::is_spaced();
    let mut greatest = N::mark();
    for position in positions.at {
        let number = *position as usize - positions.first as usize;
        greatest = greatest.most(first[number].plus(second[number]));
    }
    sum_of(greatest)
}

/// The greatest sum of numbers before and behind the positions, each times its factor.
fn greatest_sum<N: Number>(
    first: &[N],
    second: &[N],
    positions: Positions<'_>,
    scales: Scales,
) -> Option<i64>
    requires first { AreProper N.width (map N.value first.now) }
    requires second { AreProper N.width (map N.value second.now) }
    requires have { HaveNumbers positions (map N.value first.now) (map N.value second.now) }
    requires rising { AllAdjacentBelow (λ (a b : ℕ). a < b) positions.at.now (length positions.at.now) }
    requires low { AreLowSums N.width.mark scales positions (map N.value first.now) (map N.value second.now) }
    ensures { IsGreatestOf (HasScaledSumAt N.width.mark scales positions.entry (map N.value first.now)
        (map N.value second.now)) result }
{
    if !scales.are_plain() {
        return greatest_scaled(first, second, N::mark().wide(), positions, scales);
    }
    if first.len() == positions.at.len() && second.len() == positions.at.len() {
        greatest_aligned(first, second)
    } else {
        greatest_scattered(first, second, positions)
    }
}

/// The greatest sum of numbers of 16 bits side by side, where there is no limit.
#[inline(always)]
pub fn greatest_limited_short(first: &[i16], second: &[i16], limits: &[i16]) -> Option<i64>
    requires first { AreProper short first.now }
    requires second { AreProper short second.now }
    requires limits { AreLimits limits.now }
    requires as_many { length first.now ≡ length limits.now }
    requires as_many_behind { length second.now ≡ length limits.now }
    ensures { IsGreatestOf (HasUnlimitedSum limits.now first.now second.now) result }
{
    let mut greatest = SHORT_MARK;
    for (k, limit) in limits.iter().enumerate() {
        greatest = greatest.max((first[k] + second[k]).min(*limit));
    }
    sum_of(greatest)
}

/// Whether there are two numbers of 16 bits for each limit, and not too many limits for so many positions, so that all
/// of them are read.
pub fn are_dense(first: &[i16], second: &[i16], positions: Positions<'_>, limits: &[i16]) -> bool
    ensures { IsTrue result ↔ ((length first.now ≡ length limits.now) × (length second.now ≡ length limits.now)
        × (length limits.now / 6 < length positions.entry.at.now)) }
{
    let span = limits.len();
    first.len() == span && second.len() == span && span / SPARSE < positions.at.len()
}

/// The greatest sum of numbers of 16 bits before and behind the positions, each times its factor. Limits tell the
/// positions too, from the first of them to the last one.
#[inline(always)]
pub fn greatest_short(
    first: &[i16],
    second: &[i16],
    positions: Positions<'_>,
    limits: &[i16],
    scales: Scales,
) -> Option<i64>
    requires first { AreProper short first.now }
    requires second { AreProper short second.now }
    requires have { HaveNumbers positions first.now second.now }
    requires rising { AllAdjacentBelow (λ (a b : ℕ). a < b) positions.at.now (length positions.at.now) }
    requires limits { AreLimited positions.at.now limits.now }
    requires low { AreLowSums short.mark scales positions first.now second.now }
    ensures { IsGreatestOf (HasScaledSumAt short.mark scales positions.entry first.now second.now) result }
{
    if !scales.are_plain() {
        return greatest_scaled(first, second, i64::from(SHORT_MARK), positions, scales);
    }
    if !are_dense(first, second, positions, limits) {
        greatest_scattered(first, second, positions)
    } else if positions.at.len() == limits.len() {
        greatest_aligned(first, second)
    } else {
        greatest_limited_short(first, second, limits)
    }
}

/// The greatest sum of numbers of 32 bits before and behind the positions, each times its factor.
pub fn greatest_medium(
    first: &[i32],
    second: &[i32],
    positions: Positions<'_>,
    scales: Scales,
) -> Option<i64>
    requires first { AreProper medium first.now }
    requires second { AreProper medium second.now }
    requires have { HaveNumbers positions first.now second.now }
    requires rising { AllAdjacentBelow (λ (a b : ℕ). a < b) positions.at.now (length positions.at.now) }
    requires low { AreLowSums medium.mark scales positions first.now second.now }
    ensures { IsGreatestOf (HasScaledSumAt medium.mark scales positions.entry first.now second.now) result }
{
    greatest_sum(first, second, positions, scales)
}

/// The greatest sum of entries before and behind the positions, each times its factor.
pub fn greatest_whole(
    first: &[i64],
    second: &[i64],
    positions: Positions<'_>,
    scales: Scales,
) -> Option<i64>
    requires have { HaveNumbers positions first.now second.now }
    requires low { AreLowSums no_candidate scales positions first.now second.now }
    ensures { IsGreatestOf (HasScaledSumAt no_candidate scales positions.entry first.now second.now) result }
{
    greatest_scaled(first, second, NO_CANDIDATE, positions, scales)
}

/// The greatest sum of numbers of 64 bits before and behind the positions, each times its factor.
pub fn greatest_long(
    first: &[i64],
    second: &[i64],
    positions: Positions<'_>,
    scales: Scales,
) -> Option<i64>
    requires first { AreProper long first.now }
    requires second { AreProper long second.now }
    requires have { HaveNumbers positions first.now second.now }
    requires rising { AllAdjacentBelow (λ (a b : ℕ). a < b) positions.at.now (length positions.at.now) }
    requires low { AreLowSums long.mark scales positions first.now second.now }
    ensures { IsGreatestOf (HasScaledSumAt long.mark scales positions.entry first.now second.now) result }
{
    greatest_sum(first, second, positions, scales)
}
