//! The greatest sum of numbers before and behind the positions of a boundary and of what the letters at them weigh.

ghost use Rattle.std.specs.Prelude.{◌≡◌, ◌↔◌, ℕ, ◌+◌, ◌<◌, ◌≤◌, ◌⊎◌, ◌+ℤ◌, ◌*ℤ◌, IsTrue, nat_abs, length, map};
ghost use Rattle.std.specs.List.{AllAdjacentBelow};
ghost use Rattle.adp_model.specs.ProblemFields.{greatest_score};
ghost use Rattle.score_numbers.specs.Entries.{no_candidate};
ghost use Rattle.score_numbers.specs.FirstPositions.{IsFirstOf};
ghost use Rattle.score_numbers.specs.Greatest.{IsGreatestOf};
ghost use Rattle.score_numbers.specs.Packing.{long, medium, short};
ghost use Rattle.score_numbers.specs.Sums.{HaveNumbers, number_at};
ghost use Rattle.score_numbers.specs.WeighedSums.{AreLowWeighed, HasWeighedSum, HasWeighedSumAt, HaveWeights, IsWeight, weight_at};

use crate::packing::{LONG_MARK, MEDIUM_MARK, NO_CANDIDATE, SHORT_MARK, score_of};
use crate::sums::{Positions, Scales};
use crate::width::Number;

/// What the letters before each position of a word weigh together, from some position on, and the factor of what the
/// letter at a position weighs.
#[derive(Clone, Copy)]
pub struct Weights<'l> {
    pub sums: &'l [i128],
    pub factor: i64,
}

impl Weights<'_> {
    /// What the letter of this number weighs.
    #[inline(always)]
    fn at(self, number: usize) -> i64
        requires { IsWeight self number }
        ensures { result ≡ weight_at self.entry number }
    {
        (self.sums[number + 1] - self.sums[number]) as i64
    }

    /// The sum of two numbers and a weight, each times its factor, as an entry: lowest where one of both is the mark.
    #[inline(always)]
    fn sum(self, scales: Scales, mark: i64, before: i64, weight: i64, behind: i64) -> i64
        requires low { (before ≡ mark → ⊥) → (behind ≡ mark → ⊥)
            → nat_abs (scales.before *ℤ before) + nat_abs (self.factor *ℤ weight) + nat_abs (scales.behind *ℤ behind)
            ≤ greatest_score }
        ensures marked { (before ≡ mark) ⊎ (behind ≡ mark) → result ≡ no_candidate }
        ensures scored { (before ≡ mark → ⊥) → (behind ≡ mark → ⊥)
            → result ≡ (((scales.before *ℤ before) +ℤ (self.entry.factor *ℤ weight)) +ℤ (scales.behind *ℤ behind)) }
    {
        if before == mark || behind == mark {
            NO_CANDIDATE
        } else {
            scales.before * before + self.factor * weight + scales.behind * behind
        }
    }

    /// Whether neither of two numbers is the mark, and this is the sum of both and a weight, each times its factor.
    #[inline(always)]
    fn make(
        self,
        scales: Scales,
        mark: i64,
        before: i64,
        weight: i64,
        behind: i64,
        sum: i64,
    ) -> bool
        requires low { (before ≡ mark → ⊥) → (behind ≡ mark → ⊥)
            → nat_abs (scales.before *ℤ before) + nat_abs (self.factor *ℤ weight) + nat_abs (scales.behind *ℤ behind)
            ≤ greatest_score }
        ensures apart { IsTrue result → (before ≡ mark → ⊥) × (behind ≡ mark → ⊥) }
        ensures sum { (before ≡ mark → ⊥) → (behind ≡ mark → ⊥) → IsTrue result
            ↔ (sum ≡ (((scales.before *ℤ before) +ℤ (self.entry.factor *ℤ weight)) +ℤ (scales.behind *ℤ behind))) }
    {
        if before == mark || behind == mark {
            return false;
        }
        self.sum(scales, mark, before, weight, behind) == sum
    }
}

/// The greatest sum of numbers and weights at the positions, each times its factor.
fn greatest_weighed<N: Number>(
    first: &[N],
    second: &[N],
    weights: Weights<'_>,
    mark: i64,
    positions: Positions<'_>,
    scales: Scales,
) -> Option<i64>
    requires have { HaveNumbers positions (map N.value first.now) (map N.value second.now) }
    requires weights { HaveWeights weights positions }
    requires low { AreLowWeighed mark scales weights positions (map N.value first.now) (map N.value second.now) }
    ensures { IsGreatestOf (HasWeighedSumAt mark scales weights.entry positions.entry (map N.value first.now)
        (map N.value second.now)) result }
{
    let mut greatest = NO_CANDIDATE;
    for position in positions.at {
        let number = *position as usize - positions.first as usize;
        let (before, behind) = (first[number].wide(), second[number].wide());
        let sum = weights.sum(scales, mark, before, weights.at(number), behind);
        greatest = greatest.max(sum);
    }
    score_of(greatest)
}

/// The first position at which numbers and weights, each times its factor, have this sum.
fn first_weighed<N: Number>(
    first: &[N],
    second: &[N],
    weights: Weights<'_>,
    mark: i64,
    positions: Positions<'_>,
    scales: Scales,
    sum: i64,
) -> Option<u16>
    requires have { HaveNumbers positions (map N.value first.now) (map N.value second.now) }
    requires weights { HaveWeights weights positions }
    requires rising { AllAdjacentBelow (λ (a b : ℕ). a < b) positions.at.now (length positions.at.now) }
    requires low { AreLowWeighed mark scales weights positions (map N.value first.now) (map N.value second.now) }
    ensures { IsFirstOf positions.entry.at.now (λ position. HasWeighedSum mark scales weights.entry
        (map N.value first.now) (map N.value second.now) (number_at positions.entry position) sum) result }
{
    for position in positions.at {
        let number = *position as usize - positions.first as usize;
        let (before, behind) = (first[number].wide(), second[number].wide());
        if weights.make(scales, mark, before, weights.at(number), behind, sum) {
            return Some(*position);
        }
    }
    None
}

/// The greatest sum of numbers of 16 bits before and behind the positions and of weights, each times its factor.
pub fn greatest_short_weighed(
    first: &[i16],
    second: &[i16],
    weights: Weights<'_>,
    positions: Positions<'_>,
    scales: Scales,
) -> Option<i64>
    requires have { HaveNumbers positions first.now second.now }
    requires weights { HaveWeights weights positions }
    requires low { AreLowWeighed short.mark scales weights positions first.now second.now }
    ensures { IsGreatestOf (HasWeighedSumAt short.mark scales weights.entry positions.entry first.now second.now)
        result }
{
    greatest_weighed(
        first,
        second,
        weights,
        i64::from(SHORT_MARK),
        positions,
        scales,
    )
}

/// The greatest sum of numbers of 32 bits before and behind the positions and of weights, each times its factor.
pub fn greatest_medium_weighed(
    first: &[i32],
    second: &[i32],
    weights: Weights<'_>,
    positions: Positions<'_>,
    scales: Scales,
) -> Option<i64>
    requires have { HaveNumbers positions first.now second.now }
    requires weights { HaveWeights weights positions }
    requires low { AreLowWeighed medium.mark scales weights positions first.now second.now }
    ensures { IsGreatestOf (HasWeighedSumAt medium.mark scales weights.entry positions.entry first.now second.now)
        result }
{
    greatest_weighed(
        first,
        second,
        weights,
        i64::from(MEDIUM_MARK),
        positions,
        scales,
    )
}

/// The greatest sum of numbers of 64 bits before and behind the positions and of weights, each times its factor.
pub fn greatest_long_weighed(
    first: &[i64],
    second: &[i64],
    weights: Weights<'_>,
    positions: Positions<'_>,
    scales: Scales,
) -> Option<i64>
    requires have { HaveNumbers positions first.now second.now }
    requires weights { HaveWeights weights positions }
    requires low { AreLowWeighed long.mark scales weights positions first.now second.now }
    ensures { IsGreatestOf (HasWeighedSumAt long.mark scales weights.entry positions.entry first.now second.now)
        result }
{
    greatest_weighed(first, second, weights, LONG_MARK, positions, scales)
}

/// The greatest sum of entries before and behind the positions and of weights, each times its factor.
pub fn greatest_whole_weighed(
    first: &[i64],
    second: &[i64],
    weights: Weights<'_>,
    positions: Positions<'_>,
    scales: Scales,
) -> Option<i64>
    requires have { HaveNumbers positions first.now second.now }
    requires weights { HaveWeights weights positions }
    requires low { AreLowWeighed no_candidate scales weights positions first.now second.now }
    ensures { IsGreatestOf (HasWeighedSumAt no_candidate scales weights.entry positions.entry first.now second.now)
        result }
{
    greatest_weighed(first, second, weights, NO_CANDIDATE, positions, scales)
}

/// The first position at which numbers of 16 bits and weights, each times its factor, have this sum.
pub fn first_short_weighed(
    first: &[i16],
    second: &[i16],
    weights: Weights<'_>,
    positions: Positions<'_>,
    scales: Scales,
    sum: i64,
) -> Option<u16>
    requires have { HaveNumbers positions first.now second.now }
    requires weights { HaveWeights weights positions }
    requires rising { AllAdjacentBelow (λ (a b : ℕ). a < b) positions.at.now (length positions.at.now) }
    requires low { AreLowWeighed short.mark scales weights positions first.now second.now }
    ensures { IsFirstOf positions.entry.at.now (λ position. HasWeighedSum short.mark scales weights.entry first.now
        second.now (number_at positions.entry position) sum) result }
{
    first_weighed(
        first,
        second,
        weights,
        i64::from(SHORT_MARK),
        positions,
        scales,
        sum,
    )
}

/// The first position at which numbers of 32 bits and weights, each times its factor, have this sum.
pub fn first_medium_weighed(
    first: &[i32],
    second: &[i32],
    weights: Weights<'_>,
    positions: Positions<'_>,
    scales: Scales,
    sum: i64,
) -> Option<u16>
    requires have { HaveNumbers positions first.now second.now }
    requires weights { HaveWeights weights positions }
    requires rising { AllAdjacentBelow (λ (a b : ℕ). a < b) positions.at.now (length positions.at.now) }
    requires low { AreLowWeighed medium.mark scales weights positions first.now second.now }
    ensures { IsFirstOf positions.entry.at.now (λ position. HasWeighedSum medium.mark scales weights.entry first.now
        second.now (number_at positions.entry position) sum) result }
{
    first_weighed(
        first,
        second,
        weights,
        i64::from(MEDIUM_MARK),
        positions,
        scales,
        sum,
    )
}

/// The first position at which numbers of 64 bits and weights, each times its factor, have this sum.
pub fn first_long_weighed(
    first: &[i64],
    second: &[i64],
    weights: Weights<'_>,
    positions: Positions<'_>,
    scales: Scales,
    sum: i64,
) -> Option<u16>
    requires have { HaveNumbers positions first.now second.now }
    requires weights { HaveWeights weights positions }
    requires rising { AllAdjacentBelow (λ (a b : ℕ). a < b) positions.at.now (length positions.at.now) }
    requires low { AreLowWeighed long.mark scales weights positions first.now second.now }
    ensures { IsFirstOf positions.entry.at.now (λ position. HasWeighedSum long.mark scales weights.entry first.now
        second.now (number_at positions.entry position) sum) result }
{
    first_weighed(first, second, weights, LONG_MARK, positions, scales, sum)
}

/// The first position at which entries and weights, each times its factor, have this sum.
pub fn first_whole_weighed(
    first: &[i64],
    second: &[i64],
    weights: Weights<'_>,
    positions: Positions<'_>,
    scales: Scales,
    sum: i64,
) -> Option<u16>
    requires have { HaveNumbers positions first.now second.now }
    requires weights { HaveWeights weights positions }
    requires rising { AllAdjacentBelow (λ (a b : ℕ). a < b) positions.at.now (length positions.at.now) }
    requires low { AreLowWeighed no_candidate scales weights positions first.now second.now }
    ensures { IsFirstOf positions.entry.at.now (λ position. HasWeighedSum no_candidate scales weights.entry first.now
        second.now (number_at positions.entry position) sum) result }
{
    first_weighed(first, second, weights, NO_CANDIDATE, positions, scales, sum)
}
