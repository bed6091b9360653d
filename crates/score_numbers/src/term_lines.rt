//! The greatest that a wide term comes to at the positions of a boundary, as many of them at once as a lane has numbers.

ghost use Rattle.std.specs.Prelude.{◌≡◌, ◌↔◌, ◌⊎◌, ◌<◌, ◌≤◌, ℕ, IsTrue, Some, length, map, nat_abs, pos, slice_get, slice_index_or};
ghost use Rattle.std.specs.List.{AllAdjacentBelow};
ghost use Rattle.adp_model.specs.WideTerms.{form_of};
ghost use Rattle.score_numbers.specs.Packing.{long, medium, short};
ghost use Rattle.score_numbers.specs.Sums.{HaveNumbers};
ghost use Rattle.score_numbers.specs.Greatest.{IsGreatestOf};
ghost use Rattle.score_numbers.specs.TermLines.{AreLowLive, AreLowValues, AreNumbersFrom, AreTwo, HasTermValueAt, HasTermValueFrom, HasLive, HoldsValues};

use crate::lanes::{Difference, Greater, LANES, Lesser, Product, Sum, combine, everywhere, turn};
use crate::numbers::greater;
use crate::sums::{Positions, sum_of};
use crate::width::Number;
use adp_model::laws::terms::values_are_within_magnitudes;
use adp_model::{Goal, Wide};

/// A wide term with the values of its arguments, two of which have other values at each position of a boundary.
#[derive(Clone, Copy)]
pub struct TermLine<'l> {
    pub term: &'l Wide,
    pub goal: Goal,
    /// What stands for the two means nothing.
    pub values: &'l [i64],
    /// The place of the argument before the boundary.
    pub before: usize,
    /// The place of the one behind it.
    pub behind: usize,
}

/// The value at this place, 0 where there is none.
fn value_at(values: &[i64], place: usize) -> i64
    ensures { result ≡ slice_index_or values.now place (pos 0) }
{
    values.get(place).copied().unwrap_or(0)
}

/// What a part of the term comes to at each two numbers side by side.
fn fill<N: Number>(
    part: &Wide,
    line: &TermLine<'_>,
    before: &[N; LANES],
    behind: &[N; LANES],
    lane: &mut [N; LANES],
)
    requires two { AreTwo line.now }
    ensures { HoldsValues N.width.limit line.now (form_of part.now) (map N.value before.now) (map N.value behind.now)
        (map N.value lane.new) }
{
    values_are_within_magnitudes();
    match part {
        Wide::Number(number) => *lane = everywhere(*number),
        Wide::Value(place) => {
            let place = *place as usize;
            if place == line.behind {
                *lane = *behind;
                turn(line.goal, lane);
            } else if place == line.before {
                *lane = *before;
                turn(line.goal, lane);
            } else {
                *lane = everywhere(value_at(line.values, place));
            }
        }
        Wide::Sum(left, right) => {
            let mut other = *before;
            fill(left, line, before, behind, lane);
            fill(right, line, before, behind, &mut other);
            combine::<Sum, N>(lane, &other);
        }
        Wide::Difference(left, right) => {
            let mut other = *before;
            fill(left, line, before, behind, lane);
            fill(right, line, before, behind, &mut other);
            combine::<Difference, N>(lane, &other);
        }
        Wide::Product(left, right) => {
            let mut other = *before;
            fill(left, line, before, behind, lane);
            fill(right, line, before, behind, &mut other);
            combine::<Product, N>(lane, &other);
        }
        Wide::Greater(left, right) => {
            let mut other = *before;
            fill(left, line, before, behind, lane);
            fill(right, line, before, behind, &mut other);
            combine::<Greater, N>(lane, &other);
        }
        Wide::Lesser(left, right) => {
            let mut other = *before;
            fill(left, line, before, behind, lane);
            fill(right, line, before, behind, &mut other);
            combine::<Lesser, N>(lane, &other);
        }
    }
}

/// The number where neither of two others is the mark, and else the mark.
#[inline(always)]
fn live<N: Number>(number: N, before: N, behind: N) -> N
    ensures marked { (N.value before ≡ N.width.mark) ⊎ (N.value behind ≡ N.width.mark)
        → N.value result ≡ N.width.mark }
    ensures live { (N.value before ≡ N.width.mark → ⊥) → (N.value behind ≡ N.width.mark → ⊥)
        → N.value result ≡ N.value number }
{
    let number = if before.is_mark() { N::mark() } else { number };
    if behind.is_mark() { N::mark() } else { number }
}

/// The greatest of the numbers at which neither of two others is the mark.
#[inline(always)]
fn greatest_live<N: Number>(
    lane: &[N; LANES],
    before: &[N; LANES],
    behind: &[N; LANES],
) -> Option<i64>
    requires { AreLowLive N.width (map N.value before.now) (map N.value behind.now) (map N.value lane.now) }
    ensures { IsGreatestOf (λ number. (k : ℕ) × HasLive N.width (map N.value before.now) (map N.value behind.now)
        (map N.value lane.now) k number) result }
{
    N::is_spaced();
    let mut greatest = N::mark();
    for k in 0..LANES {
        greatest = greatest.most(live(lane[k], before[k], behind[k]));
    }
    sum_of(greatest)
}

/// The numbers at the positions from this number on, as far as a lane reaches; the mark behind the last of them.
#[inline(always)]
fn numbers_from<N: Number>(numbers: &[N], positions: Positions<'_>, begin: usize) -> [N; LANES]
    requires have { HaveNumbers positions (map N.value numbers.now) (map N.value numbers.now) }
    requires rising { AllAdjacentBelow (λ (a b : ℕ). a < b) positions.at.now (length positions.at.now) }
    requires within { begin ≤ length positions.at.now }
    ensures { AreNumbersFrom N.width.mark positions.entry (map N.value numbers.now) begin (map N.value result) }
{
    let mut lane = [N::mark(); LANES];
    let count = LANES.min(positions.at.len() - begin);
    if numbers.len() == positions.at.len() {
        for k in 0..count {
            lane[k] = numbers[begin + k];
        }
    } else {
        for k in 0..count {
            lane[k] = numbers[positions.at[begin + k] as usize - positions.first as usize];
        }
    }
    lane
}

/// The greatest that the term comes to, turned, at the positions from this number on, as far as a lane reaches.
/// The lane is written over.
#[inline(always)]
fn greatest_from<N: Number>(
    line: &TermLine<'_>,
    before: &[N],
    behind: &[N],
    positions: Positions<'_>,
    begin: usize,
    lane: &mut [N; LANES],
) -> Option<i64>
    requires two { AreTwo line.now }
    requires have { HaveNumbers positions (map N.value before.now) (map N.value behind.now) }
    requires rising { AllAdjacentBelow (λ (a b : ℕ). a < b) positions.at.now (length positions.at.now) }
    requires within { begin ≤ length positions.at.now }
    requires low { AreLowValues N.width line.now positions (map N.value before.now) (map N.value behind.now) }
    ensures { IsGreatestOf (HasTermValueFrom N.width line.now positions.entry (map N.value before.now)
        (map N.value behind.now) begin) result }
{
    values_are_within_magnitudes();
    let before = numbers_from(before, positions, begin);
    let behind = numbers_from(behind, positions, begin);
    fill(line.term, line, &before, &behind, lane);
    turn(line.goal, lane);
    greatest_live(lane, &before, &behind)
}

/// The greatest that the term comes to, turned, at numbers before and behind the positions. The lane is written over.
fn greatest_value<N: Number>(
    line: &TermLine<'_>,
    before: &[N],
    behind: &[N],
    positions: Positions<'_>,
    lane: &mut [N; LANES],
) -> Option<i64>
    requires two { AreTwo line.now }
    requires have { HaveNumbers positions (map N.value before.now) (map N.value behind.now) }
    requires rising { AllAdjacentBelow (λ (a b : ℕ). a < b) positions.at.now (length positions.at.now) }
    requires low { AreLowValues N.width line.now positions (map N.value before.now) (map N.value behind.now) }
    ensures { IsGreatestOf (HasTermValueAt N.width line.now positions.entry (map N.value before.now)
        (map N.value behind.now)) result }
{
    let mut greatest = None;
    for number in 0..positions.at.len().div_ceil(LANES) {
        let here = greatest_from(line, before, behind, positions, number * LANES, lane);
        greatest = greater(greatest, here);
    }
    greatest
}

/// The greatest that the term comes to, turned, at numbers of 16 bits before and behind the positions.
pub fn greatest_short_value(
    line: &TermLine<'_>,
    before: &[i16],
    behind: &[i16],
    positions: Positions<'_>,
) -> Option<i64>
    requires two { AreTwo line.now }
    requires have { HaveNumbers positions before.now behind.now }
    requires rising { AllAdjacentBelow (λ (a b : ℕ). a < b) positions.at.now (length positions.at.now) }
    requires low { AreLowValues short line.now positions before.now behind.now }
    ensures { IsGreatestOf (HasTermValueAt short line.now positions.entry before.now behind.now) result }
{
    greatest_value(line, before, behind, positions, &mut [0; LANES])
}

/// The greatest that the term comes to, turned, at numbers of 32 bits before and behind the positions.
pub fn greatest_medium_value(
    line: &TermLine<'_>,
    before: &[i32],
    behind: &[i32],
    positions: Positions<'_>,
) -> Option<i64>
    requires two { AreTwo line.now }
    requires have { HaveNumbers positions before.now behind.now }
    requires rising { AllAdjacentBelow (λ (a b : ℕ). a < b) positions.at.now (length positions.at.now) }
    requires low { AreLowValues medium line.now positions before.now behind.now }
    ensures { IsGreatestOf (HasTermValueAt medium line.now positions.entry before.now behind.now) result }
{
    greatest_value(line, before, behind, positions, &mut [0; LANES])
}

/// The greatest that the term comes to, turned, at numbers of 64 bits before and behind the positions.
pub fn greatest_long_value(
    line: &TermLine<'_>,
    before: &[i64],
    behind: &[i64],
    positions: Positions<'_>,
) -> Option<i64>
    requires two { AreTwo line.now }
    requires have { HaveNumbers positions before.now behind.now }
    requires rising { AllAdjacentBelow (λ (a b : ℕ). a < b) positions.at.now (length positions.at.now) }
    requires low { AreLowValues long line.now positions before.now behind.now }
    ensures { IsGreatestOf (HasTermValueAt long line.now positions.entry before.now behind.now) result }
{
    greatest_value(line, before, behind, positions, &mut [0; LANES])
}
