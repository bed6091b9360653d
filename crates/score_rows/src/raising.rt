//! Rows that are raised, number by number.

ghost use Rattle.std.specs.Prelude.{◌≡◌, ◌⊎◌, ℕ, ◌+◌, ◌<◌, ◌≤◌, ◌^◌, length, map, slice_get};
ghost use Rattle.score_numbers.specs.Packing.{AreProper};
ghost use Rattle.score_rows.specs.Raised.{AreHighest, AreLowProducts, AreLowSums, HasNumber, HasProduct, HasSum, IsAnywhere, IsAt};

use crate::numbers::{RowNumber, scaled};
use adp_model::Goal;

/// Raises the number of a row at a position to this one.
#[inline(always)]
pub fn raise_at<N: RowNumber>(row: &mut [N], at: usize, number: N)
    requires { at < length row.old }
    ensures raised { AreHighest N.width (IsAt at (N.value number)) IsAnywhere
        (map N.value row.old) (map N.value row.new) }
    ensures others { (k : ℕ) → (k ≡ at → ⊥) → slice_get (map N.value row.new) k ≡ slice_get (map N.value row.old) k }
{
    row[at] = row[at].most(number);
}

/// Raises the numbers of a row from `at` on to the sums of others, side by side, with one number.
#[inline(always)]
pub fn raise<N: RowNumber>(row: &mut [N], at: usize, others: &[N], add: N)
    requires few { at < 2 ^ 32 }
    requires within { at + length others.now ≤ length row.old }
    ensures raised { AreHighest N.width (HasSum N.width (N.value add) at (map N.value others.now))
        (AreLowSums N.width (N.value add) at (map N.value others.now)) (map N.value row.old) (map N.value row.new) }
    ensures others { (k : ℕ) → ((k < at) ⊎ (at + length others.now ≤ k))
        → slice_get (map N.value row.new) k ≡ slice_get (map N.value row.old) k }
{
    for k in 0..others.len() {
        row[at + k] = row[at + k].most(others[k].raised(add));
    }
}

/// The same with the scores that the others stand for, each times a factor.
#[inline(always)]
pub fn raise_scaled<N: RowNumber>(
    row: &mut [N],
    at: usize,
    others: &[N],
    add: N,
    goal: Goal,
    factor: i64,
)
    requires few { at < 2 ^ 32 }
    requires within { at + length others.now ≤ length row.old }
    requires proper { AreProper N.width (map N.value others.now) }
    ensures raised { AreHighest N.width (HasProduct N.width goal factor (N.value add) at (map N.value others.now))
        (AreLowProducts N.width goal factor (N.value add) at (map N.value others.now))
        (map N.value row.old) (map N.value row.new) }
    ensures others { (k : ℕ) → ((k < at) ⊎ (at + length others.now ≤ k))
        → slice_get (map N.value row.new) k ≡ slice_get (map N.value row.old) k }
{
    for k in 0..others.len() {
        let other = others[k];
        if !other.is_mark() {
            row[at + k] = row[at + k].most(scaled(other, goal, factor, add));
        }
    }
}

/// Raises the numbers of a row from `first` on and before `past` to those of another one in their places.
#[inline(always)]
pub fn raise_between<N: RowNumber>(row: &mut [N], others: &[N], first: usize, past: usize)
    requires in_order { first ≤ past }
    requires row { past ≤ length row.old }
    requires others { past ≤ length others.now }
    ensures raised { AreHighest N.width (HasNumber first past (map N.value others.now)) IsAnywhere
        (map N.value row.old) (map N.value row.new) }
    ensures others { (k : ℕ) → ((k < first) ⊎ (past ≤ k))
        → slice_get (map N.value row.new) k ≡ slice_get (map N.value row.old) k }
{
    for k in first..past {
        row[k] = row[k].most(others[k]);
    }
}
