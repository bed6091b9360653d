//! The first so many of the entries that were met.

ghost use Rattle.std.specs.Prelude.{◌≡◌, ◌⊎◌, ℕ, ◌<◌, ◌≤◌, IfOk, Some, false, length, take, drop, slice_get};
ghost use Rattle.std.specs.List.{AllByRecursion};
ghost use Rattle.first_trees.specs.FirstTrees.{AreInOrder, IsAt};
ghost use Rattle.first_trees.specs.Entries.{Entry as EntryValue, EntryPrecedes};
ghost use Rattle.k_best.specs.Settled.{IsBehind, IsComparable, IsListed, IsSettled};

use crate::entry::{Entry, precedes};
use adp_model::Goal;
use first_trees::laws::entries_are_in_strict_order;
use std::alloc::AllocError;

/// How many of the listed entries come before the entry, looked for from the last one on.
fn place_of(goal: Goal, listed: &[Entry], entry: &Entry) -> usize
    requires { AreInOrder (EntryPrecedes goal) listed.now }
    ensures within { result ≤ length listed.now }
    ensures before { AllByRecursion (λ other. EntryPrecedes goal other entry.now) (take result listed.now) }
    ensures behind { (other : EntryValue) → slice_get listed.now result ≡ Some other
        → EntryPrecedes goal other entry.now → ⊥ }
{
    entries_are_in_strict_order();
    let mut place = listed.len();
    while place > 0 && !precedes(goal, &listed[place - 1], entry) {
        place -= 1;
    }
    place
}

/// Puts an entry among the first `k` of those that were met, where it is one of them. Tells whether it is.
pub fn meet(goal: Goal, k: usize, listed: &mut Vec<Entry>, entry: Entry) -> Result<bool, AllocError>
    requires few { length listed.old.items ≤ k }
    requires in_order { AreInOrder (EntryPrecedes goal) listed.old.items }
    requires comparable { AllByRecursion (IsComparable goal entry) listed.old.items }
    ensures few { IfOk result (λ _. length listed.new.items ≤ k) }
    ensures in_order { IfOk result (λ _. AreInOrder (EntryPrecedes goal) listed.new.items) }
    ensures from { IfOk result (λ _. (other : EntryValue) → IsListed listed.new.items other
        → IsListed listed.old.items other ⊎ (other ≡ entry)) }
    ensures kept { IfOk result (λ _. (other : EntryValue) → IsSettled goal k listed.old.items other
        → IsSettled goal k listed.new.items other) }
    ensures settled { IfOk result (λ _. IsSettled goal k listed.new.items entry) }
    ensures out { IfOk result (λ is_in. is_in ≡ false → IsBehind goal k listed.new.items entry) }
    ensures front { IfOk result (λ _. (place : ℕ) (other : EntryValue) → IsAt listed.old.items place other
        → EntryPrecedes goal other entry → IsAt listed.new.items place other) }
{
    entries_are_in_strict_order();
    let place = place_of(goal, listed, &entry);
    if place == k {
        return Ok(false);
    }
    if let Some(next) = listed.get(place) {
        if !precedes(goal, &entry, next) {
            return Ok(true);
        }
    }
    listed.insert(place, entry)?;
    listed.truncate(k);
    Ok(true)
}
