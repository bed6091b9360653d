//! The records of a memo table: one is reserved, its two words are written by its owner, and they are read by any pass
//! that saw its name. There is always a record left to be reserved.
#![tactic(auto)]

ghost use Rattle.std.specs.Prelude.{◌≡◌, ℕ, ◌+◌, ◌<◌, Some, None};
ghost use Rattle.memo_model.specs.StepsMade.{steps_made};
ghost use Rattle.memo_words.specs.Layout.{slots_of, records_of, arena_place};
ghost use Rattle.memo_words.specs.Views.{owns, seen_at, counter_added, arena_stored, arena_loaded};
ghost use Rattle.memo_words.specs.Steps.{IsNamedAnswer};
ghost use Rattle.memo_words.specs.Passes.{view_of, hand_of, plan_of, HasStepped, HasTold, IsPassOf};
ghost use Rattle.history_table.specs.declared.history.Deed.TheVariants as deeds;

use memo_model::Steps;
use memo_words::{Part, Pass, Words};
use std::sync::ledger::Ledger;

/// Reserves a record, in which nothing is stored yet. The pass owns it then and has it in hand.
pub fn reserve_step<L: Ledger>(words: &Words, pass: &mut Pass, steps: &mut Steps<L>) -> u32
    requires own { IsPassOf words.now pass.old }
    requires empty_handed { hand_of pass.old ≡ None }
    ensures own { IsPassOf words.now pass.new }
    ensures marked { HasStepped 0 (deeds.Add 1) result pass.old pass.new }
    ensures told { HasTold pass.old pass.new }
    ensures view { view_of pass.new ≡ counter_added result (view_of pass.old) }
    ensures hand { hand_of pass.new ≡ Some result }
    ensures few { result < records_of (plan_of words.now) }
    ensures steps { steps_made steps.new ≡ steps_made steps.old + 1 }
{
    words.counter_add_step(pass, steps) as u32
}

/// Stores a code in a word of a record of one's own.
pub fn write_step<L: Ledger>(
    words: &Words,
    pass: &mut Pass,
    part: Part,
    number: u32,
    code: u64,
    steps: &mut Steps<L>,
)
    requires own { IsPassOf words.now pass.old }
    requires owner { 0 < owns number (view_of pass.old).owned }
    ensures own { IsPassOf words.now pass.new }
    ensures marked { (stood : ℕ) × HasStepped
        (arena_place (slots_of (plan_of words.now)) (records_of (plan_of words.now)) part number) (deeds.Store code)
        stood pass.old pass.new }
    ensures told { HasTold pass.old pass.new }
    ensures view { view_of pass.new ≡ arena_stored (plan_of words.now) part number code (view_of pass.old) }
    ensures hand { hand_of pass.new ≡ hand_of pass.old }
    ensures steps { steps_made steps.new ≡ steps_made steps.old + 1 }
{
    words.arena_store_step(pass, part, number, code, steps);
}

/// Loads a word of a record whose name was seen: that of the answer of the cell to which the name belongs.
pub fn read_step<L: Ledger>(
    words: &Words,
    pass: &mut Pass,
    part: Part,
    number: u32,
    steps: &mut Steps<L>,
) -> u64
    requires own { IsPassOf words.now pass.old }
    requires named { (position : ℕ) × (seen_at (view_of pass.old).names position ≡ number + 1) }
    ensures own { IsPassOf words.now pass.new }
    ensures marked { HasStepped
        (arena_place (slots_of (plan_of words.now)) (records_of (plan_of words.now)) part number) deeds.Load
        result pass.old pass.new }
    ensures told { HasTold pass.old pass.new }
    ensures view { view_of pass.new ≡ arena_loaded (plan_of words.now) part number result (view_of pass.old) }
    ensures hand { hand_of pass.new ≡ hand_of pass.old }
    ensures answer { IsNamedAnswer (plan_of words.now) (view_of pass.old) part number result }
    ensures steps { steps_made steps.new ≡ steps_made steps.old + 1 }
{
    words.arena_load_step(pass, part, number, steps)
}
