//! The steps of a pass on the words. Each is one load, store, exchange or addition on one word.

use crate::codes::cell_code;
use crate::part::Part;
use crate::pass::{Pass, hand_after};
use crate::places::{COUNTER, arena_place, key_place, record_place};
use crate::rule::{
    AddsCounter, ExchangesKey, ExchangesRecord, LoadsArena, LoadsKey, LoadsRecord, StoresArena,
};
use crate::word_step::{Action, Place, WordStep};
use crate::words::Words;
use adp_model::Cell;
use adp_model::laws::cells::{places_fill_the_bound, places_tell_cells_apart};
use adp_model::laws::demand::demanded_cells_are_counted;
use adp_model::laws::well_formed::numbers_fit_together;
use memo_model::Steps;
use std::sync::ledger::Ledger;

impl Words {
    ghost use Rattle.std.specs.Prelude.{◌≡◌, ◌≢◌, ℕ, ◌+◌, ◌-◌, ◌<◌, ◌≤◌, Some, None, length, Contains, ◌==◌, if◌then◌else◌};
    ghost use Rattle.adp_model.specs.declared.cell.Cell.{Cell};
    ghost use Rattle.adp_model.specs.Demand.{IsDemanded};
    ghost use Rattle.memo_model.specs.StepsMade.{steps_made};
    ghost use Rattle.memo_words.specs.Codes.{HasCellCode, cell_code};
    ghost use Rattle.memo_words.specs.Layout.{slots_of, records_of};
    ghost use Rattle.memo_words.specs.Views.{seen_at, owns, cell_at, key_loaded, key_exchanged, record_loaded, record_exchanged, counter_added, arena_stored, arena_loaded, hand_after};
    ghost use Rattle.memo_words.specs.Steps.{AreKeys, KeysFit, IsNamedAnswer, StaySeen};
    ghost use Rattle.memo_words.specs.declared.word_step.Place.TheVariants as places;
    ghost use Rattle.memo_words.specs.declared.word_step.Action.TheVariants as actions;
    ghost use Rattle.memo_words.specs.Made.{step_on};
    ghost use Rattle.memo_words.specs.Passes.{view_of, hand_of, made_of, plan_of, problem_of, HasStepped, HasTold, IsPassOf, IsBehindOthers, IsReady};
    ghost use Rattle.history_table.specs.declared.history.Deed.TheVariants as deeds;
    ghost use Rattle.memo_words.specs.Layout.{key_place, record_place, arena_place};

    /// Each demanded cell has a code. Does nothing when it runs.
    fn demanded_cells_have_codes(&self)
        ensures { (cell : Cell) → IsDemanded (problem_of self.now) cell → HasCellCode cell }
    {
        demanded_cells_are_counted();
        numbers_fit_together();
    }

    /// The codes of demanded cells are at most as many as cells are counted. Does nothing when it runs.
    fn keys_fit(&self)
        ensures { KeysFit (plan_of self.now) }
    {
        demanded_cells_are_counted();
        places_fill_the_bound();
        places_tell_cells_apart();
    }

    /// Loads the key word of a position: 0, or the code of a demanded cell, which stays.
    pub fn key_load_step<L: Ledger>(
        &self,
        pass: &mut Pass,
        position: u32,
        steps: &mut Steps<L>,
    ) -> u64
        requires own { IsPassOf self.now pass.old }
        requires inside { position < slots_of (plan_of self.now) }
        ensures own { IsPassOf self.now pass.new }
        ensures marked { HasStepped (key_place position) deeds.Load result pass.old pass.new }
        ensures told { HasTold pass.old pass.new }
        ensures view { view_of pass.new ≡ key_loaded position result (view_of pass.old) }
        ensures hand { hand_of pass.new ≡ hand_of pass.old }
        ensures made { made_of pass.new ≡ step_on (places.Key position) actions.Load result }
        ensures keys { AreKeys (plan_of self.now) (view_of pass.new).keys }
        ensures stays { StaySeen (view_of pass.old).keys (view_of pass.new).keys }
        ensures steps { steps_made steps.new ≡ steps_made steps.old + 1 }
    {
        steps.count();
        let found = self
            .table
            .load::<LoadsKey>(&mut pass.seat, key_place(position));
        pass.made = Some(WordStep {
            place: Place::Key(position),
            action: Action::Load,
            value: found,
        });
        found
    }

    /// Puts the code of a cell in the key word of a position, where that is 0, and answers the word found. The cell is
    /// demanded, and all positions before in its probe sequence were seen with other cells' codes.
    pub fn key_exchange_step<L: Ledger>(
        &self,
        pass: &mut Pass,
        position: u32,
        cell: Cell,
        steps: &mut Steps<L>,
    ) -> u64
        requires own { IsPassOf self.now pass.old }
        requires inside { position < slots_of (plan_of self.now) }
        requires demanded { IsDemanded (problem_of self.now) cell }
        requires behind { IsBehindOthers (plan_of self.now) (view_of pass.old).keys cell position }
        ensures own { IsPassOf self.now pass.new }
        ensures marked { HasStepped (key_place position) (deeds.Exchange 0 (cell_code cell)) result pass.old pass.new }
        ensures told { HasTold pass.old pass.new }
        ensures view { view_of pass.new ≡ key_exchanged position (cell_code cell) result (view_of pass.old) }
        ensures hand { hand_of pass.new ≡ hand_of pass.old }
        ensures made { made_of pass.new ≡ step_on (places.Key position) (actions.Exchange (cell_code cell)) result }
        ensures keys { AreKeys (plan_of self.now) (view_of pass.new).keys }
        ensures stays { StaySeen (view_of pass.old).keys (view_of pass.new).keys }
        ensures steps { steps_made steps.new ≡ steps_made steps.old + 1 }
    {
        self.demanded_cells_have_codes();
        steps.count();
        let code = cell_code(cell);
        let found = self
            .table
            .compare_exchange::<ExchangesKey>(&mut pass.seat, key_place(position), 0, code);
        pass.made = Some(WordStep {
            place: Place::Key(position),
            action: Action::Exchange(code),
            value: found,
        });
        found
    }

    /// Loads the record word of a position whose key was seen. Where it isn't 0 the cell is known from then on, and
    /// where the cell is known already it isn't 0.
    pub fn record_load_step<L: Ledger>(
        &self,
        pass: &mut Pass,
        position: u32,
        steps: &mut Steps<L>,
    ) -> u64
        requires own { IsPassOf self.now pass.old }
        requires inside { position < slots_of (plan_of self.now) }
        requires seen { 0 < seen_at (view_of pass.old).keys position }
        ensures own { IsPassOf self.now pass.new }
        ensures marked { HasStepped (record_place (slots_of (plan_of self.now)) position) deeds.Load result
            pass.old pass.new }
        ensures told { HasTold pass.old pass.new }
        ensures view { view_of pass.new ≡ record_loaded (plan_of self.now) position result (view_of pass.old) }
        ensures hand { hand_of pass.new ≡ hand_of pass.old }
        ensures made { made_of pass.new ≡ step_on (places.RecordWord position) actions.Load result }
        ensures known { Contains (view_of pass.old).known (cell_at (view_of pass.old) position) → 0 < result }
        ensures few { result ≤ records_of (plan_of self.now) }
        ensures stays { StaySeen (view_of pass.old).names (view_of pass.new).names }
        ensures steps { steps_made steps.new ≡ steps_made steps.old + 1 }
    {
        steps.count();
        let name = self
            .table
            .load::<LoadsRecord>(&mut pass.seat, record_place(self.slots, position));
        pass.made = Some(WordStep {
            place: Place::RecordWord(position),
            action: Action::Load,
            value: name,
        });
        name
    }

    /// Puts the name of a record of one's own in the record word of a position, where that is 0, and answers the word
    /// found. The answer of the position's cell is stored in the record, and the cell's demanded children are known.
    pub fn record_exchange_step<L: Ledger>(
        &self,
        pass: &mut Pass,
        position: u32,
        number: u32,
        steps: &mut Steps<L>,
    ) -> u64
        requires own { IsPassOf self.now pass.old }
        requires inside { position < slots_of (plan_of self.now) }
        requires ready { IsReady (problem_of self.now) (view_of pass.old) position number }
        ensures own { IsPassOf self.now pass.new }
        ensures marked { HasStepped (record_place (slots_of (plan_of self.now)) position)
            (deeds.Exchange 0 (number + 1)) result pass.old pass.new }
        ensures told { HasTold pass.old pass.new }
        ensures view { view_of pass.new
            ≡ record_exchanged (plan_of self.now) position number result (view_of pass.old) }
        ensures hand { hand_of pass.new ≡ hand_after (hand_of pass.old) number result }
        ensures made { made_of pass.new ≡ step_on (places.RecordWord position) (actions.Exchange (number + 1)) result }
        ensures given_up { result ≡ 0 → owns number (view_of pass.new).owned ≡ 0 }
        ensures known { Contains (view_of pass.old).known (cell_at (view_of pass.old) position) → 0 < result }
        ensures steps { steps_made steps.new ≡ steps_made steps.old + 1 }
    {
        steps.count();
        let name = number as u64 + 1;
        let found = self.table.compare_exchange::<ExchangesRecord>(
            &mut pass.seat,
            record_place(self.slots, position),
            0,
            name,
        );
        pass.made = Some(WordStep {
            place: Place::RecordWord(position),
            action: Action::Exchange(name),
            value: found,
        });
        pass.hand = hand_after(pass.hand, number, found);
        found
    }

    /// Adds 1 to the counter and answers the number found, which is that of a record. The pass owns it from then on,
    /// has stored nothing in it yet, and has it in hand.
    pub fn counter_add_step<L: Ledger>(&self, pass: &mut Pass, steps: &mut Steps<L>) -> u64
        requires own { IsPassOf self.now pass.old }
        requires empty_handed { hand_of pass.old ≡ None }
        ensures own { IsPassOf self.now pass.new }
        ensures marked { HasStepped 0 (deeds.Add 1) result pass.old pass.new }
        ensures told { HasTold pass.old pass.new }
        ensures view { view_of pass.new ≡ counter_added result (view_of pass.old) }
        ensures hand { hand_of pass.new ≡ Some result }
        ensures made { made_of pass.new ≡ step_on places.Counter actions.Add result }
        ensures few { result < records_of (plan_of self.now) }
        ensures steps { steps_made steps.new ≡ steps_made steps.old + 1 }
    {
        self.keys_fit();
        steps.count();
        let found = self
            .table
            .fetch_add::<AddsCounter>(&mut pass.seat, COUNTER, 1);
        pass.made = Some(WordStep {
            place: Place::Counter,
            action: Action::Add,
            value: found,
        });
        pass.hand = Some(found as u32);
        found
    }

    /// Stores a code in a word of a record of one's own.
    pub fn arena_store_step<L: Ledger>(
        &self,
        pass: &mut Pass,
        part: Part,
        number: u32,
        code: u64,
        steps: &mut Steps<L>,
    )
        requires own { IsPassOf self.now pass.old }
        requires owner { 0 < owns number (view_of pass.old).owned }
        ensures own { IsPassOf self.now pass.new }
        ensures marked { (stood : ℕ) × HasStepped
            (arena_place (slots_of (plan_of self.now)) (records_of (plan_of self.now)) part number) (deeds.Store code)
            stood pass.old pass.new }
        ensures told { HasTold pass.old pass.new }
        ensures view { view_of pass.new ≡ arena_stored (plan_of self.now) part number code (view_of pass.old) }
        ensures hand { hand_of pass.new ≡ hand_of pass.old }
        ensures made { made_of pass.new ≡ step_on (places.Record part number) actions.Store code }
        ensures steps { steps_made steps.new ≡ steps_made steps.old + 1 }
    {
        steps.count();
        self.table.store::<StoresArena>(
            &mut pass.seat,
            arena_place(self.slots, self.records, part, number),
            code,
        );
        pass.made = Some(WordStep {
            place: Place::Record(part, number),
            action: Action::Store,
            value: code,
        });
    }

    /// Loads a word of a record whose name was seen in a record word: the word of the answer of that position's cell.
    pub fn arena_load_step<L: Ledger>(
        &self,
        pass: &mut Pass,
        part: Part,
        number: u32,
        steps: &mut Steps<L>,
    ) -> u64
        requires own { IsPassOf self.now pass.old }
        requires named { (position : ℕ) × (seen_at (view_of pass.old).names position ≡ number + 1) }
        ensures own { IsPassOf self.now pass.new }
        ensures marked { HasStepped
            (arena_place (slots_of (plan_of self.now)) (records_of (plan_of self.now)) part number) deeds.Load
            result pass.old pass.new }
        ensures told { HasTold pass.old pass.new }
        ensures view { view_of pass.new ≡ arena_loaded (plan_of self.now) part number result (view_of pass.old) }
        ensures hand { hand_of pass.new ≡ hand_of pass.old }
        ensures made { made_of pass.new ≡ step_on (places.Record part number) actions.Load result }
        ensures answer { IsNamedAnswer (plan_of self.now) (view_of pass.old) part number result }
        ensures steps { steps_made steps.new ≡ steps_made steps.old + 1 }
    {
        steps.count();
        let found = self.table.load::<LoadsArena>(
            &mut pass.seat,
            arena_place(self.slots, self.records, part, number),
        );
        pass.made = Some(WordStep {
            place: Place::Record(part, number),
            action: Action::Load,
            value: found,
        });
        found
    }
}
