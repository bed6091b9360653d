ghost use Rattle.std.specs.Prelude.{◌≡◌, ◌+◌, ◌<◌, ℕ};
ghost use Rattle.memo_model.specs.declared.probe.Stage.TheVariants.{Open};
ghost use Rattle.memo_model.specs.StepsMade.{steps_made};
ghost use Rattle.memo_words.specs.Codes.{HasCellCode, cell_code};
ghost use Rattle.memo_words.specs.Layout.{probed, slots_of};
ghost use Rattle.memo_table.specs.declared.probe.Next.TheVariants as next;
ghost use Rattle.memo_words.specs.Passes.{plan_of, HasTold, IsPassOf};
ghost use Rattle.memo_table.specs.Probes.{stage_of, Follows};
ghost use Rattle.memo_table.specs.Stepped.{IsLooked};

use crate::laws::{answers_have_words, other_cells_are_fewer};
use crate::probe::{Next, Probe};
use crate::table::Table;
use adp_model::laws::order::answer_is_unique;
use memo_model::{Look, Steps};
use memo_words::{NO_CANDIDATE, Part, Pass, cell_code, code_score, nth_position};
use record_arena::read_step;
use std::sync::ledger::Ledger;

impl Table {
    /// The position to which the search for the probe's cell has come.
    pub(crate) fn position(&self, probe: &Probe) -> u32
        requires { HasCellCode probe.now.cell }
        ensures position { result ≡ probed (plan_of self.now) (cell_code probe.now.cell) probe.now.turn }
        ensures below { result < slots_of (plan_of self.now) }
    {
        self.planned();
        nth_position(cell_code(probe.cell), self.words.bits(), probe.turn)
    }

    /// One step of a look.
    pub(crate) fn look<L: Ledger>(
        &self,
        pass: &mut Pass,
        probe: &mut Probe,
        steps: &mut Steps<L>,
    ) -> Look
        requires own { IsPassOf self.now pass.old }
        requires still_open { stage_of probe.old.next ≡ Open }
        requires follows { Follows probe.old pass.old }
        ensures looked { IsLooked self.now pass.old pass.new probe.old probe.new result }
        ensures told { HasTold pass.old pass.new }
        ensures steps { steps_made steps.new ≡ steps_made steps.old + 1 }
    {
        match probe.next {
            Next::Key => self.load_key(pass, probe, steps),
            Next::Claim => self.claim_key(pass, probe, steps),
            Next::RecordWord => self.load_record_word(pass, probe, steps),
            Next::Choice(number) => self.read_choice(pass, probe, number, steps),
            Next::Score(number) => self.read_score(pass, probe, number, steps),
            Next::Reserve | Next::StoreScore | Next::StoreChoice | Next::Publish | Next::Done => {
                unreachable!()
            }
        }
    }

    /// Loads the key word of the position.
    fn load_key<L: Ledger>(&self, pass: &mut Pass, probe: &mut Probe, steps: &mut Steps<L>) -> Look
        requires own { IsPassOf self.now pass.old }
        requires key { probe.old.next ≡ next.Key }
        requires follows { Follows probe.old pass.old }
        ensures looked { IsLooked self.now pass.old pass.new probe.old probe.new result }
        ensures told { HasTold pass.old pass.new }
        ensures steps { steps_made steps.new ≡ steps_made steps.old + 1 }
    {
        self.planned();
        other_cells_are_fewer();
        let position = self.position(probe);
        let found = self.words.key_load_step(pass, position, steps);
        if found == 0 {
            probe.next = Next::Claim;
        } else if found == cell_code(probe.cell) {
            probe.next = Next::RecordWord;
        } else {
            probe.turn += 1;
        }
        Look::Going
    }

    /// Puts the cell's code into the key word of the position, unless another code stands there.
    fn claim_key<L: Ledger>(&self, pass: &mut Pass, probe: &mut Probe, steps: &mut Steps<L>) -> Look
        requires own { IsPassOf self.now pass.old }
        requires claim { probe.old.next ≡ next.Claim }
        requires follows { Follows probe.old pass.old }
        ensures looked { IsLooked self.now pass.old pass.new probe.old probe.new result }
        ensures told { HasTold pass.old pass.new }
        ensures steps { steps_made steps.new ≡ steps_made steps.old + 1 }
    {
        self.planned();
        other_cells_are_fewer();
        let position = self.position(probe);
        let found = self
            .words
            .key_exchange_step(pass, position, probe.cell, steps);
        if found == 0 || found == cell_code(probe.cell) {
            probe.next = Next::RecordWord;
        } else {
            probe.turn += 1;
            probe.next = Next::Key;
        }
        Look::Going
    }

    /// Loads the record word of the position, where the cell's code stands.
    fn load_record_word<L: Ledger>(
        &self,
        pass: &mut Pass,
        probe: &mut Probe,
        steps: &mut Steps<L>,
    ) -> Look
        requires own { IsPassOf self.now pass.old }
        requires record_word { probe.old.next ≡ next.RecordWord }
        requires follows { Follows probe.old pass.old }
        ensures looked { IsLooked self.now pass.old pass.new probe.old probe.new result }
        ensures told { HasTold pass.old pass.new }
        ensures steps { steps_made steps.new ≡ steps_made steps.old + 1 }
    {
        self.planned();
        let position = self.position(probe);
        let found = self.words.record_load_step(pass, position, steps);
        if found == 0 {
            probe.next = Next::Reserve;
            Look::Unpublished
        } else {
            probe.next = Next::Choice((found - 1) as u32);
            Look::Going
        }
    }

    /// Reads the choice word of the record that the record word names.
    fn read_choice<L: Ledger>(
        &self,
        pass: &mut Pass,
        probe: &mut Probe,
        number: u32,
        steps: &mut Steps<L>,
    ) -> Look
        requires own { IsPassOf self.now pass.old }
        requires choice { probe.old.next ≡ next.Choice number }
        requires follows { Follows probe.old pass.old }
        ensures looked { IsLooked self.now pass.old pass.new probe.old probe.new result }
        ensures told { HasTold pass.old pass.new }
        ensures steps { steps_made steps.new ≡ steps_made steps.old + 1 }
    {
        self.planned();
        let code = read_step(&self.words, pass, Part::Choice, number, steps);
        if code == NO_CANDIDATE {
            probe.next = Next::Done;
            Look::Found(None)
        } else {
            probe.next = Next::Score(number);
            Look::Going
        }
    }

    /// Reads the score word of the record that the record word names.
    fn read_score<L: Ledger>(
        &self,
        pass: &mut Pass,
        probe: &mut Probe,
        number: u32,
        steps: &mut Steps<L>,
    ) -> Look
        requires own { IsPassOf self.now pass.old }
        requires score { probe.old.next ≡ next.Score number }
        requires follows { Follows probe.old pass.old }
        ensures looked { IsLooked self.now pass.old pass.new probe.old probe.new result }
        ensures told { HasTold pass.old pass.new }
        ensures steps { steps_made steps.new ≡ steps_made steps.old + 1 }
    {
        self.planned();
        answers_have_words();
        answer_is_unique();
        let code = read_step(&self.words, pass, Part::Score, number, steps);
        probe.next = Next::Done;
        Look::Found(code_score(code))
    }
}
