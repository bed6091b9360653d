ghost use Rattle.std.specs.Prelude.{◌≡◌, ◌+◌, ◌<◌, ◌⊎◌, ℕ, None};
ghost use Rattle.adp_model.specs.declared.cell.Cell.{Cell};
ghost use Rattle.memo_model.specs.declared.probe.Stage.TheVariants.{Unpublished, Publishing};
ghost use Rattle.adp_model.specs.Answers.{IsAnswer};
ghost use Rattle.adp_model.specs.Demand.{IsDemandedChild};
ghost use Rattle.memo_model.specs.StepsMade.{steps_made};
ghost use Rattle.memo_words.specs.declared.part.Part.TheVariants.{Score, Choice};
ghost use Rattle.memo_words.specs.CodedCells.{answer_word};
ghost use Rattle.memo_table.specs.declared.probe.Next.TheVariants as next;
ghost use Rattle.memo_table.specs.AnswerWords.{HasAnswerWords};
ghost use Rattle.memo_words.specs.Passes.{problem_of, hand_of, HasTold, IsPassOf};
ghost use Rattle.memo_table.specs.Probes.{stage_of, IsHand, Follows};
ghost use Rattle.memo_table.specs.Meanings.{knows};
ghost use Rattle.memo_table.specs.Stepped.{IsPublished};

use crate::laws::answers_have_words;
use crate::probe::{Next, Probe};
use crate::table::Table;
use adp_model::Answer;
use adp_model::laws::order::answer_is_unique;
use memo_model::{Publish, Steps};
use memo_words::{Part, Pass, choice_code, score_code};
use record_arena::{reserve_step, write_step};
use std::sync::ledger::Ledger;

/// The score word of an answer.
#[tactic(auto, unfolding(memo_words::specs::CodedCells::answer_word))]
fn score_word(answer: Answer) -> u64
    requires { HasAnswerWords answer }
    ensures { result ≡ answer_word Score answer }
{
    match answer {
        Answer::NoCandidate => score_code(None),
        Answer::Best { score, .. } => score_code(Some(score)),
    }
}

/// The choice word of an answer.
#[tactic(auto, unfolding(memo_words::specs::CodedCells::answer_word))]
fn choice_word(answer: Answer) -> u64
    requires { HasAnswerWords answer }
    ensures { result ≡ answer_word Choice answer }
{
    match answer {
        Answer::NoCandidate => choice_code(None),
        Answer::Best { choice, .. } => choice_code(Some(choice)),
    }
}

impl Table {
    /// One step of a publication.
    pub(crate) fn publish<L: Ledger>(
        &self,
        pass: &mut Pass,
        probe: &mut Probe,
        answer: Answer,
        steps: &mut Steps<L>,
    ) -> Publish
        requires own { IsPassOf self.now pass.old }
        requires unpublished { (stage_of probe.old.next ≡ Unpublished) ⊎ (stage_of probe.old.next ≡ Publishing) }
        requires follows { Follows probe.old pass.old }
        requires answer { IsAnswer (problem_of self.now) probe.old.cell answer }
        requires children { (child : Cell) → IsDemandedChild (problem_of self.now) probe.old.cell child
            → knows pass.old child }
        ensures published { IsPublished self.now pass.old pass.new probe.old probe.new result }
        ensures told { HasTold pass.old pass.new }
        ensures steps { steps_made steps.new ≡ steps_made steps.old + 1 }
    {
        let Some(number) = pass.in_hand() else {
            return self.reserve(pass, probe, steps);
        };
        match probe.next {
            Next::Reserve | Next::StoreScore => {
                self.store_score(pass, probe, number, answer, steps)
            }
            Next::StoreChoice => self.store_choice(pass, probe, number, answer, steps),
            Next::Publish => self.name_record(pass, probe, number, steps),
            Next::Key | Next::Claim | Next::RecordWord => unreachable!(),
            Next::Choice(_) | Next::Score(_) | Next::Done => unreachable!(),
        }
    }

    /// Reserves a record.
    fn reserve<L: Ledger>(
        &self,
        pass: &mut Pass,
        probe: &mut Probe,
        steps: &mut Steps<L>,
    ) -> Publish
        requires own { IsPassOf self.now pass.old }
        requires none { hand_of pass.old ≡ None }
        requires reserve { probe.old.next ≡ next.Reserve }
        requires follows { Follows probe.old pass.old }
        ensures published { IsPublished self.now pass.old pass.new probe.old probe.new result }
        ensures told { HasTold pass.old pass.new }
        ensures steps { steps_made steps.new ≡ steps_made steps.old + 1 }
    {
        let _number = reserve_step(&self.words, pass, steps);
        probe.next = Next::StoreScore;
        Publish::Going
    }

    /// Stores the score of the answer in the record in hand.
    fn store_score<L: Ledger>(
        &self,
        pass: &mut Pass,
        probe: &mut Probe,
        number: u32,
        answer: Answer,
        steps: &mut Steps<L>,
    ) -> Publish
        requires own { IsPassOf self.now pass.old }
        requires hand { IsHand pass.old number }
        requires score { (probe.old.next ≡ next.Reserve) ⊎ (probe.old.next ≡ next.StoreScore) }
        requires follows { Follows probe.old pass.old }
        requires answer { IsAnswer (problem_of self.now) probe.old.cell answer }
        ensures published { IsPublished self.now pass.old pass.new probe.old probe.new result }
        ensures told { HasTold pass.old pass.new }
        ensures steps { steps_made steps.new ≡ steps_made steps.old + 1 }
    {
        self.planned();
        answers_have_words();
        let code = score_word(answer);
        write_step(&self.words, pass, Part::Score, number, code, steps);
        probe.next = Next::StoreChoice;
        Publish::Going
    }

    /// Stores the alternative and the cuts of the answer in the record in hand.
    fn store_choice<L: Ledger>(
        &self,
        pass: &mut Pass,
        probe: &mut Probe,
        number: u32,
        answer: Answer,
        steps: &mut Steps<L>,
    ) -> Publish
        requires own { IsPassOf self.now pass.old }
        requires hand { IsHand pass.old number }
        requires choice { probe.old.next ≡ next.StoreChoice }
        requires follows { Follows probe.old pass.old }
        requires answer { IsAnswer (problem_of self.now) probe.old.cell answer }
        ensures published { IsPublished self.now pass.old pass.new probe.old probe.new result }
        ensures told { HasTold pass.old pass.new }
        ensures steps { steps_made steps.new ≡ steps_made steps.old + 1 }
    {
        self.planned();
        answers_have_words();
        answer_is_unique();
        let code = choice_word(answer);
        write_step(&self.words, pass, Part::Choice, number, code, steps);
        probe.next = Next::Publish;
        Publish::Going
    }

    /// Puts the name of the record in hand into the cell's record word, unless another name stands there.
    fn name_record<L: Ledger>(
        &self,
        pass: &mut Pass,
        probe: &mut Probe,
        number: u32,
        steps: &mut Steps<L>,
    ) -> Publish
        requires own { IsPassOf self.now pass.old }
        requires hand { IsHand pass.old number }
        requires publish { probe.old.next ≡ next.Publish }
        requires follows { Follows probe.old pass.old }
        requires children { (child : Cell) → IsDemandedChild (problem_of self.now) probe.old.cell child
            → knows pass.old child }
        ensures published { IsPublished self.now pass.old pass.new probe.old probe.new result }
        ensures told { HasTold pass.old pass.new }
        ensures steps { steps_made steps.new ≡ steps_made steps.old + 1 }
    {
        let position = self.position(probe);
        let found = self
            .words
            .record_exchange_step(pass, position, number, steps);
        probe.next = Next::Done;
        if found == 0 {
            Publish::Won
        } else {
            Publish::Lost
        }
    }
}
