ghost use Rattle.std.specs.Prelude.{◌≡◌, ◌↔◌, ◌<◌, ℕ, IsTrue, IsSome, IfSome, MatchOption};
ghost use Rattle.adp_model.specs.declared.cell.Answer.{Answer};
ghost use Rattle.adp_model.specs.declared.cell.Cell.{Cell};
ghost use Rattle.memo_words.specs.Codes.{HasCellCode};
ghost use Rattle.memo_table.specs.AnswerWords.{answer_of};

use crate::laws::{answers_have_words, demanded_cells_have_codes, each_position_is_reached};
use adp_model::{Answer, Answers, Cell, Choice};
use memo_words::{Rest, Words, cell_code, code_choice, code_score, codes_tell_apart, nth_position};
use std::marker::Model;
use std::snapshot::Snapshot;

/// The answers of a problem's demanded cells, in a table that no pass fills any more. Contracts see what the table was
/// made for and its last words.
#[derive(Drop)]
pub struct Closed {
    pub(crate) rest: Rest,
    pub(crate) bits: u32,
    pub(crate) made_for: Snapshot<Words>,
}

impl Model for Closed {
    ghost use Rattle.memo_table.specs.ClosedTables.{ClosedTable, closed_table, IsClosedTable};

    ghost Value = { ClosedTable };

    ghost use Rattle.adp_model.specs.WideForm.{form_code};
    ghost use Rattle.std.specs.Coded.{codes};

    ghost coded = { Prim.hlevel (codes, form_code) };

    ghost view = { closed_table };

    ghost invariant = { IsClosedTable };
}

/// Whether the numbers of the cell fit a key word. Those of each demanded cell do.
fn has_code(cell: Cell) -> bool
    ensures { IsTrue result ↔ HasCellCode cell }
{
    cell.rule < 128 && cell.from <= 4000 && cell.to <= 4000
}

/// The answer with this score and this choice. Without one of them there is no candidate.
fn answer_of(score: Option<i64>, choice: Option<Choice>) -> Answer
    ensures { result ≡ answer_of score choice }
{
    match (score, choice) {
        (Some(score), Some(choice)) => Answer::Best { score, choice },
        _ => Answer::NoCandidate,
    }
}

impl Closed {
    ghost use Rattle.adp_model.specs.ProblemFields.{IsAdmissible};
    ghost use Rattle.memo_words.specs.Layout.{IsPlanned, records_of};
    ghost use Rattle.memo_words.specs.Passes.{rest_words};
    ghost use Rattle.memo_table.specs.AnswerWords.{HasAnswerWords};
    ghost use Rattle.memo_table.specs.ClosedTables.{IsSettled, IsAt, IsNowhere, AreWordsOf};

    /// The problem was admitted. Does nothing when it runs.
    pub fn admissible(&self)
        ensures { IsAdmissible self.now.plan.problem }
    {
        let _ = &self.rest;
    }

    /// What is left of the rule of the table. Does nothing when it runs.
    fn settled(&self)
        ensures planned { IsPlanned self.now.plan }
        ensures admissible { IsAdmissible self.now.plan.problem }
        ensures settled { IsSettled self.now.plan self.now.words }
    {
        let _ = &self.rest;
    }

    /// The position at which the code stands, `None` where it stands at none.
    fn find(&self, code: u64) -> Option<u32>
        requires { 0 < code }
        ensures { MatchOption result (IsNowhere self.now code) (λ position. IsAt self.now code position) }
    {
        self.settled();
        each_position_is_reached();
        let slots = self.rest.slots();
        for turn in 0..slots {
            let position = nth_position(code, self.bits, turn);
            let key = self.rest.key(position);
            if key == code {
                return Some(position);
            }
            if key == 0 {
                return None;
            }
        }
        None
    }

    /// The answer whose words stand in the record.
    fn read(&self, number: u32) -> Answer
        requires inside { number < records_of self.now.plan }
        requires words { (answer : Answer) × HasAnswerWords answer × AreWordsOf self.now number answer }
        ensures { (answer : Answer) → HasAnswerWords answer → AreWordsOf self.now number answer → result ≡ answer }
    {
        let score = code_score(self.rest.score(number));
        let choice = code_choice(self.rest.choice(number));
        answer_of(score, choice)
    }

    /// The last words. Takes no memory.
    pub fn words(&self) -> &Rest
        ensures { rest_words result.now ≡ self.now.words }
    {
        &self.rest
    }
}

impl Answers for Closed {
    ghost use Rattle.adp_model.specs.Answers.{IsAnswer};
    ghost use Rattle.adp_model.specs.Demand.{IsDemanded};
    ghost use Rattle.memo_words.specs.Kept.{IsPublished};

    ghost problem = { λ closed. closed.plan.problem };

    fn answer(&self, cell: Cell) -> Option<Answer>
        ensures told { IfSome result (λ answer. IsAnswer self.now.plan.problem cell answer) }
        ensures demanded { IsDemanded self.now.plan.problem cell → IsSome result }
        ensures only { IsSome result → IsDemanded self.now.plan.problem cell }
        ensures published { IsSome result ↔ IsPublished self.now.plan self.now.words cell }
    {
        self.settled();
        demanded_cells_have_codes();
        answers_have_words();
        codes_tell_apart();
        if !has_code(cell) {
            return None;
        }
        let position = self.find(cell_code(cell))?;
        let name = self.rest.record_word(position);
        if name == 0 {
            return None;
        }
        Some(self.read((name - 1) as u32))
    }
}
