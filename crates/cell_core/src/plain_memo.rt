//! A memo of one evaluator, whose records stand in its pass.

ghost use Rattle.std.specs.Prelude.{◌≡◌};
ghost use Rattle.cell_core.specs.PlainScores.{score_in};

use adp_model::laws::cells::{places_are_unique, places_tell_cells_apart};
use adp_model::laws::demand::demanded_cells_are_counted;
use adp_model::{Answer, Cell, Problem};
use cell_layouts::{Places, places};
use memo_model::{Look, Memo, Publish, Stage, Steps};
use std::alloc::{AllocError, Global};
use std::marker::Model;
use std::sync::ledger::Ledger;

/// The answer of a cell.
#[derive(Clone, Copy)]
pub struct Record {
    pub cell: Cell,
    pub answer: Answer,
}

/// A step on a record: its place, whether a record was to be put there, and the answer that was found there.
#[derive(Clone, Copy)]
pub struct Access {
    pub place: u32,
    pub exchanges: bool,
    pub found: Option<Answer>,
}

/// A memo of a problem's answers for one evaluator: it tells where the pass has them. Contracts see it as the problem.
#[derive(Drop)]
pub struct PlainMemo<'a> {
    problem: &'a Problem<'a>,
    places: Places<'a>,
}

impl<'a> Model for PlainMemo<'a> {
    ghost use Rattle.std.specs.Prelude.{◌≡◌};
    ghost use Rattle.adp_model.specs.PosedProblem.{PosedProblem};

    ghost Value = { PosedProblem };

    ghost use Rattle.adp_model.specs.WideForm.{form_code};
    ghost use Rattle.std.specs.Coded.{codes};

    ghost coded = { Prim.hlevel (codes, form_code) };

    ghost view = { λ memo. memo.problem.now };

    ghost invariant = { λ memo. memo.places ≡ memo.problem.now };
}

/// The one pass of a plain memo: for each place of a counted cell the cell's record, once it is published. Contracts
/// see it as the problem, the records and the last step.
#[derive(Drop)]
pub struct PlainPass<'a> {
    problem: &'a Problem<'a>,
    records: Vec<Option<Record>>,
    last: Option<Access>,
}

impl<'a> Model for PlainPass<'a> {
    ghost use Rattle.cell_core.specs.PlainMemos.{PlainState, AreRecords};

    ghost Value = { PlainState };

    ghost use Rattle.adp_model.specs.WideForm.{form_code};
    ghost use Rattle.std.specs.Coded.{codes};

    ghost coded = { Prim.hlevel (codes, form_code) };

    ghost view = { λ pass.
        record { problem = pass.problem.now; records = pass.records.items; last = pass.last } };

    ghost invariant = { λ pass. AreRecords pass.problem.now pass.records.items };
}

/// A demanded cell that is looked up in a plain memo, and how far that has come.
#[derive(Drop)]
pub struct PlainProbe<'a> {
    problem: &'a Problem<'a>,
    cell: Cell,
    stage: Stage,
}

impl<'a> PlainMemo<'a> {
    ghost use Rattle.std.specs.Prelude.{◌≡◌, ◌<◌, IfOk, None, length};
    ghost use Rattle.adp_model.specs.declared.cell.Cell.{Cell};
    ghost use Rattle.adp_model.specs.Cells.{IsCounted, IsPlaceOf};
    ghost use Rattle.cell_core.specs.PlainMemos.{AreRecords, Follows, plain_meaning};

    /// The memo of a problem and its pass, which knows no cell. Fails for want of memory alone.
    pub fn new(
        alloc: Global,
        problem: &'a Problem<'a>,
    ) -> Result<(PlainMemo<'a>, PlainPass<'a>), AllocError>
        ensures problem { IfOk result (λ made. made.0 ≡ problem.now) }
        ensures own { IfOk result (λ made. made.1.problem ≡ problem.now) }
        ensures none { IfOk result (λ made. (cell : Cell) → plain_meaning.known made.1 cell → ⊥) }
        ensures wins { IfOk result (λ made. plain_meaning.wins made.1 ≡ 0) }
        ensures last { IfOk result (λ made. made.1.last ≡ None) }
    {
        let places = places(alloc, problem)?;
        let records = vec![in alloc; None; problem.cells as usize]?;
        let memo = PlainMemo { problem, places };
        let pass = PlainPass {
            problem,
            records,
            last: None,
        };
        Ok((memo, pass))
    }

    /// Where the pass has the record of a probe's cell.
    fn place(&self, pass: &PlainPass<'a>, probe: &PlainProbe<'a>) -> u32
        requires own { pass.now.problem ≡ self.now }
        requires follows { Follows probe.now pass.now }
        ensures counted { IsCounted self.now.grammar (length self.now.word) probe.now.cell }
        ensures place { IsPlaceOf self.now.grammar (length self.now.word) probe.now.cell result }
        ensures inside { result < length pass.now.records }
        ensures records { AreRecords self.now pass.now.records }
    {
        demanded_cells_are_counted();
        self.problem.admissible();
        pass.are_right();
        self.places.place(probe.cell)
    }
}

impl<'a> PlainPass<'a> {
    ghost use Rattle.std.specs.Prelude.{◌≡◌, ◌<◌, Some, length, slice_set};
    ghost use Rattle.adp_model.specs.Answers.{IsAnswer};
    ghost use Rattle.adp_model.specs.Cells.{IsCounted, IsPlaceOf};
    ghost use Rattle.cell_core.specs.PlainMemos.{AreRecords, FoundAt};

    /// The records are those of counted cells, at their places, with their answers. Does nothing when it runs.
    fn are_right(&self)
        ensures { AreRecords self.now.problem self.now.records }
    {
        let _ = &self.problem;
    }

    /// Finds the record at a place, where a record is to be put or not.
    fn find(&mut self, place: u32, exchanges: bool) -> Option<Answer>
        requires { place < length self.old.records }
        ensures problem { self.new.problem ≡ self.old.problem }
        ensures records { self.new.records ≡ self.old.records }
        ensures last { self.new.last ≡ Some (record { place = place; exchanges = exchanges; found = result }) }
        ensures found { FoundAt self.old.records place result }
    {
        let found = match self.records[place as usize] {
            Some(it) => Some(it.answer),
            None => None,
        };
        self.last = Some(Access {
            place,
            exchanges,
            found,
        });
        found
    }

    /// Puts the record of a counted cell at its place.
    fn put(&mut self, place: u32, it: Record)
        requires counted { IsCounted self.old.problem.grammar (length self.old.problem.word) it.cell }
        requires place { IsPlaceOf self.old.problem.grammar (length self.old.problem.word) it.cell place }
        requires within { place < length self.old.records }
        requires answer { IsAnswer self.old.problem it.cell it.answer }
        ensures problem { self.new.problem ≡ self.old.problem }
        ensures records { self.new.records ≡ slice_set self.old.records place (Some it) }
        ensures last { self.new.last ≡ self.old.last }
    {
        self.records[place as usize] = Some(it);
    }
}

/// The score of an answer.
fn score(answer: Answer) -> Option<i64>
    ensures { result ≡ score_in answer }
{
    match answer {
        Answer::NoCandidate => None,
        Answer::Best { score, .. } => Some(score),
    }
}

impl<'a> Memo for PlainMemo<'a> {
    ghost use Rattle.std.specs.Prelude.{◌≡◌, true};
    ghost use Rattle.cell_core.specs.PlainMemos.{plain_meaning, plain_probe_is_demanded, plain_probe_follows_on};

    type Pass = PlainPass<'a>;

    type Probe = PlainProbe<'a>;

    ghost problem = { λ memo. memo };

    ghost fresh_loads = { λ memo. true };

    ghost is_of = { λ memo pass. pass.problem ≡ memo };

    ghost meaning = { plain_meaning };

    ghost goes_on = { λ before after. after.problem ≡ before.problem };

    fn probe(&self, cell: Cell) -> PlainProbe<'a> {
        PlainProbe {
            problem: self.problem,
            cell,
            stage: Stage::Open,
        }
    }

    fn loads_record_word(&self, _probe: &PlainProbe<'a>) -> bool {
        true
    }

    fn look_step<L: Ledger>(
        &self,
        pass: &mut PlainPass<'a>,
        probe: &mut PlainProbe<'a>,
        steps: &mut Steps<L>,
    ) -> Look {
        places_are_unique();
        places_tell_cells_apart();
        let place = self.place(pass, probe);
        steps.count();
        match pass.find(place, false) {
            None => {
                probe.stage = Stage::Unpublished;
                Look::Unpublished
            }
            Some(answer) => {
                probe.stage = Stage::Done;
                Look::Found(score(answer))
            }
        }
    }

    fn publish_step<L: Ledger>(
        &self,
        pass: &mut PlainPass<'a>,
        probe: &mut PlainProbe<'a>,
        answer: Answer,
        steps: &mut Steps<L>,
    ) -> Publish {
        places_are_unique();
        places_tell_cells_apart();
        let place = self.place(pass, probe);
        steps.count();
        probe.stage = Stage::Done;
        match pass.find(place, true) {
            Some(_) => Publish::Lost,
            None => {
                pass.put(
                    place,
                    Record {
                        cell: probe.cell,
                        answer,
                    },
                );
                Publish::Won
            }
        }
    }

    ghost probe_is_demanded = { plain_probe_is_demanded };

    ghost follows_on = { plain_probe_follows_on };
}
