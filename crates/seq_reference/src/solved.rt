ghost use Rattle.std.specs.Prelude.{◌≡◌, ◌↔◌, IfSome, IsSome, MatchOption, Some, length, true};
ghost use Rattle.adp_model.specs.declared.cell.Answer.TheVariants.{NoCandidate};
ghost use Rattle.adp_model.specs.declared.cell.Cell.{Cell};
ghost use Rattle.adp_model.specs.Answers.{IsAnswer};
ghost use Rattle.adp_model.specs.Bellman.{HasBestScore};
ghost use Rattle.adp_model.specs.Demand.{IsDemanded, IsDemandedCount};
ghost use Rattle.cell_answers.specs.Entries.{HasEntry};
ghost use Rattle.cell_tables.specs.Marks.{IsMarkedInRow};

use adp_model::laws::demand::demanded_cells_are_counted;
use adp_model::{Answer, Answers, Cell};
use cell_answers::{Scores, kept_answer};
use cell_tables::Marks;
use split_lines::Prepared;
use std::marker::Model;

/// The answers of a problem's demanded cells. Contracts see it as the problem.
#[derive(Drop)]
pub struct Solved<'a> {
    prepared: Prepared<'a>,
    marks: Marks<'a>,
    scores: Scores<'a>,
    cells: u64,
}

impl<'a> Model for Solved<'a> {
    ghost use Rattle.adp_model.specs.PosedProblem.{PosedProblem};

    ghost Value = { PosedProblem };

    ghost use Rattle.adp_model.specs.WideForm.{form_code};
    ghost use Rattle.std.specs.Coded.{codes};

    ghost coded = { Prim.hlevel (codes, form_code) };

    ghost use Rattle.seq_reference.specs.SolvedFields.{AreSolved};

    ghost view = { λ solved. solved.prepared };

    ghost invariant = { AreSolved };
}

impl<'a> Solved<'a> {
    /// The solution of a prepared problem, with these marks in rows and scores of the demanded cells, and their number.
    pub(crate) fn new(
        prepared: Prepared<'a>,
        marks: Marks<'a>,
        scores: Scores<'a>,
        cells: u64,
    ) -> Solved<'a>
        requires same_problem { scores.problem ≡ prepared }
        requires marked { (cell : Cell) → IsMarkedInRow marks cell ↔ IsDemanded prepared cell }
        requires scored { (cell : Cell) → IsDemanded prepared cell → HasEntry scores cell }
        requires counted { IsDemandedCount prepared cells }
        ensures { result ≡ prepared.entry }
    {
        Solved {
            prepared,
            marks,
            scores,
            cells,
        }
    }

    /// The prepared problem. Takes no memory.
    pub fn prepared(&self) -> &Prepared<'a>
        ensures { result.now ≡ self.now }
    {
        &self.prepared
    }

    /// How many cells are demanded. Takes no memory.
    pub fn cells(&self) -> u64
        ensures { IsDemandedCount self.now result }
    {
        self.cells
    }

    /// The best score of a demanded cell, `Some(None)` where it has no candidate; `None` for every other cell. Takes
    /// constant time and no memory.
    pub fn score(&self, cell: Cell) -> Option<Option<i64>>
        ensures told { IfSome result (λ score. MatchOption score (IsAnswer self.now cell NoCandidate)
            (HasBestScore self.now cell)) }
        ensures demanded { IsSome result ↔ IsDemanded self.now cell }
    {
        self.prepared.problem().admissible();
        demanded_cells_are_counted();
        if self.marks.is_marked_in_row(cell) {
            Some(self.scores.score(cell))
        } else {
            None
        }
    }
}

impl<'a> Answers for Solved<'a> {
    ghost problem = { λ problem. problem };

    /// The answer of a demanded cell, found again from the scores of those that it demands, and `None` for every other
    /// cell.
    fn answer(&self, cell: Cell) -> Option<Answer>
        ensures told { IfSome result (λ answer. IsAnswer self.now cell answer) }
        ensures demanded { IsDemanded self.now cell → IsSome result }
        ensures only { IsSome result → IsDemanded self.now cell }
    {
        self.prepared.problem().admissible();
        demanded_cells_are_counted();
        if self.marks.is_marked_in_row(cell) {
            Some(kept_answer(self.prepared.lines(), &self.scores, cell))
        } else {
            None
        }
    }
}
