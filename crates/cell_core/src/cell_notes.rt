//! The notes of a machine, in rows and columns.

ghost use Rattle.std.specs.Prelude.{◌≡◌, IfOk, IfSome};
ghost use Rattle.std.specs.Arc.{arc_value};
ghost use Rattle.adp_model.specs.declared.cell.Cell.{Cell as AnyCell};
ghost use Rattle.cell_tables.specs.Noted.{IsNoted};

use crate::notes::Notes;
use adp_model::laws::demand::demanded_cells_are_counted;
use adp_model::{Answer, Cell, Problem};
use argument_search::{NotedCells, seek};
use cell_answers::{KeptEnds, Scores, Tails, cell_answer_noting};
use cell_tables::Noted;
use memo_model::{Position, Visit};
use split_lines::{Lines, Prepared};
use std::alloc::{AllocError, Global};
use std::marker::Model;
use std::sync::Arc;

/// Tells of no cell that it is noted.
struct NothingNoted;

impl NotedCells for NothingNoted {
    ghost is_noted = { λ _ _. ⊥ };

    fn has(&self, _cell: Cell) -> bool {
        false
    }

    fn noted_ends(&self, _rule: u32, _from: u16, first: u16, _past: u16, _bits: &[u64]) -> u16 {
        first
    }

    fn noted_starts(&self, _rule: u32, _to: u16, first: u16, _past: u16, _bits: &[u64]) -> u16 {
        first
    }
}

/// Which cells a machine has noted, their scores, and what the tails of alternatives are worth. Where `skips` isn't set
/// the search for the next argument doesn't pass over noted ones. Contracts see the notes as the problem and the bits.
#[derive(Drop)]
pub(crate) struct CellNotes<'a> {
    prepared: Arc<Prepared<'a>, Global>,
    noted: Noted<'a>,
    scores: Scores<'a>,
    tails: Tails<'a>,
    skips: bool,
}

impl<'a> Model for CellNotes<'a> {
    ghost use Rattle.std.specs.Prelude.{◌≡◌};
    ghost use Rattle.std.specs.Arc.{arc_value as shared};
    ghost use Rattle.adp_model.specs.declared.cell.Cell.{Cell as OfRule};
    ghost use Rattle.cell_tables.specs.Noted.{Notes as NoteBits, IsNoted};
    ghost use Rattle.cell_answers.specs.Entries.{HasEntry};

    ghost Value = { NoteBits };

    ghost use Rattle.adp_model.specs.WideForm.{form_code};
    ghost use Rattle.std.specs.Coded.{codes};

    ghost coded = { Prim.hlevel (codes, form_code) };

    ghost view = { λ notes. notes.noted };

    ghost invariant = { λ notes. (shared notes.prepared ≡ notes.noted.problem)
        × (notes.scores.problem ≡ notes.noted.problem)
        × (notes.tails ≡ notes.noted.problem)
        × ((cell : OfRule) → IsNoted notes.noted cell → HasEntry notes.scores cell) };
}

impl<'a> CellNotes<'a> {
    /// No cell is noted. Fails for want of memory alone.
    pub(crate) fn new(
        alloc: Global,
        prepared: &Arc<Prepared<'a>, Global>,
    ) -> Result<CellNotes<'a>, AllocError>
        ensures problem { IfOk result (λ notes. notes.problem ≡ arc_value prepared.now) }
        ensures none { IfOk result (λ notes. (cell : AnyCell) → IsNoted notes cell → ⊥) }
    {
        let layout = prepared.layout();
        let noted = Noted::new(alloc, layout)?;
        let scores = Scores::new(alloc, layout)?;
        let lines = prepared.lines();
        let tails = Tails::new(alloc, lines, KeptEnds::All)?;
        let prepared = Arc::try_clone(prepared)?;
        Ok(CellNotes {
            prepared,
            noted,
            scores,
            tails,
            skips: true,
        })
    }

    /// No cell is noted, in the memory of other notes of the problem, where there are some. Fails for want of memory
    /// alone.
    pub(crate) fn over(
        alloc: Global,
        prepared: &Arc<Prepared<'a>, Global>,
        kept: Option<CellNotes<'a>>,
    ) -> Result<CellNotes<'a>, AllocError>
        requires { IfSome kept (λ notes. notes.problem ≡ arc_value prepared.now) }
        ensures problem { IfOk result (λ notes. notes.problem ≡ arc_value prepared.now) }
        ensures none { IfOk result (λ notes. (cell : AnyCell) → IsNoted notes cell → ⊥) }
    {
        match kept {
            Some(notes) => notes.emptied(alloc),
            None => CellNotes::new(alloc, prepared),
        }
    }

    /// These notes without a cell. What tails are worth stays noted, since it is true of the problem.
    fn emptied(self, alloc: Global) -> Result<CellNotes<'a>, AllocError>
        ensures problem { IfOk result (λ notes. notes.problem ≡ self.entry.problem) }
        ensures none { IfOk result (λ notes. (cell : AnyCell) → IsNoted notes cell → ⊥) }
    {
        let CellNotes {
            prepared,
            noted: _,
            scores,
            tails,
            skips: _,
        } = self;
        let noted = Noted::new(alloc, prepared.layout())?;
        Ok(CellNotes {
            prepared,
            noted,
            scores,
            tails,
            skips: true,
        })
    }

    /// Sets whether the search for the next argument passes over noted ones. Takes no memory.
    pub(crate) fn set_skips(&mut self, skips: bool)
        ensures { self.new ≡ self.old }
    {
        self.skips = skips;
    }

    /// The problem. Takes no memory.
    pub(crate) fn problem(&self) -> &'a Problem<'a>
        ensures { result.now ≡ self.now.problem }
    {
        self.prepared.problem()
    }

    /// The lines of its splits. Takes no memory.
    fn lines(&self) -> &Lines<'a>
        ensures { result.now ≡ self.now.problem }
    {
        self.prepared.lines()
    }

    /// Which cells are noted. Takes no memory.
    fn noted(&self) -> &Noted<'a>
        ensures { result.now ≡ self.now }
    {
        &self.noted
    }
}

impl<'a> Notes for CellNotes<'a> {
    ghost use Rattle.cell_tables.specs.Noted.{IsNoted};

    ghost problem = { λ notes. notes.problem };

    ghost noted = { IsNoted };

    fn note(&mut self, cell: Cell, score: Option<i64>) {
        self.problem().admissible();
        demanded_cells_are_counted();
        self.scores.keep(cell, score);
        self.noted.note(cell);
    }

    fn answer(&mut self, cell: Cell) -> Answer {
        self.problem().admissible();
        demanded_cells_are_counted();
        let lines = self.prepared.lines();
        cell_answer_noting(lines, &self.scores, &mut self.tails, cell)
    }

    fn next_argument(&self, visit: Visit) -> Option<(Position, Cell)> {
        let problem = self.problem();
        problem.admissible();
        demanded_cells_are_counted();
        let lines = self.lines();
        let noted = self.noted();
        if self.skips {
            return seek(lines, problem, noted, visit);
        }
        seek(lines, problem, &NothingNoted, visit)
    }
}
