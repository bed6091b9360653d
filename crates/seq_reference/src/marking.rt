//! Marks of cells, with notes of the tails that were looked through.

ghost use Rattle.std.specs.Prelude.{◌≡◌, ◌↔◌, ◌<◌, IfOk, IfSome, IsTrue, None, ℕ, length};
ghost use Rattle.adp_model.specs.declared.cell.Cell.{Cell};
ghost use Rattle.adp_model.specs.PosedProblem.{IsSpan};
ghost use Rattle.adp_model.specs.Cells.{IsCounted};
ghost use Rattle.adp_model.specs.Demand.{IsDemandedChild};
ghost use Rattle.cell_tables.specs.Marks.{AreInRows, AreMarkedFrom, AreMarkedToo, IsLastMarked, IsMarked};
ghost use Rattle.cell_tables.specs.Marks.{IsMarkedInRow, IsSpanMarked};

use adp_model::Cell;
use cell_demands::{Tails, mark_children_noting, notes_stay_true};
use cell_tables::Marks;
use split_lines::Lines;
use std::alloc::{AllocError, Global};
use std::marker::Model;

/// Marks of cells, with notes of the tails that were looked through. Contracts see the marks.
#[derive(Drop)]
pub(crate) struct Marking<'a> {
    marks: Marks<'a>,
    tails: Tails,
}

impl<'a> Model for Marking<'a> {
    ghost use Rattle.cell_tables.specs.Marks.{CellMarks};

    ghost Value = { CellMarks };

    ghost use Rattle.adp_model.specs.WideForm.{form_code};
    ghost use Rattle.std.specs.Coded.{codes};

    ghost coded = { Prim.hlevel (codes, form_code) };

    ghost use Rattle.cell_demands.specs.TailNotes.{AreTrue};

    ghost view = { λ marking. marking.marks };

    ghost invariant = { λ marking. AreTrue marking.marks.problem marking.marks marking.tails };
}

impl<'a> Marking<'a> {
    /// These marks, where nothing is noted yet. Fails for want of memory alone.
    pub(crate) fn new(
        alloc: Global,
        lines: &Lines<'_>,
        marks: Marks<'a>,
    ) -> Result<Marking<'a>, AllocError>
        ensures { IfOk result (λ marking. marking ≡ marks.entry) }
    {
        let tails = Tails::new(alloc, lines)?;
        Ok(Marking { marks, tails })
    }

    /// The marks.
    pub(crate) fn into_marks(self) -> Marks<'a>
        ensures { result ≡ self.entry }
    {
        self.marks
    }

    /// Whether the cell is marked in its row.
    pub(crate) fn is_marked_in_row(&self, cell: Cell) -> bool
        ensures { IsTrue result ↔ IsMarkedInRow self.now cell }
    {
        self.marks.is_marked_in_row(cell)
    }

    /// The last end before `below` of the spans from `from` of which a cell is marked in its row.
    pub(crate) fn last_marked(&self, rules: &[u32], from: u16, below: u16) -> Option<u16>
        ensures none { result ≡ None → (to : ℕ) → to < below → IsSpanMarked self.now rules.now from to → ⊥ }
        ensures last { IfSome result (IsLastMarked self.now rules.now from below) }
    {
        self.marks.last_marked(rules, from, below)
    }

    /// Marks the cells that begin at `from` and are marked in their columns in their rows too.
    pub(crate) fn gather(&mut self, from: u16)
        ensures same { AreMarkedToo self.old self.new (λ cell. ⊥) }
        ensures gathered { AreInRows self.new (λ cell. (cell.from ≡ from) × IsMarked self.old cell) }
    {
        notes_stay_true();
        self.marks.gather(from);
    }

    /// Marks the demanded children of a cell; those that begin where it begins are marked in their rows.
    pub(crate) fn mark_children(&mut self, lines: &Lines<'_>, cell: Cell)
        requires rule { cell.rule < length lines.now.grammar.rules }
        requires span { IsSpan lines.now.word cell.from cell.to }
        requires same_problem { self.old.problem ≡ lines.now }
        requires counted { (child : Cell) → IsDemandedChild lines.now cell child
            → IsCounted lines.now.grammar (length lines.now.word) child }
        ensures { AreMarkedFrom cell.from self.old self.new (IsDemandedChild lines.now cell) }
    {
        mark_children_noting(lines, cell, &mut self.tails, &mut self.marks);
    }
}
