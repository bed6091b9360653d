//! Where the counted cells of a problem lie in rows and in columns.

ghost use Rattle.std.specs.Prelude.{◌≡◌, ◌↔◌, ◌<◌, ◌≤◌, ◌+◌, IfOk, IsTrue, length};
ghost use Rattle.std.specs.Arc.{arc_value};
ghost use Rattle.adp_model.specs.Cells.{AreCountedEnds, IsCellBound, IsCounted};
ghost use Rattle.cell_layouts.specs.Layout.{AreCountedBlocks, AreCountedWords, ArePlaced, IsLaidOut};
ghost use Rattle.cell_layouts.specs.declared.layout.Side.TheVariants.{Rows as RowSide, Columns as ColumnSide};

use crate::laid_out::LaidOut;
use adp_model::laws::cells::places_go_on;
use adp_model::laws::well_formed::numbers_fit_together;
use adp_model::{Cell, Problem};
use std::alloc::{AllocError, Global};
use std::marker::Model;
use std::ops::Range;
use std::sync::Arc;

/// Rows go by starts and have the ends side by side, columns go by ends and have the starts side by side.
#[derive(Clone, Copy)]
pub enum Side {
    Rows,
    Columns,
}

/// What is kept for a rule and a near end: that of the far ends from `first` on and before `past` stands side by side
/// from `place` on.
#[derive(Clone, Copy)]
pub struct Block {
    pub place: u32,
    pub first: u16,
    pub past: u16,
}

/// The blocks of all rules and near ends, rule by rule, one behind the other, and how much is kept in all of them.
#[derive(Drop)]
pub struct Laid {
    pub blocks: Vec<Block>,
    pub count: u32,
}

/// Where what is kept of the counted cells of a problem lies in rows and in columns: what is laid out for words of its
/// grammar that are as long as its word. It is worked out once; what is kept of the cells counts its blocks up and
/// copies none. Contracts see it as the problem.
#[derive(Drop)]
pub struct Layout<'a> {
    problem: &'a Problem<'a>,
    laid: LaidOut,
}

impl<'a> Model for Layout<'a> {
    ghost use Rattle.adp_model.specs.PosedProblem.{PosedProblem};

    ghost Value = { PosedProblem };

    ghost use Rattle.std.specs.Prelude.{length};
    ghost use Rattle.cell_layouts.specs.Layout.{IsLaidOut};
    ghost use Rattle.adp_model.specs.WideForm.{form_code};
    ghost use Rattle.std.specs.Coded.{codes};

    ghost coded = { Prim.hlevel (codes, form_code) };

    ghost view = { λ layout. layout.problem.now };

    ghost invariant = { λ layout.
        IsLaidOut layout.problem.now.grammar (length layout.problem.now.word) layout.laid };
}

impl<'a> Layout<'a> {
    /// Works it out, in constant time for each rule and position. Fails for want of memory alone.
    pub fn new(alloc: Global, problem: &'a Problem<'a>) -> Result<Layout<'a>, AllocError>
        ensures { IfOk result (λ layout. layout ≡ problem.now) }
    {
        Ok(Layout {
            problem,
            laid: LaidOut::new(alloc, problem)?,
        })
    }

    /// The layout of a problem by what was laid out for a word of its grammar that is as long. Takes no memory.
    pub fn over(problem: &'a Problem<'a>, laid: LaidOut) -> Layout<'a>
        requires { IsLaidOut problem.now.grammar (length problem.now.word) laid }
        ensures { result ≡ problem.now }
    {
        Layout { problem, laid }
    }

    /// The same layout once more: it is counted up, and nothing is copied. Fails where it was counted up too often.
    pub fn shared(&self) -> Result<Layout<'a>, AllocError>
        ensures { IfOk result (λ layout. layout ≡ self.now) }
    {
        Ok(Layout {
            problem: self.problem,
            laid: self.laid.shared()?,
        })
    }

    /// What is laid out, once more, for other words of the grammar that are as long: it is counted up, and nothing is
    /// copied. Fails where it was counted up too often.
    pub fn laid(&self) -> Result<LaidOut, AllocError>
        ensures { IfOk result (IsLaidOut self.now.grammar (length self.now.word)) }
    {
        self.laid.shared()
    }

    /// The problem. Takes no memory.
    pub fn problem(&self) -> &'a Problem<'a>
        ensures { result.now ≡ self.now }
    {
        self.problem
    }

    /// How many positions the word has: one more than letters.
    pub fn positions(&self) -> u32
        ensures same { result ≡ length self.now.word + 1 }
        ensures few { result ≤ 4001 }
    {
        self.problem.letters().len() as u32 + 1
    }

    /// The blocks of the counted cells in rows, which stand at their places. Takes no memory.
    pub fn rows(&self) -> &Arc<Laid, Global>
        ensures blocks { AreCountedBlocks self.now.grammar (length self.now.word) RowSide
            (arc_value result.now).count (arc_value result.now).blocks.items }
        ensures places { ArePlaced self.now.grammar (length self.now.word) (arc_value result.now).blocks.items }
        ensures count { IsCellBound self.now.grammar (length self.now.word) (arc_value result.now).count }
    {
        places_go_on();
        &self.laid.rows
    }

    /// The blocks of the counted cells in columns. Takes no memory.
    pub fn columns(&self) -> &Arc<Laid, Global>
        ensures { AreCountedBlocks self.now.grammar (length self.now.word) ColumnSide
            (arc_value result.now).count (arc_value result.now).blocks.items }
    {
        &self.laid.columns
    }

    /// The blocks of the numbers that hold a bit for each counted cell, in rows or in columns. Takes no memory.
    pub fn words(&self, side: Side) -> &Arc<Laid, Global>
        ensures { AreCountedWords self.now.grammar (length self.now.word) side
            (arc_value result.now).count (arc_value result.now).blocks.items }
    {
        match side {
            Side::Rows => &self.laid.row_words,
            Side::Columns => &self.laid.column_words,
        }
    }

    /// The ends of the counted cells of a rule that begin at `from`, in order; an empty range where there is none.
    /// Takes constant time and no memory.
    pub fn ends(&self, rule: u32, from: u16) -> Range<u16>
        requires rule { rule < length self.now.grammar.rules }
        requires from { from ≤ length self.now.word }
        ensures ends { AreCountedEnds self.now.grammar (length self.now.word) rule from result.start result.end }
        ensures in_order { result.start ≤ result.end }
    {
        numbers_fit_together();
        let number = rule as usize * self.positions() as usize + from as usize;
        let block = self.laid.rows.blocks[number];
        block.first..block.past
    }

    /// Whether the cell is one that the cell bound counts. Takes constant time and no memory.
    pub fn counts(&self, cell: Cell) -> bool
        ensures { IsTrue result ↔ IsCounted self.now.grammar (length self.now.word) cell }
    {
        let problem = self.problem;
        let rules = problem.grammar.rules.as_slice().len();
        if cell.rule as usize >= rules || u32::from(cell.from) >= self.positions() {
            return false;
        }
        let ends = self.ends(cell.rule, cell.from);
        ends.start <= cell.to && cell.to < ends.end
    }
}
