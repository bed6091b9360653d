//! The cells that are noted.

ghost use Rattle.std.specs.Prelude.{◌≡◌, ◌↔◌, ◌⊎◌, ◌*◌, ◌≤◌, ℕ, IfOk, IsTrue, MatchOption, length};
ghost use Rattle.adp_model.specs.declared.cell.Cell.{Cell};
ghost use Rattle.adp_model.specs.Cells.{IsCounted};
ghost use Rattle.cell_tables.specs.Bits.{IsBitOf, IsFirstMissing};
ghost use Rattle.cell_tables.specs.Noted.{AreNotes, IsNoted, IsNotedAt};

use crate::bits::word_grid;
use crate::grid::Grid;
use adp_model::{Cell, Problem};
use cell_layouts::{Layout, Side};
use std::alloc::{AllocError, Global};
use std::marker::Model;

/// Notes of a problem's counted cells: for each a bit in its row and one in its column, which are set together.
/// Contracts see them as the problem and the bits of rows and columns.
#[derive(Drop)]
pub struct Noted<'a> {
    problem: &'a Problem<'a>,
    rows: Grid<u64>,
    columns: Grid<u64>,
}

impl<'a> Model for Noted<'a> {
    ghost use Rattle.cell_tables.specs.Noted.{Notes};

    ghost Value = { Notes };

    ghost use Rattle.adp_model.specs.WideForm.{form_code};
    ghost use Rattle.std.specs.Coded.{codes};

    ghost coded = { Prim.hlevel (codes, form_code) };

    ghost use Rattle.cell_tables.specs.Noted.{AreNotes};

    ghost view = { λ noted.
        record { problem = noted.problem.now; rows = noted.rows; columns = noted.columns } };

    ghost invariant = { λ noted. AreNotes
        (record { problem = noted.problem.now; rows = noted.rows; columns = noted.columns }) };
}

impl<'a> Noted<'a> {
    /// No cell of the layout's problem is noted. Fails for want of memory alone.
    pub fn new(alloc: Global, layout: &Layout<'a>) -> Result<Noted<'a>, AllocError>
        ensures problem { IfOk result (λ noted. noted.problem ≡ layout.now) }
        ensures none { IfOk result (λ noted. (cell : Cell) → IsNoted noted cell → ⊥) }
    {
        let rows = word_grid(alloc, layout, Side::Rows)?;
        let columns = word_grid(alloc, layout, Side::Columns)?;
        Ok(Noted {
            problem: layout.problem(),
            rows,
            columns,
        })
    }

    /// The problem. Takes no memory.
    pub fn problem(&self) -> &'a Problem<'a>
        ensures { result.now ≡ self.now.problem }
    {
        self.problem
    }

    /// Only counted cells are noted. Does nothing when it runs.
    pub fn cells(&self)
        ensures { AreNotes self.now }
    {
        let _ = &self.problem;
    }

    /// Whether the cell is noted. Takes constant time and no memory.
    pub fn has(&self, cell: Cell) -> bool
        ensures { IsTrue result ↔ IsNoted self.now cell }
    {
        self.rows.is_set(cell.rule, cell.from, cell.to)
    }

    /// Notes a counted cell. Takes constant time and no memory.
    pub fn note(&mut self, cell: Cell)
        requires { IsCounted self.old.problem.grammar (length self.old.problem.word) cell }
        ensures problem { self.new.problem ≡ self.old.problem }
        ensures noted { (other : Cell) → IsNoted self.new other ↔ (IsNoted self.old other ⊎ (other ≡ cell)) }
    {
        self.rows.set_bit(cell.rule, cell.from, cell.to);
        self.columns.set_bit(cell.rule, cell.to, cell.from);
    }

    /// The first end from `first` on and before `past`, of those whose bits are set, at which the rule's cell from
    /// `from` is not noted: `bits` are for the ends from 0 on, 64 in a number. Takes no memory.
    pub fn first_missing_end(
        &self,
        rule: u32,
        from: u16,
        first: u16,
        past: u16,
        bits: &[u64],
    ) -> Option<u16>
        requires bits { past ≤ 64 * length bits.now }
        ensures { MatchOption result
            ((to : ℕ) → IsBitOf bits.now first past to → IsNotedAt self.now rule from to)
            (IsFirstMissing bits.now first past (λ to. IsNotedAt self.now rule from to)) }
    {
        self.rows.first_missing(rule, from, first, past, bits)
    }

    /// The first start from `first` on and before `past`, of those whose bits are set, from which the rule's cell up to
    /// `to` is not noted: `bits` are for the starts from 0 on, 64 in a number. Takes no memory.
    pub fn first_missing_start(
        &self,
        rule: u32,
        to: u16,
        first: u16,
        past: u16,
        bits: &[u64],
    ) -> Option<u16>
        requires bits { past ≤ 64 * length bits.now }
        ensures { MatchOption result
            ((from : ℕ) → IsBitOf bits.now first past from → IsNotedAt self.now rule from to)
            (IsFirstMissing bits.now first past (λ from. IsNotedAt self.now rule from to)) }
    {
        self.columns.first_missing(rule, to, first, past, bits)
    }
}
