//! Marks of a problem's cells.

ghost use Rattle.std.specs.Prelude.{◌≡◌, ◌↔◌, ◌+◌, ◌*◌, ◌-◌, ◌<◌, ◌≤◌, ℕ, IfOk, IsTrue, length};
ghost use Rattle.adp_model.specs.declared.cell.Cell.{Cell};
ghost use Rattle.adp_model.specs.Cells.{IsCounted};
ghost use Rattle.cell_tables.specs.Bits.{IsBitOf};
ghost use Rattle.cell_tables.specs.Marks.{AreInRows, AreMarkedToo, AreMarks, HasInColumns, HasStart, IsMarked, IsMarkedInRow};

use crate::bits::word_grid;
use crate::flags::{flag, raise};
use crate::grid::Grid;
use adp_model::Cell;
use adp_model::laws::well_formed::numbers_fit_together;
use cell_layouts::{Layout, Side};
use std::alloc::{AllocError, Global};
use std::marker::Model;

/// Marks of a problem's counted cells, as bits: rows go by a rule and a start and have the ends side by side, columns
/// go by a rule and an end and have the starts side by side. Takes two bits for each counted cell; the blocks of
/// its rows and columns are the layout's. Contracts see it as the problem and the bits of rows and columns.
#[derive(Drop)]
pub struct Marks<'a> {
    pub(crate) layout: Layout<'a>,
    pub(crate) rows: Grid<u64>,
    pub(crate) columns: Grid<u64>,
    /// For each rule whether a cell of it is marked in its column.
    in_columns: Vec<bool>,
    /// For each start whether a cell that begins there is marked in its row.
    pub(crate) begun: Vec<bool>,
}

impl<'a> Model for Marks<'a> {
    ghost use Rattle.cell_tables.specs.Marks.{CellMarks};

    ghost Value = { CellMarks };

    ghost use Rattle.adp_model.specs.WideForm.{form_code};
    ghost use Rattle.std.specs.Coded.{codes};

    ghost coded = { Prim.hlevel (codes, form_code) };

    ghost use Rattle.cell_tables.specs.MarksFields.{AreKeptMarks, cell_marks};

    ghost view = { cell_marks };

    ghost invariant = { AreKeptMarks };
}

impl<'a> Marks<'a> {
    /// No cell of the layout's problem is marked. Fails for want of memory alone.
    pub fn new(alloc: Global, layout: &Layout<'a>) -> Result<Marks<'a>, AllocError>
        ensures problem { IfOk result (λ marks. marks.problem ≡ layout.now) }
        ensures none { IfOk result (λ marks. (cell : Cell) → IsMarked marks cell → ⊥) }
    {
        let shared = layout.shared()?;
        let problem = shared.problem();
        let rows = word_grid(alloc, layout, Side::Rows)?;
        let columns = word_grid(alloc, layout, Side::Columns)?;
        let in_columns = vec![in alloc; false; problem.grammar.rules.as_slice().len()]?;
        let begun = vec![in alloc; false; shared.positions() as usize]?;
        Ok(Marks {
            layout: shared,
            rows,
            columns,
            in_columns,
            begun,
        })
    }

    /// Only counted cells are marked. Does nothing when it runs.
    pub fn cells(&self)
        ensures { AreMarks self.now }
    {
        let _ = &self.layout;
    }

    /// How many letters the word has.
    pub(crate) fn length(&self) -> u16
        ensures same { result ≡ length self.now.problem.word }
        ensures few { result ≤ 4000 }
    {
        self.layout.problem().letters().len() as u16
    }

    /// How many rules the grammar has.
    pub(crate) fn rules(&self) -> u32
        ensures same { result ≡ length self.now.problem.grammar.rules }
        ensures few { result ≤ 128 }
    {
        let problem = self.layout.problem();
        problem.admissible();
        numbers_fit_together();
        problem.grammar.rules.as_slice().len() as u32
    }

    /// Whether the cell is marked in its row. Takes constant time and no memory.
    pub fn is_marked_in_row(&self, cell: Cell) -> bool
        ensures { IsTrue result ↔ IsMarkedInRow self.now cell }
    {
        self.rows.is_set(cell.rule, cell.from, cell.to)
    }

    /// Whether a cell that begins at `from` is marked in its row. Takes constant time and no memory.
    #[inline]
    pub fn has_start(&self, from: u16) -> bool
        ensures { IsTrue result ↔ HasStart self.now from }
    {
        flag(&self.begun, from as usize)
    }

    /// Whether a cell of a rule is marked in its column.
    pub(crate) fn is_in_columns(&self, rule: u32) -> bool
        ensures { IsTrue result ↔ HasInColumns self.now rule }
    {
        flag(&self.in_columns, rule as usize)
    }

    /// Marks a counted cell in its row. Takes constant time and no memory.
    pub fn mark(&mut self, cell: Cell)
        requires { IsCounted self.old.problem.grammar (length self.old.problem.word) cell }
        ensures marked { AreMarkedToo self.old self.new (λ other. other ≡ cell) }
        ensures in_row { AreInRows self.new (λ other. other ≡ cell) }
    {
        raise(&mut self.begun, cell.from as usize, true);
        self.rows.set_bit(cell.rule, cell.from, cell.to);
    }

    /// Marks the cells of a rule that begin at `from` and end from `first` on and before `past`, where `bits` are set,
    /// in their row: these are for the ends from 0 on, 64 in a number. Takes no memory.
    pub fn mark_ends_of(&mut self, rule: u32, from: u16, first: u16, past: u16, bits: &[u64])
        requires first { first < past → IsBitOf bits.now first past first }
        requires last { first < past → IsBitOf bits.now first past (past - 1) }
        requires counted { (to : ℕ) → IsBitOf bits.now first past to
            → IsCounted self.old.problem.grammar (length self.old.problem.word)
            (record { rule = rule; from = from; to = to }) }
        requires bits { past ≤ 64 * length bits.now }
        ensures marked { AreMarkedToo self.old self.new
            (λ cell. (cell.rule ≡ rule) × (cell.from ≡ from) × IsBitOf bits.now first past cell.to) }
        ensures in_row { AreInRows self.new
            (λ cell. (cell.rule ≡ rule) × (cell.from ≡ from) × IsBitOf bits.now first past cell.to) }
    {
        if first >= past {
            return;
        }
        raise(&mut self.begun, from as usize, true);
        self.rows.set_bits_of(rule, from, first, past, bits);
    }

    /// Marks the cells of a rule that end at `to` and begin from `first` on and before `past`, where `bits` are set, in
    /// their column: these are for the starts from 0 on, 64 in a number. Takes no memory.
    pub fn mark_starts_of(&mut self, rule: u32, to: u16, first: u16, past: u16, bits: &[u64])
        requires first { first < past → IsBitOf bits.now first past first }
        requires last { first < past → IsBitOf bits.now first past (past - 1) }
        requires counted { (from : ℕ) → IsBitOf bits.now first past from
            → IsCounted self.old.problem.grammar (length self.old.problem.word)
            (record { rule = rule; from = from; to = to }) }
        requires bits { past ≤ 64 * length bits.now }
        ensures { AreMarkedToo self.old self.new
            (λ cell. (cell.rule ≡ rule) × (cell.to ≡ to) × IsBitOf bits.now first past cell.from) }
    {
        if first >= past {
            return;
        }
        raise(&mut self.in_columns, rule as usize, true);
        self.columns.set_bits_of(rule, to, first, past, bits);
    }
}
