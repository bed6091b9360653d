//! What is kept of a problem's cells, in rows and in columns.

ghost use Rattle.std.specs.Prelude.{◌≡◌, IfOk, Some, length};
ghost use Rattle.adp_model.specs.declared.cell.Cell.{Cell};
ghost use Rattle.adp_model.specs.Cells.{IsCounted};
ghost use Rattle.cell_tables.specs.Spans.{IsWritten};
ghost use Rattle.cell_tables.specs.Tables.{AreCells, in_row, in_column, spans_of};

use crate::grid::Grid;
use adp_model::laws::cells::{places_are_unique, places_go_on};
use adp_model::{Cell, Problem};
use cell_layouts::{Layout, Side};
use std::alloc::{AllocError, Global};
use std::marker::Model;

/// A value for each counted cell of a problem, in its row and in its column: rows go by a rule and a start and have the
/// ends side by side, columns go by a rule and an end and have the starts side by side. Takes two values for each
/// counted cell; the blocks of its rows and columns are the layout's. Contracts see it as the problem and the values by
/// rows and columns.
#[derive(Drop)]
pub struct Table<'a, V> {
    problem: &'a Problem<'a>,
    pub(crate) rows: Grid<V>,
    pub(crate) columns: Grid<V>,
}

impl<'a, V> Model for Table<'a, V> {
    ghost use Rattle.cell_tables.specs.Tables as tables;

    ghost Value = { tables.Table V };

    ghost use Rattle.adp_model.specs.WideForm.{form_code};
    ghost use Rattle.std.specs.Coded.{codes};

    ghost coded = { Prim.hlevel (codes, form_code) };

    ghost view = { λ table.
        record { problem = table.problem.now; rows = table.rows; columns = table.columns } };

    ghost invariant = { λ table. tables.AreCells
        (record { problem = table.problem.now; rows = table.rows; columns = table.columns }) };
}

impl<'a, V> Table<'a, V> {
    /// There is a value in a row and one in a column for each counted cell, and for no other cell. Does nothing when it
    /// runs.
    pub fn cells(&self)
        ensures { AreCells self.now }
    {
        let _ = &self.problem;
    }
}

impl<'a, V: Copy> Table<'a, V> {
    /// The table that has this value for each counted cell of the layout's problem; the layout's blocks are counted up.
    /// Fails for want of memory alone.
    pub fn new(alloc: Global, layout: &Layout<'a>, value: V) -> Result<Table<'a, V>, AllocError>
        requires { (other : V) → V.is_clone value other → other ≡ value }
        ensures problem { IfOk result (λ table. table.problem ≡ layout.now) }
        ensures rows { IfOk result (λ table. (cell : Cell)
            → IsCounted layout.now.grammar (length layout.now.word) cell → in_row table cell ≡ Some value) }
        ensures columns { IfOk result (λ table. (cell : Cell)
            → IsCounted layout.now.grammar (length layout.now.word) cell → in_column table cell ≡ Some value) }
    {
        places_go_on();
        places_are_unique();
        let positions = layout.positions();
        let rows = Grid::new(alloc, positions, layout.rows(), value)?;
        let columns = Grid::new(alloc, positions, layout.columns(), value)?;
        Ok(Table {
            problem: layout.problem(),
            rows,
            columns,
        })
    }

    /// The value of a counted cell, in its row. Takes constant time and no memory.
    #[inline(always)]
    pub fn value(&self, cell: Cell) -> Option<V>
        ensures { result ≡ in_row self.now cell }
    {
        self.rows.get(cell.rule, cell.from, cell.to)
    }

    /// The rows or the columns. Takes constant time and no memory.
    pub fn grid(&self, side: Side) -> &Grid<V>
        ensures { result.now ≡ spans_of self.now side }
    {
        match side {
            Side::Rows => &self.rows,
            Side::Columns => &self.columns,
        }
    }

    /// Gives a counted cell another value, in its row and in its column. Takes constant time and no memory.
    pub fn put(&mut self, cell: Cell, value: V)
        requires { IsCounted self.old.problem.grammar (length self.old.problem.word) cell }
        ensures problem { self.new.problem ≡ self.old.problem }
        ensures row { IsWritten self.old.rows self.new.rows cell.rule cell.from cell.to value }
        ensures column { IsWritten self.old.columns self.new.columns cell.rule cell.to cell.from value }
    {
        self.rows.set(cell.rule, cell.from, cell.to, value);
        self.columns.set(cell.rule, cell.to, cell.from, value);
    }
}
