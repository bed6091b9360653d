//! What the lines of a block say of cells.

ghost use Rattle.std.specs.Prelude.{◌≡◌, ◌<◌, ◌^◌, IfOk, None, List, [], ◌∷◌, ◌++◌, OnOk};
ghost use Rattle.adp_model.specs.declared.cell.Cell.{Cell as AnyCell};
ghost use Rattle.table_certificate.specs.CertificateLines.{LineForm, CellLine};
ghost use Rattle.table_certificate.specs.KeptForms.{kept};
ghost use Rattle.table_certificate.specs.Claims.{IsKeptToo, Tell, claimed, key_of};

use adp_model::Cell;
use cell_layouts::Layout;
use cell_tables::Grid;
use std::alloc::{AllocError, Global};
use std::collections::BTreeMap;

/// What lines say of cells: of each cell what its earliest line says. Cells whose positions no word has are left out.
#[derive(Drop)]
pub(crate) struct Claims {
    /// Of the counted cells of a word, in rows.
    pub(crate) rows: Grid<Option<Option<i64>>>,
    /// Of all others.
    pub(crate) others: BTreeMap<u64, Option<i64>>,
}

/// The number that stands for a cell.
fn key_of(cell: Cell) -> u64
    ensures { result ≡ key_of cell }
{
    (u64::from(cell.rule) * 65536 + u64::from(cell.from)) * 65536 + u64::from(cell.to)
}

impl Claims {
    /// What no lines say.
    pub(crate) fn new(alloc: Global, layout: &Layout<'_>) -> Result<Claims, AllocError>
        ensures { IfOk result (λ claims. Tell claims []) }
    {
        let rows = Grid::new(alloc, layout.positions(), layout.rows(), None)?;
        Ok(Claims {
            rows,
            others: BTreeMap::new(alloc),
        })
    }

    /// Keeps what is said of a cell of which nothing was.
    fn keep(&mut self, cell: Cell, score: Option<i64>) -> Result<(), AllocError>
        requires { claimed self.old cell ≡ None }
        ensures { OnOk result (IsKeptToo self.old self.new cell score) }
    {
        if self.rows.get(cell.rule, cell.from, cell.to).is_some() {
            self.rows.set(cell.rule, cell.from, cell.to, Some(score));
            return Ok(());
        }
        self.others.insert(key_of(cell), score)?;
        Ok(())
    }

    /// Notes what one line more says.
    pub(crate) fn note(
        &mut self,
        rule: u32,
        from: u64,
        to: u64,
        score: Option<i64>,
    ) -> Result<(), AllocError>
        ensures { OnOk result ((lines : List LineForm) (cell : AnyCell) → rule ≡ cell.rule → from ≡ kept cell.from
            → to ≡ kept cell.to → Tell self.old lines → Tell self.new (lines ++ CellLine cell score ∷ [])) }
    {
        if from >= 65536 || to >= 65536 {
            return Ok(());
        }
        let cell = Cell {
            rule,
            from: from as u16,
            to: to as u16,
        };
        if self.said(cell).is_some() {
            return Ok(());
        }
        self.keep(cell, score)
    }

    /// What is said of a cell. Takes no memory.
    pub(crate) fn said(&self, cell: Cell) -> Option<Option<i64>>
        ensures { result ≡ claimed self.now cell }
    {
        match self.rows.get(cell.rule, cell.from, cell.to) {
            Some(said) => said,
            None => self.others.get(&key_of(cell)).copied(),
        }
    }
}
