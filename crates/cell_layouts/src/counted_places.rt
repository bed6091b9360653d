//! Places of the cells that the cell bound counts: their numbers in order.

ghost use Rattle.std.specs.Prelude.{◌≡◌, ℕ, ◌<◌, IfOk, length};
ghost use Rattle.std.specs.Arc.{arc_value};
ghost use Rattle.adp_model.specs.Cells.{IsCellBound, IsCounted, IsPlaceOf};
ghost use Rattle.cell_layouts.specs.Layout.{AreLaidBlocks};
ghost use Rattle.cell_layouts.specs.declared.layout.Side.TheVariants.{Rows};

use crate::layout::{Laid, Layout};
use adp_model::laws::cells::{places_fill_the_bound, places_go_on};
use adp_model::laws::well_formed::numbers_fit_together;
use adp_model::{Cell, Problem};
use std::alloc::{AllocError, Global};
use std::marker::Model;
use std::sync::Arc;

/// The places of a problem's counted cells: of each the number of counted cells that come before it, by rule, then by
/// start, then by end. So the places are the numbers below the cell bound. Contracts see it as the problem.
#[derive(Drop)]
pub struct Places<'a> {
    problem: &'a Problem<'a>,
    /// The blocks of the counted cells in rows.
    rows: Arc<Laid, Global>,
}

impl<'a> Model for Places<'a> {
    ghost use Rattle.adp_model.specs.PosedProblem.{PosedProblem};

    ghost Value = { PosedProblem };

    ghost use Rattle.std.specs.Prelude.{length};
    ghost use Rattle.std.specs.Arc.{arc_value};
    ghost use Rattle.cell_layouts.specs.Layout.{AreLaidBlocks};
    ghost use Rattle.cell_layouts.specs.declared.layout.Side.TheVariants.{Rows};
    ghost use Rattle.adp_model.specs.WideForm.{form_code};
    ghost use Rattle.std.specs.Coded.{codes};

    ghost coded = { Prim.hlevel (codes, form_code) };

    ghost view = { λ places. places.problem.now };

    ghost invariant = { λ places.
        AreLaidBlocks places.problem.now.grammar (length places.problem.now.word) Rows (arc_value places.rows) };
}

impl<'a> Places<'a> {
    /// The places by the blocks of the problem's counted cells in rows.
    pub(crate) fn new(problem: &'a Problem<'a>, rows: Arc<Laid, Global>) -> Places<'a>
        requires { AreLaidBlocks problem.now.grammar (length problem.now.word) Rows (arc_value rows) }
        ensures { result ≡ problem.now }
    {
        Places { problem, rows }
    }

    /// The places of the layout's problem: its rows are counted up, and nothing is copied. Fails where they were
    /// counted up too often.
    pub fn of(layout: &Layout<'a>) -> Result<Places<'a>, AllocError>
        ensures { IfOk result (λ places. places ≡ layout.now) }
    {
        Ok(Places::new(layout.problem(), Arc::try_clone(layout.rows())?))
    }

    /// The place of a counted cell. Takes constant time and no memory.
    pub fn place(&self, cell: Cell) -> u32
        requires { IsCounted self.now.grammar (length self.now.word) cell }
        ensures place { IsPlaceOf self.now.grammar (length self.now.word) cell result }
        ensures below { (bound : ℕ) → IsCellBound self.now.grammar (length self.now.word) bound → result < bound }
    {
        let problem = self.problem;
        problem.admissible();
        numbers_fit_together();
        places_go_on();
        places_fill_the_bound();
        let positions = problem.letters().len() + 1;
        let block = self.rows.blocks[cell.rule as usize * positions + cell.from as usize];
        block.place + u32::from(cell.to - block.first)
    }
}
