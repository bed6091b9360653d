//! What is noted of tails stays true.

ghost use Rattle.adp_model.specs.declared.cell.Cell.{Cell};
ghost use Rattle.adp_model.specs.PosedProblem.{PosedProblem};
ghost use Rattle.cell_tables.specs.Marks.{CellMarks, IsMarked};
ghost use Rattle.cell_demands.specs.declared.tails.Tails.{Tails};
ghost use Rattle.cell_demands.specs.TailNotes.{AreTrue};

/// What is noted is true of other marks too, where all cells that were marked are marked still.
pub fn notes_stay_true()
    ensures { (p : PosedProblem) (tails : Tails) (old new : CellMarks)
        → ((cell : Cell) → IsMarked old cell → IsMarked new cell) → AreTrue p old tails → AreTrue p new tails }
{}
