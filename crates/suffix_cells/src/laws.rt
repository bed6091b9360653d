//! Where the demanded cells of straight grammars end.

ghost use Rattle.std.specs.Prelude.{◌≡◌, length};
ghost use Rattle.adp_model.specs.declared.cell.Cell.{Cell};
ghost use Rattle.adp_model.specs.Demand.{IsDemanded};
ghost use Rattle.adp_model.specs.PosedProblem.{PosedProblem};
ghost use Rattle.suffix_cells.specs.Straight.{AreStraight};

/// In a straight grammar each demanded cell ends where the word ends.
pub fn demanded_cells_end_with_the_word()
    ensures { (p : PosedProblem) → AreStraight p → (cell : Cell) → IsDemanded p cell → cell.to ≡ length p.word }
{}
