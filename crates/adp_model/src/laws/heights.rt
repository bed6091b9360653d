//! Heights of cells: numbers that fall from a cell to its demanded children.

ghost use Rattle.std.specs.Prelude.{ℕ, ◌<◌, Option, List};
ghost use Rattle.adp_model.specs.declared.cell.Cell.{Cell};
ghost use Rattle.adp_model.specs.PosedProblem.{PosedProblem};
ghost use Rattle.adp_model.specs.Demand.{IsDemandedChild, IsDemanded};
ghost use Rattle.adp_model.specs.Checks.{IsChecked};
ghost use Rattle.adp_model.specs.Heights.{height_of, heights_end};

/// The height falls from a cell to each of its demanded children, and a demanded cell's is below the number of rules
/// times the number of lengths. So a path of demanded children has at most that many cells, all different.
pub fn heights_fall()
    ensures falls { (p : PosedProblem) (least : List ℕ) (greatest : List (Option ℕ)) (ranks : List ℕ)
        → IsChecked p.grammar p.algebra least greatest ranks
        → (cell child : Cell) → IsDemandedChild p cell child → height_of p ranks child < height_of p ranks cell }
    ensures few { (p : PosedProblem) (least : List ℕ) (greatest : List (Option ℕ)) (ranks : List ℕ)
        → IsChecked p.grammar p.algebra least greatest ranks
        → (cell : Cell) → IsDemanded p cell → height_of p ranks cell < heights_end p }
{}
