//! Demanded cells.

ghost use Rattle.std.specs.Prelude.{◌≡◌, ℕ, ◌≤◌, ◌↔◌, Bool, true, false, Option, IsTrue, List, length, slice_index_or, count_by};
ghost use Rattle.adp_model.specs.declared.cell.Cell.{Cell};
ghost use Rattle.adp_model.specs.PosedProblem.{PosedProblem};
ghost use Rattle.adp_model.specs.Demand.{IsDemandedChild, IsBelow, IsDemanded, AreDemanded, IsDemandedCount};
ghost use Rattle.adp_model.specs.Cells.{IsCounted, IsCellBound, IsPlaceOf};
ghost use Rattle.adp_model.specs.WellFormed.{is_well_formed};
ghost use Rattle.adp_model.specs.Checks.{IsChecked};

/// A demanded child lies within its cell, and is shorter or has the cell's span and a lesser rank. So where cells are
/// filled from the last start to the first, at one start from the least end to the greatest, and on one span by
/// rising ranks, a cell comes after its demanded children.
pub fn demanded_children_are_below()
    ensures { (p : PosedProblem) (least : List ℕ) (greatest : List (Option ℕ)) (ranks : List ℕ)
        → IsChecked p.grammar p.algebra least greatest ranks
        → (cell child : Cell) → IsDemandedChild p cell child → IsBelow ranks child cell }
{}

/// Each demanded cell is counted by the cell bound.
pub fn demanded_cells_are_counted()
    ensures { (p : PosedProblem) → IsTrue (is_well_formed p.grammar) → (cell : Cell) → IsDemanded p cell
        → IsCounted p.grammar (length p.word) cell }
{}

/// A problem has at most one list of all demanded cells in order, and at most one number of them.
pub fn demanded_cells_are_unique()
    ensures cells { (p : PosedProblem) (a b : List Cell) → AreDemanded p a → AreDemanded p b → a ≡ b }
    ensures count { (p : PosedProblem) (a b : ℕ) → IsDemandedCount p a → IsDemandedCount p b → a ≡ b }
{}

/// There are at most as many demanded cells as the cell bound counts.
pub fn demanded_cells_are_within_the_cell_bound()
    ensures { (p : PosedProblem) (count bound : ℕ) → IsTrue (is_well_formed p.grammar) → IsDemandedCount p count
        → IsCellBound p.grammar (length p.word) bound → count ≤ bound }
{}

/// Where there is a mark for each place, and the marks that are set are those of the demanded cells, as many are set as
/// cells are demanded.
pub fn marks_count_demanded_cells()
    ensures { (p : PosedProblem) (marks : List Bool) → IsTrue (is_well_formed p.grammar)
        → IsCellBound p.grammar (length p.word) (length marks)
        → ((cell : Cell) (place : ℕ) → IsCounted p.grammar (length p.word) cell
        → IsPlaceOf p.grammar (length p.word) cell place
        → slice_index_or marks place false ≡ true ↔ IsDemanded p cell)
        → IsDemandedCount p (count_by (λ mark. mark) marks) }
{}
