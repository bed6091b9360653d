//! Viable splits: where their cuts lie, and how ranks tell them apart.

ghost use Rattle.std.specs.Prelude.{◌≡◌, ℕ, ◌+◌, ◌-◌, ◌<◌, ◌≤◌, IsTrue, List, length};
ghost use Rattle.std.specs.List.{AllByRecursion};
ghost use Rattle.adp_model.specs.declared.cell.Cell.{Cell};
ghost use Rattle.adp_model.specs.PosedProblem.{PosedProblem};
ghost use Rattle.adp_model.specs.Splits.{IsViable};
ghost use Rattle.adp_model.specs.Walk.{rank_of, ranks_of};
ghost use Rattle.adp_model.specs.WellFormed.{is_well_formed};

/// The cuts of a viable split lie within the cell.
pub fn viable_cuts_lie_within_the_cell()
    ensures { (p : PosedProblem) → IsTrue (is_well_formed p.grammar) → (cell : Cell) (alternative : ℕ) (cuts : List ℕ)
        → cell.from ≤ cell.to → IsViable p cell alternative cuts
        → AllByRecursion (λ cut. (cell.from ≤ cut) × (cut ≤ cell.to)) cuts }
{}

/// Two viable splits of one alternative with equal ranks are one split, however the boundaries are turned.
pub fn ranks_tell_splits_apart()
    ensures { (p : PosedProblem) → IsTrue (is_well_formed p.grammar) → (cell : Cell) (turns : List ℕ)
        → cell.from ≤ cell.to → length turns ≡ 3 → AllByRecursion (λ turn. turn ≤ cell.to - cell.from) turns
        → (alternative : ℕ) (cuts others : List ℕ) → IsViable p cell alternative cuts
        → IsViable p cell alternative others → ranks_of cell turns cuts ≡ ranks_of cell turns others → cuts ≡ others }
{}

/// The ranks of a boundary's positions rise from its turn on, and go on with the positions before it. Positions of one
/// rank are one.
pub fn ranks_begin_at_the_turn()
    ensures behind { (cell : Cell) (turn x : ℕ) → turn ≤ cell.to - cell.from → x ≤ cell.to → cell.from + turn ≤ x
        → rank_of cell turn x ≡ x - (cell.from + turn) }
    ensures before { (cell : Cell) (turn x : ℕ) → turn ≤ cell.to - cell.from → cell.from ≤ x → x < cell.from + turn
        → rank_of cell turn x ≡ x - cell.from + (cell.to + 1 - (cell.from + turn)) }
    ensures apart { (cell : Cell) (turn x y : ℕ) → turn ≤ cell.to - cell.from → cell.from ≤ x → x ≤ cell.to
        → cell.from ≤ y → y ≤ cell.to → rank_of cell turn x ≡ rank_of cell turn y → x ≡ y }
{}
