//! Counted cells and their places.

ghost use Rattle.std.specs.Prelude.{◌≡◌, ℕ, ◌+◌, ◌-◌, ◌<◌, ◌≤◌, length};
ghost use Rattle.adp_model.specs.declared.grammar.Grammar.{Grammar};
ghost use Rattle.adp_model.specs.declared.cell.Cell.{Cell};
ghost use Rattle.adp_model.specs.Cells.{CellPrecedes, IsCounted, IsCellBound, IsPlaceOf, AreCountedEnds};

/// A cell has at most one place, and words of one length have at most one cell bound.
pub fn places_are_unique()
    ensures place { (grammar : Grammar) (len : ℕ) (cell : Cell) (a b : ℕ)
        → IsPlaceOf grammar len cell a → IsPlaceOf grammar len cell b → a ≡ b }
    ensures bound { (grammar : Grammar) (len : ℕ) (a b : ℕ)
        → IsCellBound grammar len a → IsCellBound grammar len b → a ≡ b }
{}

/// Of two cells the one that comes first has the lesser place.
pub fn places_rise()
    ensures { (grammar : Grammar) (len : ℕ) (a b : Cell) (p q : ℕ) → IsCounted grammar len a → CellPrecedes a b
        → IsPlaceOf grammar len a p → IsPlaceOf grammar len b q → p < q }
{}

/// Places tell the counted cells apart: two counted cells with one place are equal.
pub fn places_tell_cells_apart()
    ensures { (grammar : Grammar) (len : ℕ) (a b : Cell) (p : ℕ) → IsCounted grammar len a → IsCounted grammar len b
        → IsPlaceOf grammar len a p → IsPlaceOf grammar len b p → a ≡ b }
{}

/// The places of the counted cells are the numbers below the cell bound: each counted cell has a place, each place is
/// below the bound, and each number below the bound is the place of a counted cell.
pub fn places_fill_the_bound()
    ensures placed { (grammar : Grammar) (len : ℕ) (cell : Cell) (bound : ℕ) → IsCounted grammar len cell
        → IsCellBound grammar len bound → (p : ℕ) × IsPlaceOf grammar len cell p }
    ensures below { (grammar : Grammar) (len : ℕ) (cell : Cell) (p bound : ℕ) → IsCounted grammar len cell
        → IsPlaceOf grammar len cell p → IsCellBound grammar len bound → p < bound }
    ensures filled { (grammar : Grammar) (len : ℕ) (p bound : ℕ) → IsCellBound grammar len bound → p < bound
        → (cell : Cell) × IsCounted grammar len cell × IsPlaceOf grammar len cell p }
{}

/// Where the places begin, how they rise by one from end to end, and how they go on with the next start, the next rule
/// and, behind the last rule, to the cell bound.
pub fn places_go_on()
    ensures first { (grammar : Grammar) (len : ℕ) → IsPlaceOf grammar len (record { rule = 0; from = 0; to = 0 }) 0 }
    ensures ends { (grammar : Grammar) (len rule from first past k to : ℕ)
        → AreCountedEnds grammar len rule from first past
        → IsPlaceOf grammar len (record { rule = rule; from = from; to = 0 }) k → first ≤ to → to ≤ past
        → IsPlaceOf grammar len (record { rule = rule; from = from; to = to }) (k + (to - first)) }
    ensures starts { (grammar : Grammar) (len rule from first past k : ℕ)
        → AreCountedEnds grammar len rule from first past → first ≤ past
        → IsPlaceOf grammar len (record { rule = rule; from = from; to = 0 }) k
        → IsPlaceOf grammar len (record { rule = rule; from = from + 1; to = 0 }) (k + (past - first)) }
    ensures rules { (grammar : Grammar) (len rule k : ℕ)
        → IsPlaceOf grammar len (record { rule = rule; from = len + 1; to = 0 }) k
        → IsPlaceOf grammar len (record { rule = rule + 1; from = 0; to = 0 }) k }
    ensures bound { (grammar : Grammar) (len k : ℕ)
        → IsPlaceOf grammar len (record { rule = length grammar.rules; from = 0; to = 0 }) k
        → IsCellBound grammar len k }
{}
