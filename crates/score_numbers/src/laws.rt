//! Positions in order.

ghost use Rattle.std.specs.Prelude.{◌≡◌, ℕ, ◌<◌, List, length, slice_index_or};
ghost use Rattle.std.specs.List.{AllAdjacentBelow, Contains};

/// Of positions that rise, one that is less than another has a lesser number.
pub fn lesser_positions_stand_before()
    ensures { (positions : List ℕ) → AllAdjacentBelow (λ (a b : ℕ). a < b) positions (length positions)
        → (count : ℕ) → count < length positions
        → (other : ℕ) → Contains positions other → other < slice_index_or positions count 0
        → (number : ℕ) × number < count × slice_index_or positions number 0 ≡ other }
{}
