//! Positions of a split's arguments.

ghost use Rattle.std.specs.Prelude.{◌≡◌, ◌≤◌, ◌∷◌, slice_index};
ghost use Rattle.adp_model.specs.Splits.{ends_by};

use adp_model::Cell;
use memo_model::Position;

/// The argument of the same split with this number.
pub(crate) fn at_number(at: Position, number: u8) -> Position
    ensures { result ≡ record { alternative = at.alternative; cuts = at.cuts; number = number } }
{
    Position { number, ..at }
}

/// The first argument of an alternative's split.
pub(crate) fn first_of(alternative: u8, cuts: [u16; 3]) -> Position
    ensures { result ≡ record { alternative = alternative; cuts = cuts; number = 0 } }
{
    Position {
        alternative,
        cuts,
        number: 0,
    }
}

/// Where an argument of a split begins, as a position in the word.
pub(crate) fn start_of(cell: Cell, at: Position) -> u16
    requires { at.number ≤ 3 }
    ensures { result ≡ slice_index (cell.from ∷ ends_by cell at.cuts) at.number }
{
    if at.number == 0 {
        return cell.from;
    }
    at.cuts[at.number as usize - 1]
}

/// Where it ends.
pub(crate) fn end_of(cell: Cell, at: Position) -> u16
    requires { at.number ≤ 3 }
    ensures { result ≡ slice_index (ends_by cell at.cuts) at.number }
{
    if at.number == 3 {
        return cell.to;
    }
    at.cuts[at.number as usize]
}
