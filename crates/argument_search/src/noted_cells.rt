//! Which cells are noted.

use adp_model::Cell;
use cell_tables::Noted;

/// What tells which cells are noted.
pub trait NotedCells {
    ghost use Rattle.std.specs.Prelude.{◌↔◌, ℕ, ◌*◌, ◌≤◌, IsTrue, length};
    ghost use Rattle.adp_model.specs.declared.cell.Cell.{Cell};
    ghost use Rattle.cell_tables.specs.Bits.{IsBitOf};

    /// The cell is noted.
    ghost is_noted: { Self → Cell → Type 0 };

    /// Whether the cell is noted. Takes no memory.
    fn has(&self, cell: Cell) -> bool
        ensures { IsTrue result ↔ is_noted self.now cell };

    /// An end from `first` up to `past` before which the rule's cells from `from` are noted, at the ends from `first`
    /// on whose bits are set: `bits` are for the ends from 0 on, 64 in a number. Takes no memory.
    fn noted_ends(&self, rule: u32, from: u16, first: u16, past: u16, bits: &[u64]) -> u16
        requires order { first ≤ past }
        requires bits { past ≤ 64 * length bits.now }
        ensures low { first ≤ result }
        ensures high { result ≤ past }
        ensures noted { (to : ℕ) → IsBitOf bits.now first result to
            → is_noted self.now (record { rule = rule; from = from; to = to }) };

    /// A start from `first` up to `past` before which the rule's cells up to `to` are noted, at the starts from `first`
    /// on whose bits are set: `bits` are for the starts from 0 on, 64 in a number. Takes no memory.
    fn noted_starts(&self, rule: u32, to: u16, first: u16, past: u16, bits: &[u64]) -> u16
        requires order { first ≤ past }
        requires bits { past ≤ 64 * length bits.now }
        ensures low { first ≤ result }
        ensures high { result ≤ past }
        ensures noted { (from : ℕ) → IsBitOf bits.now first result from
            → is_noted self.now (record { rule = rule; from = from; to = to }) };
}

impl<'a> NotedCells for Noted<'a> {
    ghost use Rattle.cell_tables.specs.Noted.{IsNoted};

    ghost is_noted = { IsNoted };

    fn has(&self, cell: Cell) -> bool {
        Noted::has(self, cell)
    }

    fn noted_ends(&self, rule: u32, from: u16, first: u16, past: u16, bits: &[u64]) -> u16 {
        match self.first_missing_end(rule, from, first, past, bits) {
            Some(missing) => missing,
            None => past,
        }
    }

    fn noted_starts(&self, rule: u32, to: u16, first: u16, past: u16, bits: &[u64]) -> u16 {
        match self.first_missing_start(rule, to, first, past, bits) {
            Some(missing) => missing,
            None => past,
        }
    }
}
