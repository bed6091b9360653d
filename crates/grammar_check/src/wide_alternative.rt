ghost use Rattle.std.specs.Prelude.{◌≡◌, ℕ, ◌+◌, ◌-◌, ◌^◌, ◌<◌, ◌≤◌, if◌then◌else◌, min, length, slice_index, vec_len, IfOk};
ghost use Rattle.std.specs.List.{All};
ghost use Rattle.adp_model.specs.LimitFaults.{told};
ghost use Rattle.adp_model.specs.Terms.{leaves};
ghost use Rattle.adp_model.specs.WideTerms.{form_of};
ghost use Rattle.grammar_check.specs.Plans.{IsReadable, greatest_from, lows};
ghost use Rattle.grammar_check.specs.TermSpreads.{idle_room, names, term_room};
ghost use Rattle.grammar_check.specs.WideRows.{rows_of};

use crate::node::{names, part_at, term_room};
use crate::part::{Part, lows};
use crate::table::Table;
use crate::wide_rows::{extend_term, rows_of};
use adp_model::{Wide, WideTerm};
use std::alloc::{AllocError, Global};

/// How many spare letters the part at the place can take, where the term does not name it.
fn idle(term: &Wide, place: usize, part: Part) -> usize
    ensures { result ≡ (if names (form_of term.now) place then 0 else part.room) }
{
    if names(term, place) { 0 } else { part.room }
}

/// How many spare letters the parts can take that the term does not name, or the greatest number that there is.
fn idle_room(term: &Wide, parts: &[Part]) -> usize
    ensures { result ≡ min (idle_room (form_of term.now) 0 parts.now) (2 ^ 64 - 1) }
{
    let mut total: usize = 0;
    for place in 0..parts.len() {
        total = total.saturating_add(idle(term, place, part_at(parts, place)));
    }
    total
}

/// The greatest of these numbers.
fn greatest(numbers: &[u64], first: usize, last: usize) -> u64
    requires within { last < length numbers.now }
    ensures { result ≡ greatest_from (slice_index numbers.now) first (last + 1 - first) }
{
    let mut best = 0;
    for place in first..last + 1 {
        best = best.max(numbers[place]);
    }
    best
}

/// An alternative with a wide term, for the rows of a bound: all of its arguments as parts, and their least length
/// together. Row 0 has, by the number of spare letters, what the term comes to, and the others what each side of each
/// of its nodes does.
#[derive(Drop)]
pub struct WideAlternative<'a> {
    pub term: &'a WideTerm,
    pub low: usize,
    pub room: usize,
    pub idle: usize,
    pub parts: Vec<Part>,
    pub rows: Table,
    ghost least: { low ≡ min (lows parts.items) (2 ^ 64 - 1) },
    ghost room_is: { room ≡ min (term_room parts.items term.now) (2 ^ 64 - 1) },
    ghost idle_is: { idle ≡ min (idle_room term.now 0 parts.items) (2 ^ 64 - 1) },
    ghost rows_each: { rows_of term.now + 1 ≤ rows.rows },
    ghost few: { rows.rows < 2 ^ 32 },
}

impl<'a> WideAlternative<'a> {
    ghost use Rattle.grammar_check.specs.Alternatives.{AreRead};
    ghost use Rattle.grammar_check.specs.WideAlternatives.{AreWideSpread, wide_value};

    /// An alternative with rows for lengths up to `most`.
    pub fn new(
        alloc: Global,
        term: &'a WideTerm,
        parts: Vec<Part>,
        most: usize,
    ) -> Result<WideAlternative<'a>, AllocError>
        requires few { length (leaves term.now) ≤ 32 }
        requires short { most ≤ 4000 }
        ensures term { IfOk result (λ alternative. alternative.term.now ≡ term.now) }
        ensures parts { IfOk result (λ alternative. alternative.parts.items ≡ parts.items) }
        ensures width { IfOk result (λ alternative. alternative.rows.width ≡ most + 1) }
    {
        let root = term.root();
        let rows = Table::new(alloc, rows_of(root) + 1, most + 1)?;
        Ok(WideAlternative {
            term,
            low: lows(&parts),
            room: term_room(root, &parts),
            idle: idle_room(root, &parts),
            parts,
            rows,
        })
    }

    /// The greatest value of the alternative over its ways to have this length, cut; 0 where there is no way. The
    /// values at all lesser lengths were asked for before, and the table has the bounds of rules that it needs.
    pub fn extend(&mut self, bounds: &Table, len: usize) -> u64
        requires readable { All (λ part. IsReadable bounds.now.rows part.worth) self.old.parts.items }
        requires within { len < bounds.now.width }
        requires columns { bounds.now.width ≤ self.old.rows.width }
        requires short { len < 2 ^ 32 }
        ensures term { self.new.term.now ≡ self.old.term.now }
        ensures parts { self.new.parts.items ≡ self.old.parts.items }
        ensures width { self.new.rows.width ≡ self.old.rows.width }
        ensures value { (bound : ℕ → ℕ → ℕ) → AreRead bound bounds.now self.old.parts.items len
            → AreWideSpread bound self.old (len - lows self.old.parts.items)
            → result ≡ told (wide_value bound self.old.term.now self.old.parts.items len) }
        ensures spread { (bound : ℕ → ℕ → ℕ) → AreRead bound bounds.now self.old.parts.items len
            → AreWideSpread bound self.old (len - lows self.old.parts.items)
            → AreWideSpread bound self.new (len + 1 - lows self.old.parts.items) }
    {
        if len < self.low {
            return 0;
        }
        let spare = len - self.low;
        let value = extend_term(
            self.term.root(),
            &self.parts,
            &mut self.rows,
            1,
            bounds,
            spare,
        );
        self.rows.set(0, spare, value);
        greatest(
            self.rows.row(0),
            spare.saturating_sub(self.idle),
            spare.min(self.room),
        )
    }
}
