ghost use Rattle.std.specs.Prelude.{◌≡◌, ◌≢◌, ℕ, ◌+◌, ◌-◌, ◌*◌, ◌^◌, ◌<◌, ◌≤◌, [], ◌∷◌, min, length, drop, slice_index, vec_len, IfOk};
ghost use Rattle.std.specs.List.{All};
ghost use Rattle.adp_model.specs.LimitFaults.{told};
ghost use Rattle.grammar_check.specs.Plans.{IsReadable, ReadsRight, lows, rooms, spread, part_at, worth_of};
ghost use Rattle.grammar_check.specs.Tables.{entry};

use crate::cut::{cut_product, cut_sum};
use crate::part::{Part, Worth, lows};
use crate::table::Table;
use std::alloc::{AllocError, Global};

/// An alternative with a linear term, or one whose nodes are counted, for the rows of a bound: what it adds of its own, with its tokens of one length; the
/// letters of these; the least length of all arguments together; and its other arguments as parts. Row i of `spreads`
/// has, by the number of spare letters, what the parts behind part i add. So an alternative with one part keeps no row.
#[derive(Drop)]
pub struct LinearAlternative {
    pub constant: u64,
    pub fixed: usize,
    pub low: usize,
    pub parts: Vec<Part>,
    pub spreads: Table,
    ghost least: { low ≡ min (fixed + lows parts.items) (2 ^ 64 - 1) },
    ghost rows: { vec_len parts ≤ spreads.rows + 1 },
}

impl LinearAlternative {
    ghost use Rattle.grammar_check.specs.Alternatives.{AreSpread, AreRead, linear_value};

    /// An alternative with tables for lengths up to `most`.
    pub fn new(
        alloc: Global,
        constant: u64,
        fixed: usize,
        parts: Vec<Part>,
        most: usize,
    ) -> Result<LinearAlternative, AllocError>
        requires few { vec_len parts ≤ 4 }
        requires short { most ≤ 4000 }
        ensures constant { IfOk result (λ alternative. alternative.constant ≡ constant) }
        ensures fixed { IfOk result (λ alternative. alternative.fixed ≡ fixed) }
        ensures parts { IfOk result (λ alternative. alternative.parts.items ≡ parts.items) }
        ensures width { IfOk result (λ alternative. alternative.spreads.width ≡ most + 1) }
    {
        let low = fixed.saturating_add(lows(&parts));
        let spreads = Table::new(alloc, parts.len().saturating_sub(1), most + 1)?;
        Ok(LinearAlternative {
            constant,
            fixed,
            low,
            parts,
            spreads,
        })
    }

    /// The greatest that the parts from this one on add, where they have so many spare letters.
    fn best_spread(&self, place: usize, spare: usize, rest_room: usize, bounds: &Table) -> u64
        requires place { place < vec_len self.now.parts }
        requires column { spare < self.now.spreads.width }
        requires readable { IsReadable bounds.now.rows (part_at self.now.parts.items place).worth }
        requires within { (part_at self.now.parts.items place).low + spare < bounds.now.width }
        requires rest_room { rest_room ≡ min (rooms (drop (place + 1) self.now.parts.items)) (2 ^ 64 - 1) }
        ensures { (bound : ℕ → ℕ → ℕ)
            → ((more : ℕ) → more ≤ spare
            → ReadsRight bound bounds.now (part_at self.now.parts.items place).worth
            ((part_at self.now.parts.items place).low + more))
            → (place + 1 < length self.now.parts.items → (column : ℕ) → column ≤ spare
            → entry self.now.spreads place column ≡ told (spread bound (drop (place + 1) self.now.parts.items) column))
            → result ≡ told (spread bound (drop place self.now.parts.items) spare) }
    {
        let part = self.parts[place];
        if place + 1 == self.parts.len() {
            return last_spread(part, spare, bounds);
        }
        if let Worth::OfRule { rule, factor: 1 } = part.worth {
            return self.best_of_rule(place, spare, rest_room, bounds.row(rule as usize));
        }
        if let Worth::OfLetters { weight, factor } = part.worth {
            let worth = cut_product(factor, weight);
            return self.best_of_letters(place, spare, rest_room, worth);
        }
        let first = spare.saturating_sub(rest_room);
        let last = spare.min(part.room);
        let mut best = 0;
        for more in first..last + 1 {
            let here = part.worth.at(bounds, part.low + more);
            let rest = self.spreads.get(place, spare - more);
            best = best.max(cut_sum(here, rest));
        }
        best
    }

    /// The same, where each letter of the first of these parts adds so much.
    fn best_of_letters(&self, place: usize, spare: usize, rest_room: usize, worth: u64) -> u64
        requires place { place + 1 < vec_len self.now.parts }
        requires column { spare < self.now.spreads.width }
        requires within { (part_at self.now.parts.items place).low + spare < 2 ^ 64 }
        requires rest_room { rest_room ≡ min (rooms (drop (place + 1) self.now.parts.items)) (2 ^ 64 - 1) }
        ensures { (bound : ℕ → ℕ → ℕ)
            → ((len : ℕ) → told (len * worth) ≡ told (worth_of bound (part_at self.now.parts.items place).worth len))
            → ((column : ℕ) → column ≤ spare → entry self.now.spreads place column
            ≡ told (spread bound (drop (place + 1) self.now.parts.items) column))
            → result ≡ told (spread bound (drop place self.now.parts.items) spare) }
    {
        let part = self.parts[place];
        let first = spare.saturating_sub(rest_room);
        let last = spare.min(part.room);
        let others = self.spreads.row(place);
        let mut best = 0;
        for more in first..last + 1 {
            let here = cut_product((part.low + more) as u64, worth);
            best = best.max(cut_sum(here, others[spare - more]));
        }
        best
    }

    /// The same, where the first of these parts is a rule whose bound is counted once, and these are the rule's bounds.
    fn best_of_rule(&self, place: usize, spare: usize, rest_room: usize, own: &[u64]) -> u64
        requires place { place + 1 < vec_len self.now.parts }
        requires column { spare < self.now.spreads.width }
        requires within { (part_at self.now.parts.items place).low + spare < length own.now }
        requires rest_room { rest_room ≡ min (rooms (drop (place + 1) self.now.parts.items)) (2 ^ 64 - 1) }
        ensures { (bound : ℕ → ℕ → ℕ)
            → ((more : ℕ) → more ≤ spare → slice_index own.now ((part_at self.now.parts.items place).low + more)
            ≡ told (worth_of bound (part_at self.now.parts.items place).worth
            ((part_at self.now.parts.items place).low + more)))
            → ((column : ℕ) → column ≤ spare → entry self.now.spreads place column
            ≡ told (spread bound (drop (place + 1) self.now.parts.items) column))
            → result ≡ told (spread bound (drop place self.now.parts.items) spare) }
    {
        let part = self.parts[place];
        let first = spare.saturating_sub(rest_room);
        let last = spare.min(part.room);
        let others = self.spreads.row(place);
        let mut best = 0;
        for more in first..last + 1 {
            best = best.max(cut_sum(own[part.low + more], others[spare - more]));
        }
        best
    }

    /// Keeps what the parts from this one on add with so many spare letters, where a part stands in front of them.
    fn keep(&mut self, place: usize, spare: usize, best: u64)
        requires place { place < vec_len self.old.parts }
        requires column { spare < self.old.spreads.width }
        ensures constant { self.new.constant ≡ self.old.constant }
        ensures fixed { self.new.fixed ≡ self.old.fixed }
        ensures low { self.new.low ≡ self.old.low }
        ensures parts { self.new.parts.items ≡ self.old.parts.items }
        ensures width { self.new.spreads.width ≡ self.old.spreads.width }
        ensures here { 0 < place → entry self.new.spreads (place - 1) spare ≡ best }
        ensures other_columns { (row column : ℕ) → column ≢ spare → column < self.old.spreads.width
            → entry self.new.spreads row column ≡ entry self.old.spreads row column }
        ensures other_rows { (row : ℕ) → row + 1 ≢ place
            → entry self.new.spreads row spare ≡ entry self.old.spreads row spare }
    {
        if place > 0 {
            self.spreads.set(place - 1, spare, best);
        }
    }

    /// The greatest value of the alternative over its ways to have this length, cut; 0 where there is no way. The
    /// values at all lesser lengths were asked for before, and the table has the bounds of rules that it needs.
    pub fn extend(&mut self, bounds: &Table, len: usize) -> u64
        requires readable { All (λ part. IsReadable bounds.now.rows part.worth) self.old.parts.items }
        requires within { len < bounds.now.width }
        requires columns { bounds.now.width ≤ self.old.spreads.width }
        requires short { len < 2 ^ 32 }
        ensures constant { self.new.constant ≡ self.old.constant }
        ensures fixed { self.new.fixed ≡ self.old.fixed }
        ensures low { self.new.low ≡ self.old.low }
        ensures parts { self.new.parts.items ≡ self.old.parts.items }
        ensures width { self.new.spreads.width ≡ self.old.spreads.width }
        ensures value { (bound : ℕ → ℕ → ℕ)
            → (self.old.fixed ≤ len → AreRead bound bounds.now self.old.parts.items (len - self.old.fixed))
            → AreSpread bound self.old (len - (self.old.fixed + lows self.old.parts.items))
            → result ≡ told (linear_value bound self.old.constant self.old.fixed self.old.parts.items len) }
        ensures spread { (bound : ℕ → ℕ → ℕ)
            → (self.old.fixed ≤ len → AreRead bound bounds.now self.old.parts.items (len - self.old.fixed))
            → AreSpread bound self.old (len - (self.old.fixed + lows self.old.parts.items))
            → AreSpread bound self.new (len + 1 - (self.old.fixed + lows self.old.parts.items)) }
    {
        if self.parts.len() == 1 {
            self.value_of_one(bounds, len)
        } else {
            self.sweep(bounds, len)
        }
    }

    /// The same, where there is but one part, which no row is kept for.
    #[inline(always)]
    fn value_of_one(&self, bounds: &Table, len: usize) -> u64
        requires one { vec_len self.now.parts ≡ 1 }
        requires readable { All (λ part. IsReadable bounds.now.rows part.worth) self.now.parts.items }
        requires within { len < bounds.now.width }
        requires short { len < 2 ^ 32 }
        ensures { (bound : ℕ → ℕ → ℕ)
            → (self.now.fixed ≤ len → AreRead bound bounds.now self.now.parts.items (len - self.now.fixed))
            → result ≡ told (linear_value bound self.now.constant self.now.fixed self.now.parts.items len) }
    {
        if len < self.low {
            return 0;
        }
        let part = self.parts[0];
        let spare = len - self.low;
        if spare > part.room {
            return 0;
        }
        cut_sum(self.constant, last_spread(part, spare, bounds))
    }

    /// The same for any number of parts, from the last one on.
    fn sweep(&mut self, bounds: &Table, len: usize) -> u64
        requires readable { All (λ part. IsReadable bounds.now.rows part.worth) self.old.parts.items }
        requires within { len < bounds.now.width }
        requires columns { bounds.now.width ≤ self.old.spreads.width }
        requires short { len < 2 ^ 32 }
        ensures constant { self.new.constant ≡ self.old.constant }
        ensures fixed { self.new.fixed ≡ self.old.fixed }
        ensures low { self.new.low ≡ self.old.low }
        ensures parts { self.new.parts.items ≡ self.old.parts.items }
        ensures width { self.new.spreads.width ≡ self.old.spreads.width }
        ensures value { (bound : ℕ → ℕ → ℕ)
            → (self.old.fixed ≤ len → AreRead bound bounds.now self.old.parts.items (len - self.old.fixed))
            → AreSpread bound self.old (len - (self.old.fixed + lows self.old.parts.items))
            → result ≡ told (linear_value bound self.old.constant self.old.fixed self.old.parts.items len) }
        ensures spread { (bound : ℕ → ℕ → ℕ)
            → (self.old.fixed ≤ len → AreRead bound bounds.now self.old.parts.items (len - self.old.fixed))
            → AreSpread bound self.old (len - (self.old.fixed + lows self.old.parts.items))
            → AreSpread bound self.new (len + 1 - (self.old.fixed + lows self.old.parts.items)) }
    {
        if len < self.low {
            return 0;
        }
        let spare = len - self.low;
        let mut best = 0;
        let mut rest_room: usize = 0;
        for place in (0..self.parts.len()).rev() {
            best = self.best_spread(place, spare, rest_room, bounds);
            self.keep(place, spare, best);
            rest_room = rest_room.saturating_add(self.parts[place].room);
        }
        if spare > rest_room {
            return 0;
        }
        cut_sum(self.constant, best)
    }
}

/// What a part adds that all spare letters are given to, cut; 0 where they are too many.
fn last_spread(part: Part, spare: usize, bounds: &Table) -> u64
    requires readable { IsReadable bounds.now.rows part.worth }
    requires within { part.low + spare < bounds.now.width }
    ensures { (bound : ℕ → ℕ → ℕ) → ReadsRight bound bounds.now part.worth (part.low + spare)
        → result ≡ told (spread bound (part ∷ []) spare) }
{
    if spare > part.room {
        return 0;
    }
    part.worth.at(bounds, part.low + spare)
}
