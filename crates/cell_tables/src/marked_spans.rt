//! Which cells are marked in their rows.

ghost use Rattle.std.specs.Prelude.{◌≡◌, ◌↔◌, ◌+◌, ◌*◌, ◌/◌, ◌^◌, ◌<◌, ◌≤◌, ℕ, IfSome, IsSome, IsTrue, None, length};
ghost use Rattle.std.specs.List.{Contains};
ghost use Rattle.adp_model.specs.declared.cell.Cell.{Cell};
ghost use Rattle.adp_model.specs.Cells.{IsCountOf};
ghost use Rattle.adp_model.specs.Demand.{IsDemanded, IsDemandedCount};
ghost use Rattle.cell_tables.specs.Spans.{value_at};
ghost use Rattle.cell_tables.specs.Bits.{AreSetToo, IsBitIn, IsSet};
ghost use Rattle.cell_tables.specs.Marks.{AreInRows, AreMarkedToo, IsEndMarked, IsLastMarked, IsMarked, IsMarkedInRow, IsNextMarked, IsSpanMarked};

use crate::bits::{first_bit, last_bit};
use crate::flags::raise;
use crate::grid::Grid;
use crate::marks::Marks;
use cell_layouts::WORD;

impl<'a> Marks<'a> {
    /// The last end before `below` of the spans that begin at `from` and are marked in a row of one of the rules. Takes
    /// no memory.
    pub fn last_marked(&self, rules: &[u32], from: u16, below: u16) -> Option<u16>
        ensures none { result ≡ None → (to : ℕ) → to < below → IsSpanMarked self.now rules.now from to → ⊥ }
        ensures last { IfSome result (IsLastMarked self.now rules.now from below) }
    {
        if below == 0 {
            return None;
        }
        if !self.has_start(from) {
            return None;
        }
        let number = (below - 1) / WORD;
        let bits = self.any_marked(rules, from, number) & bits_before(below, number);
        match last_bit(bits, number) {
            Some(to) => Some(to),
            None => self.last_before(rules, from, number),
        }
    }

    /// The first end from `least` on of the spans that begin from `first` on and before `past` and are marked in a row
    /// of one of the rules. Takes no memory.
    pub fn next_marked(&self, rules: &[u32], first: u16, past: u16, least: u16) -> Option<u16>
        ensures none { result ≡ None → (to : ℕ) → least ≤ to → IsEndMarked self.now rules.now first past to → ⊥ }
        ensures next { IfSome result (IsNextMarked self.now rules.now first past least) }
    {
        let number = least / WORD;
        let bits = self.ends_marked(rules, first, past, number) & bits_from(least, number);
        match first_bit(bits, number) {
            Some(to) => Some(to),
            None => self.next_behind(rules, first, past, number + 1),
        }
    }

    /// Marks the cells that begin at `from` and are marked in their columns in their rows too. Takes no memory.
    pub fn gather(&mut self, from: u16)
        ensures same { AreMarkedToo self.old self.new (λ cell. ⊥) }
        ensures gathered { AreInRows self.new (λ cell. (cell.from ≡ from) × IsMarked self.old cell) }
    {
        self.cells();
        if from > self.length() {
            return;
        }
        for rule in 0..self.rules() {
            self.gather_rule(rule, from);
        }
    }

    /// How many cells are marked in their rows, where these are the demanded cells. Takes no memory.
    pub fn count(&self) -> u64
        requires { (cell : Cell) → IsMarkedInRow self.now cell ↔ IsDemanded self.now.problem cell }
        ensures { IsDemandedCount self.now.problem result }
    {
        self.cells();
        let mut count = 0;
        for rule in 0..self.rules() {
            count += self.count_rule(rule);
        }
        count
    }

    /// The last marked end before the 64 of this number.
    #[inline(never)]
    fn last_before(&self, rules: &[u32], from: u16, past: u16) -> Option<u16>
        requires { past < 2 ^ 10 }
        ensures none { result ≡ None → (to : ℕ) → to < 64 * past → IsSpanMarked self.now rules.now from to → ⊥ }
        ensures last { IfSome result (IsLastMarked self.now rules.now from (64 * past)) }
    {
        let (low, high) = numbers_of(&self.rows, rules, from);
        for number in (low..high.min(past)).rev() {
            if let Some(to) = last_bit(self.any_marked(rules, from, number), number) {
                return Some(to);
            }
        }
        None
    }

    /// From which number of 64 ends on, and before which, spans of the rules end that begin from `first` on and before
    /// `past`.
    fn numbers(&self, rules: &[u32], first: u16, past: u16) -> (u16, u16)
        ensures { (from to : ℕ) → first ≤ from → from < past → IsSpanMarked self.now rules.now from to
            → (result.0 ≤ to / 64) × (to / 64 < result.1) }
    {
        let (mut low, mut high) = (u16::MAX, 0);
        for from in first..past {
            if !self.has_start(from) {
                continue;
            }
            let (from_number, before) = numbers_of(&self.rows, rules, from);
            low = low.min(from_number);
            high = high.max(before);
        }
        (low, high)
    }

    /// The first marked end among those of the 64 of this number and behind.
    #[inline(never)]
    fn next_behind(&self, rules: &[u32], first: u16, past: u16, least: u16) -> Option<u16>
        ensures none { result ≡ None
            → (to : ℕ) → 64 * least ≤ to → IsEndMarked self.now rules.now first past to → ⊥ }
        ensures next { IfSome result (IsNextMarked self.now rules.now first past (64 * least)) }
    {
        self.cells();
        let (low, high) = self.numbers(rules, first, past);
        for number in low.max(least)..high.min(self.length() / WORD + 1) {
            if let Some(to) = first_bit(self.ends_marked(rules, first, past, number), number) {
                return Some(to);
            }
        }
        None
    }

    /// The bits of the spans from `from` whose ends are the 64 of this number: set where they are marked in a row of
    /// one of the rules.
    fn any_marked(&self, rules: &[u32], from: u16, number: u16) -> u64
        ensures { (to : ℕ) → IsBitIn result number to
            ↔ ((to / 64 ≡ number) × IsSpanMarked self.now rules.now from to) }
    {
        if !self.has_start(from) {
            return 0;
        }
        any_set(&self.rows, rules, from, number)
    }

    /// The bits of the 64 ends of this number: set where a span that begins from `first` on and before `past` is marked
    /// in a row of one of the rules.
    fn ends_marked(&self, rules: &[u32], first: u16, past: u16, number: u16) -> u64
        ensures { (to : ℕ) → IsBitIn result number to
            ↔ ((to / 64 ≡ number) × IsEndMarked self.now rules.now first past to) }
    {
        let mut bits = 0;
        for from in first..past {
            bits |= self.any_marked(rules, from, number);
        }
        bits
    }

    /// Marks the cells of a rule that begin at `from` and are marked in their columns in their row too.
    fn gather_rule(&mut self, rule: u32, from: u16)
        requires rule { rule < length self.old.problem.grammar.rules }
        requires from { from ≤ length self.old.problem.word }
        ensures same { AreMarkedToo self.old self.new (λ cell. ⊥) }
        ensures gathered { AreInRows self.new
            (λ cell. (cell.rule ≡ rule) × (cell.from ≡ from) × IsMarked self.old cell) }
    {
        if !self.is_in_columns(rule) {
            return;
        }
        let ends = self.layout.ends(rule, from);
        let any = gather_row(
            &mut self.rows,
            &self.columns,
            rule,
            from,
            ends.start,
            ends.end,
        );
        raise(&mut self.begun, from as usize, any);
    }

    /// How many cells of a rule are marked in their rows.
    fn count_rule(&self, rule: u32) -> u64
        requires { rule < length self.now.problem.grammar.rules }
        ensures count { IsCountOf (λ cell. IsMarkedInRow self.now cell × (cell.rule ≡ rule)) result }
        ensures few { result ≤ 2 ^ 32 }
    {
        self.cells();
        let mut count = 0;
        for from in 0..self.length() + 1 {
            count += self.count_row(rule, from);
        }
        count
    }

    /// How many cells of a rule that begin at `from` are marked in their row.
    fn count_row(&self, rule: u32, from: u16) -> u64
        requires rule { rule < length self.now.problem.grammar.rules }
        requires from { from ≤ length self.now.problem.word }
        ensures count { IsCountOf
            (λ cell. IsMarkedInRow self.now cell × (cell.rule ≡ rule) × (cell.from ≡ from)) result }
        ensures few { result ≤ 2 ^ 16 }
    {
        if !self.has_start(from) {
            return 0;
        }
        self.cells();
        let ends = self.layout.ends(rule, from);
        let mut count = 0;
        for number in ends.start / WORD..ends.end.div_ceil(WORD) {
            let bits = self.rows.get(rule, from, number).unwrap_or(0);
            count += u64::from(bits.count_ones());
        }
        count
    }
}

/// The bits of the 64 places of a number that lie before `below`.
fn bits_before(below: u16, number: u16) -> u64
    requires { 64 * number < below }
    ensures { (place : ℕ) → IsBitIn result number place ↔ ((place / 64 ≡ number) × (place < below)) }
{
    u64::MAX >> (WORD - WORD.min(below - number * WORD))
}

/// The bits of the 64 places of a number that lie from `least` on.
fn bits_from(least: u16, number: u16) -> u64
    requires from { least < 64 * number + 64 }
    requires few { number < 2 ^ 10 }
    ensures { (place : ℕ) → IsBitIn result number place ↔ ((place / 64 ≡ number) × (least ≤ place)) }
{
    u64::MAX << least.saturating_sub(number * WORD)
}

/// From which number of 64 far ends on, and before which, spans of the rules with this near end have bits.
fn numbers_of(spans: &Grid<u64>, rules: &[u32], near: u16) -> (u16, u16)
    ensures { (rule number : ℕ) → Contains rules.now rule → IsSome (value_at spans.now rule near number)
        → (result.0 ≤ number) × (number < result.1) }
{
    let (mut low, mut high) = (u16::MAX, 0);
    for rule in rules {
        if let Some(block) = spans.block(*rule, near) {
            low = low.min(block.first);
            high = high.max(block.past);
        }
    }
    (low, high)
}

/// The bits of the spans with this near end whose far ends are the 64 of this number: set where they are set at one of
/// the rules.
fn any_set(spans: &Grid<u64>, rules: &[u32], near: u16, number: u16) -> u64
    ensures { (far : ℕ) → IsBitIn result number far
        ↔ ((far / 64 ≡ number) × ((rule : ℕ) × Contains rules.now rule × IsSet spans.now rule near far)) }
{
    let mut bits = 0;
    for rule in rules {
        bits |= spans.get(*rule, near, number).unwrap_or(0);
    }
    bits
}

/// The bits of the ends from `first` on and before `past`, which are among the 64 of this number: set where they are
/// set in the columns.
fn turned_bits(columns: &Grid<u64>, rule: u32, from: u16, number: u16, first: u16, past: u16) -> u64
    requires first { 64 * number ≤ first }
    requires in_order { first ≤ past }
    requires past { past ≤ 64 * number + 64 }
    ensures { (to : ℕ) → IsBitIn result number to
        ↔ ((first ≤ to) × (to < past) × IsSet columns.now rule to from) }
{
    let mut bits = 0;
    for to in first..past {
        bits |= u64::from(columns.is_set(rule, to, from)) << (to % WORD);
    }
    bits
}

/// Sets the bits of the ends from `first` on and before `past` in a row that are set in the columns, and tells whether
/// there is one.
fn gather_row(
    rows: &mut Grid<u64>,
    columns: &Grid<u64>,
    rule: u32,
    from: u16,
    first: u16,
    past: u16,
) -> bool
    requires in_order { first ≤ past }
    requires there { (to : ℕ) → first ≤ to → to < past → IsSome (value_at rows.old rule from (to / 64)) }
    ensures set { AreSetToo rows.old rows.new rule from
        (λ to. (first ≤ to) × (to < past) × IsSet columns.now rule to from) }
    ensures any { IsTrue result ↔ ((to : ℕ) × ((first ≤ to) × (to < past) × IsSet columns.now rule to from)) }
{
    let mut any = false;
    for number in first / WORD..past.div_ceil(WORD) {
        let start = number * WORD;
        let end = start + WORD.min(past - start);
        let bits = turned_bits(columns, rule, from, number, first.max(start), end);
        if bits != 0 {
            rows.set_word(rule, from, number, bits);
            any = true;
        }
    }
    any
}
