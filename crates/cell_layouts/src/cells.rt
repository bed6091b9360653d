//! The cells that the cell bound counts.

ghost use Rattle.std.specs.Prelude.{◌≡◌, ℕ, ◌+◌, ◌<◌, ◌≤◌, ◌↔◌, length, IfSome, IsTrue};
ghost use Rattle.adp_model.specs.WellFormed.{is_well_formed};
ghost use Rattle.adp_model.specs.declared.grammar.Grammar.{Grammar};
ghost use Rattle.adp_model.specs.Cells.{IsCellBound, IsPlaceOf};
ghost use Rattle.yield_sizes.specs.GrammarSizes.{AreSizes, AreAnchors};
ghost use Rattle.cell_layouts.specs.CountedCells.{LeavesSpan, bounds_in};
ghost use Rattle.cell_layouts.specs.Layout.{AreBoundsOf, cell_at};

use crate::layout::Side;
use adp_model::Grammar;
use adp_model::laws::cells::places_go_on;
use adp_model::laws::sizes::sizes_are_numbers;
use adp_model::laws::well_formed::numbers_fit_together;
use std::ops::Range;
use yield_sizes::{Anchors, Sizes};

/// What decides which cells of a rule are counted: its sizes, and whether it is anchored.
#[derive(Clone, Copy)]
pub struct RuleBounds {
    pub least: u32,
    pub greatest: Option<u32>,
    pub left: bool,
    pub right: bool,
}

impl RuleBounds {
    /// The ends that are left to the rule's cells which begin at `from`, in words of `len` letters.
    pub fn ends(self, len: u16, from: u16) -> Range<u16>
        requires short { len ≤ 4000 }
        requires within { from ≤ len }
        ensures ends { (to : ℕ) → LeavesSpan self len from to ↔ ((result.start ≤ to) × (to < result.end)) }
        ensures in_order { result.start ≤ result.end }
        ensures in_word { result.end ≤ len + 1 }
    {
        let room = u32::from(len - from);
        if (self.left && from > 0) || self.least > room {
            return from..from;
        }
        let shortest = if self.right { room } else { self.least };
        let longest = self.greatest.map_or(room, |most| most.min(room));
        from + shortest as u16..from + shortest.max(longest + 1) as u16
    }

    /// The starts that are left to the rule's cells which end at `to`, in words of `len` letters.
    fn starts(self, len: u16, to: u16) -> Range<u16>
        requires short { len ≤ 4000 }
        requires within { to ≤ len }
        ensures starts { (from : ℕ) → LeavesSpan self len from to ↔ ((result.start ≤ from) × (from < result.end)) }
        ensures in_order { result.start ≤ result.end }
        ensures in_word { result.end ≤ len + 1 }
    {
        if (self.right && to < len) || self.least > u32::from(to) {
            return to..to;
        }
        let first = self
            .greatest
            .map_or(0, |most| u32::from(to).saturating_sub(most) as u16);
        let last = if self.left { 0 } else { to - self.least as u16 };
        first..first.max(last + 1)
    }

    /// The far ends that are left to the rule's cells at a near end, in words of `len` letters.
    pub fn fars(self, len: u16, side: Side, near: u16) -> Range<u16>
        requires short { len ≤ 4000 }
        requires near { near ≤ len }
        ensures fars { (far : ℕ) → LeavesSpan self len (cell_at side 0 near far).from (cell_at side 0 near far).to
            ↔ ((result.start ≤ far) × (far < result.end)) }
        ensures in_order { result.start ≤ result.end }
        ensures in_word { result.end ≤ len + 1 }
    {
        match side {
            Side::Rows => self.ends(len, near),
            Side::Columns => self.starts(len, near),
        }
    }

    /// The greatest length of the rule's cells in words of `len` letters.
    fn longest(self, len: u32) -> u32
        ensures told { (letters : ℕ) → letters ≤ len
            → IfSome self.greatest (λ most. letters ≤ most) ↔ (letters ≤ result) }
        ensures in_word { result ≤ len }
    {
        self.greatest.map_or(len, |most| most.min(len))
    }

    /// How many cells are left to the rule, in words of `len` letters. Takes constant time.
    fn count(self, len: u16) -> u32
        requires short { len ≤ 4000 }
        ensures all { (grammar : Grammar) (rule before : ℕ) → AreBoundsOf grammar len rule self
            → IsPlaceOf grammar len (record { rule = rule; from = 0; to = 0 }) before
            → IsPlaceOf grammar len (record { rule = rule + 1; from = 0; to = 0 }) (before + result) }
        ensures few { result ≤ 16008001 }
    {
        places_go_on();
        let len = u32::from(len);
        let longest = self.longest(len);
        let lengths = (longest + 1).saturating_sub(self.least);
        match (self.left, self.right) {
            (true, true) => (longest + 1).saturating_sub(self.least.max(len)),
            (true, false) | (false, true) => lengths,
            (false, false) => lengths * (len + 1 - longest)
                + lengths * lengths.saturating_sub(1) / 2,
        }
    }
}

/// The sizes and the anchors of all rules of a grammar.
#[derive(Clone, Copy)]
pub struct AllBounds<'a> {
    pub least: &'a [u32],
    pub greatest: &'a [Option<u32>],
    pub left: &'a [bool],
    pub right: &'a [bool],
}

impl AllBounds<'_> {
    /// The bounds of one rule.
    pub fn of_rule(&self, rule: usize) -> RuleBounds
        requires least { rule < length self.now.least.now }
        requires greatest { rule < length self.now.greatest.now }
        requires left { rule < length self.now.left.now }
        requires right { rule < length self.now.right.now }
        ensures { result
            ≡ bounds_in self.now.least.now self.now.greatest.now self.now.left.now self.now.right.now rule }
    {
        RuleBounds {
            least: self.least[rule],
            greatest: self.greatest[rule],
            left: self.left[rule],
            right: self.right[rule],
        }
    }
}

/// The cell bound of words of `n` letters: the number of cells whose length lies between their rule's sizes, and which
/// begin and end where the rule is anchored. Takes constant time for each rule and no memory.
pub fn cell_bound(grammar: &Grammar, sizes: &Sizes, anchors: &Anchors, n: u32) -> u64
    requires well_formed { IsTrue (is_well_formed grammar.now) }
    requires sizes { AreSizes grammar.now sizes.now }
    requires anchors { AreAnchors grammar.now anchors.now }
    requires letters { n ≤ 4000 }
    ensures { IsCellBound grammar.now n result }
{
    numbers_fit_together();
    sizes_are_numbers();
    places_go_on();
    let all = AllBounds {
        least: sizes.least.as_slice(),
        greatest: sizes.greatest.as_slice(),
        left: anchors.left.as_slice(),
        right: anchors.right.as_slice(),
    };
    let mut count = 0;
    for rule in 0..grammar.rules.as_slice().len() {
        count += u64::from(all.of_rule(rule).count(n as u16));
    }
    count
}
