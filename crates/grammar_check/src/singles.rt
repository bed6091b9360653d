ghost use Rattle.std.specs.Prelude.{◌≡◌, ℕ, ◌+◌, ◌<◌, [], ◌∷◌, max, true, length, slice_index_or, IfOk, IfSome, OnOk};
ghost use mathlib.Core.Logic.{inl};
ghost use Rattle.std.specs.List.{All};
ghost use Rattle.adp_model.specs.LimitFaults.{told};
ghost use Rattle.grammar_check.specs.KeptPlans.{AddsKept};
ghost use Rattle.grammar_check.specs.RuleValues.{AreAllRead, IsKeptReadable, kept_rule_value};
ghost use Rattle.grammar_check.specs.SingleRules.{AreSinglesRead, all_singles, single_kept, single_number, singles_kept};
ghost use Rattle.grammar_check.specs.TokenNumbers.{greatest_of};

use crate::cut::CUT;
use crate::part::{Part, Worth};
use crate::table::Table;
use std::alloc::{AllocError, Global};

/// The lengths of an alternative with one part: the letters of its tokens, the part's least length, and how many letters
/// more the part may have.
#[derive(Clone, Copy)]
pub struct Shape {
    pub fixed: usize,
    pub low: usize,
    pub room: usize,
}

/// An alternative whose one part is a rule that is counted once: what it adds of its own, and the rule.
#[derive(Clone, Copy)]
pub struct Single {
    pub constant: u64,
    pub rule: u32,
}

/// Alternatives of one shape, one for each rule. A length fits all of them or none, and their greatest value is looked
/// for among pairs of numbers that lie side by side.
#[derive(Drop)]
pub struct Singles {
    pub shape: Shape,
    pub each: Vec<Single>,
}

impl Shape {
    /// Whether the two are the same.
    pub fn is_same(self, other: Shape) -> bool
        ensures { result ≡ true → self ≡ other }
    {
        self.fixed == other.fixed && self.low == other.low && self.room == other.room
    }
}

impl Singles {
    /// The one alternative.
    pub fn of(alloc: Global, shape: Shape, single: Single) -> Result<Singles, AllocError>
        ensures shape { IfOk result (λ singles. singles.shape ≡ shape) }
        ensures each { IfOk result (λ singles. singles.each.items ≡ single ∷ []) }
    {
        let mut each = Vec::new(alloc);
        each.push(single)?;
        Ok(Singles { shape, each })
    }

    /// Adds an alternative. Of two with the same rule the one that adds more of its own stands for both.
    pub fn add(&mut self, single: Single) -> Result<(), AllocError>
        ensures { OnOk result (AddsKept (singles_kept self.old) (singles_kept self.new)
            (single_kept self.old.shape single)) }
    {
        if let Some(place) = self.place_of(single.rule) {
            self.each[place].raise(single.constant);
            return Ok(());
        }
        self.each.push(single)?;
        Ok(())
    }

    /// The number of the alternative with this rule.
    fn place_of(&self, rule: u32) -> Option<usize>
        ensures inside { IfSome result (λ place. place < length self.now.each.items) }
        ensures same { IfSome result (λ place. (d : Single)
            → (slice_index_or self.now.each.items place d).rule ≡ rule) }
    {
        for (place, single) in self.each.iter().enumerate() {
            if single.rule == rule {
                return Some(place);
            }
        }
        None
    }

    /// The greatest value of the alternatives over their ways to have this length, cut; 0 where there is no way. The
    /// table has the bounds of rules that it needs.
    fn greatest(&self, bounds: &Table, len: usize) -> u64
        requires readable { All (IsKeptReadable bounds.now.rows) (singles_kept self.now) }
        requires within { len < bounds.now.width }
        ensures { (bound : ℕ → ℕ → ℕ) → AreAllRead bound bounds.now (singles_kept self.now) len
            → result ≡ told (kept_rule_value bound (singles_kept self.now) len) }
    {
        let shape = self.shape;
        if len < shape.fixed {
            return 0;
        }
        let own = len - shape.fixed;
        if own < shape.low {
            return 0;
        }
        if own - shape.low > shape.room {
            return 0;
        }
        greatest_at(self.each.as_slice(), bounds, own)
    }
}

impl Single {
    /// Raises what it adds of its own to this number, where this is more.
    fn raise(&mut self, constant: u64)
        ensures rule { self.new.rule ≡ self.old.rule }
        ensures constant { self.new.constant ≡ max self.old.constant constant }
    {
        self.constant = self.constant.max(constant);
    }
}

/// The greatest that the alternatives come to, cut, where their rules have this length.
fn greatest_at(each: &[Single], bounds: &Table, own: usize) -> u64
    requires readable { All (λ single. single.rule < bounds.now.rows) each.now }
    requires within { own < bounds.now.width }
    ensures { (bound : ℕ → ℕ → ℕ) → AreSinglesRead bound bounds.now own each.now
        → result ≡ told (greatest_of (single_number bound own) each.now) }
{
    let mut best = 0;
    let mut rest = each;
    while let Some((first, others)) = rest.split_first() {
        let value = first
            .constant
            .saturating_add(bounds.get(first.rule as usize, own));
        best = value.max(best);
        rest = others;
    }
    best.min(CUT)
}

/// The greatest value of all of these, cut; 0 where there is no way to have the length.
pub fn greatest_single(all: &[Singles], bounds: &Table, len: usize) -> u64
    requires readable { All (IsKeptReadable bounds.now.rows) (all_singles all.now) }
    requires within { len < bounds.now.width }
    ensures { (bound : ℕ → ℕ → ℕ) → AreAllRead bound bounds.now (all_singles all.now) len
        → result ≡ told (kept_rule_value bound (all_singles all.now) len) }
{
    let mut best = 0;
    let mut rest = all;
    while let Some((first, others)) = rest.split_first() {
        best = first.greatest(bounds, len).max(best);
        rest = others;
    }
    best
}

/// The shape of an alternative, and what it adds with its rule, where its one part is a rule that is counted once.
pub fn single_of(constant: u64, fixed: usize, parts: &[Part]) -> Option<(Shape, Single)>
    ensures { IfSome result (λ found. single_kept found.0 found.1 ≡ (inl constant, fixed, parts.now)) }
{
    let (first, others) = parts.split_first()?;
    if !others.is_empty() {
        return None;
    }
    match first.worth {
        Worth::OfRule { rule, factor: 1 } => {
            let shape = Shape {
                fixed,
                low: first.low,
                room: first.room,
            };
            Some((shape, Single { constant, rule }))
        }
        _ => None,
    }
}
