ghost use Rattle.std.specs.Prelude.{◌≡◌, ℕ, ◌+◌, ◌^◌, ◌<◌, ◌≤◌, [], ◌∷◌, ◌++◌, true, max, length, slice_index_or, vec_len, List, OnOk, IfSome};
ghost use Rattle.std.specs.List.{All};
ghost use mathlib.Core.Logic.{inl, inr};
ghost use Rattle.adp_model.specs.LimitFaults.{told};
ghost use Rattle.adp_model.specs.Terms.{leaves};
ghost use Rattle.grammar_check.specs.declared.part.Part.{Part};
ghost use Rattle.grammar_check.specs.Fills.{IsRuleReadable, IsRuleSpread, IsRuleWide, kept_plan};
ghost use Rattle.grammar_check.specs.KeptPlans.{AddsKept, Keeps};
ghost use Rattle.grammar_check.specs.RuleValues.{Entry, IsWide, IsAllReadable, kept_of, plan_of, kept_rule_value, AreAllRead, IsSpreadTo};
ghost use Rattle.grammar_check.specs.SingleRules.{all_singles, single_kept};
ghost use Rattle.grammar_check.specs.TokenNumbers.{greatest_of, token_number};

use crate::alternative::Alternative;
use crate::cut::cut_sum;
use crate::part::{Part, fixed_length, fixed_worth, has, open_parts};
use crate::singles::{Shape, Single, Singles, greatest_single, single_of};
use crate::table::Table;
use crate::wide_alternative::WideAlternative;
use adp_model::WideTerm;
use std::alloc::{AllocError, Global};

/// The alternatives of a rule, for the rows of a bound: one of those with the same parts and as many letters of tokens.
/// Those whose one part is a rule that is counted once stand by their shapes, and the others by themselves. Its tokens
/// are those of all alternatives that add something, each once.
#[derive(Drop)]
pub struct RulePlan<'a> {
    pub singles: Vec<Singles>,
    pub alternatives: Vec<Alternative<'a>>,
    pub tokens: Vec<Part>,
}

impl<'a> RulePlan<'a> {
    /// The plan of no alternatives.
    pub fn new(alloc: Global) -> RulePlan<'a>
        ensures keeps { Keeps [] result }
        ensures columns { (width : ℕ) → IsRuleWide width result }
    {
        RulePlan {
            singles: Vec::new(alloc),
            alternatives: Vec::new(alloc),
            tokens: Vec::new(alloc),
        }
    }

    /// Adds an alternative whose parts add up, which adds this of its own and has these parts, for lengths up to
    /// `most`.
    pub fn add(
        &mut self,
        alloc: Global,
        constant: u64,
        parts: &[Part],
        most: usize,
    ) -> Result<(), AllocError>
        requires few { length parts.now ≤ 4 }
        requires short { most ≤ 4000 }
        ensures keeps { OnOk result ((entries : List Entry) → Keeps entries self.old
            → Keeps (entries ++ (inl constant, parts.now) ∷ []) self.new) }
        ensures columns { OnOk result (IsRuleWide (most + 1) self.old → IsRuleWide (most + 1) self.new) }
    {
        self.add_tokens(parts)?;
        let open = open_parts(alloc, parts)?;
        let constant = cut_sum(constant, fixed_worth(parts));
        self.add_kept(alloc, constant, fixed_length(parts), open, most)
    }

    /// Adds an alternative with a wide term, which has these parts, for lengths up to `most`.
    pub fn add_wide(
        &mut self,
        alloc: Global,
        term: &'a WideTerm,
        parts: Vec<Part>,
        most: usize,
    ) -> Result<(), AllocError>
        requires few { length (leaves term.now) ≤ 32 }
        requires short { most ≤ 4000 }
        ensures keeps { OnOk result ((entries : List Entry) → Keeps entries self.old
            → Keeps (entries ++ (inr term.now, parts.items) ∷ []) self.new) }
        ensures columns { OnOk result (IsRuleWide (most + 1) self.old → IsRuleWide (most + 1) self.new) }
    {
        self.add_tokens(&parts)?;
        let alternative = WideAlternative::new(alloc, term, parts, most)?;
        self.alternatives.push(Alternative::Wide(alternative))?;
        Ok(())
    }

    /// Adds what is kept of an alternative whose parts add up: this of its own, tokens of so many letters, and these
    /// parts.
    fn add_kept(
        &mut self,
        alloc: Global,
        constant: u64,
        fixed: usize,
        parts: Vec<Part>,
        most: usize,
    ) -> Result<(), AllocError>
        requires few { vec_len parts ≤ 4 }
        requires short { most ≤ 4000 }
        ensures tokens { self.new.tokens ≡ self.old.tokens }
        ensures kept { OnOk result (AddsKept (kept_plan self.old) (kept_plan self.new)
            (inl constant, fixed, parts.items)) }
        ensures columns { OnOk result (IsRuleWide (most + 1) self.old → IsRuleWide (most + 1) self.new) }
    {
        match single_of(constant, fixed, &parts) {
            Some((shape, single)) => self.add_single(alloc, shape, single),
            None => self.add_parts(alloc, constant, fixed, parts, most),
        }
    }

    /// The same, where its one part is a rule that is counted once.
    fn add_single(&mut self, alloc: Global, shape: Shape, single: Single) -> Result<(), AllocError>
        ensures tokens { self.new.tokens ≡ self.old.tokens }
        ensures alternatives { self.new.alternatives ≡ self.old.alternatives }
        ensures kept { OnOk result (AddsKept (all_singles self.old.singles.items) (all_singles self.new.singles.items)
            (single_kept shape single)) }
    {
        if let Some(place) = self.place_of_shape(shape) {
            return self.singles[place].add(single);
        }
        let singles = Singles::of(alloc, shape, single)?;
        self.singles.push(singles)?;
        Ok(())
    }

    /// The number of the alternatives of this shape.
    fn place_of_shape(&self, shape: Shape) -> Option<usize>
        ensures inside { IfSome result (λ place. place < length self.now.singles.items) }
        ensures same { IfSome result (λ place. (d : Singles)
            → (slice_index_or self.now.singles.items place d).shape ≡ shape) }
    {
        for (place, singles) in self.singles.iter().enumerate() {
            if singles.shape.is_same(shape) {
                return Some(place);
            }
        }
        None
    }

    /// The same for any parts.
    fn add_parts(
        &mut self,
        alloc: Global,
        constant: u64,
        fixed: usize,
        parts: Vec<Part>,
        most: usize,
    ) -> Result<(), AllocError>
        requires few { vec_len parts ≤ 4 }
        requires short { most ≤ 4000 }
        ensures tokens { self.new.tokens ≡ self.old.tokens }
        ensures singles { self.new.singles ≡ self.old.singles }
        ensures kept { OnOk result (AddsKept (plan_of self.old.alternatives.items) (plan_of self.new.alternatives.items)
            (inl constant, fixed, parts.items)) }
        ensures columns { OnOk result (IsRuleWide (most + 1) self.old → IsRuleWide (most + 1) self.new) }
    {
        if let Some(place) = self.place_of(fixed, &parts) {
            self.alternatives[place].raise(constant);
            return Ok(());
        }
        let alternative = Alternative::adding(alloc, constant, fixed, parts, most)?;
        self.alternatives.push(alternative)?;
        Ok(())
    }

    /// Adds the tokens among the parts.
    fn add_tokens(&mut self, parts: &[Part]) -> Result<(), AllocError>
        ensures singles { self.new.singles ≡ self.old.singles }
        ensures alternatives { self.new.alternatives ≡ self.old.alternatives }
        ensures tokens { OnOk result ((len : ℕ) → greatest_of (token_number len) self.new.tokens.items
            ≡ max (greatest_of (token_number len) self.old.tokens.items) (greatest_of (token_number len) parts.now)) }
    {
        let mut rest = parts;
        while let Some((first, others)) = rest.split_first() {
            self.add_token(*first)?;
            rest = others;
        }
        Ok(())
    }

    /// Adds the part to the tokens, where it is a token that adds something.
    fn add_token(&mut self, part: Part) -> Result<(), AllocError>
        ensures singles { self.new.singles ≡ self.old.singles }
        ensures alternatives { self.new.alternatives ≡ self.old.alternatives }
        ensures tokens { OnOk result ((len : ℕ) → greatest_of (token_number len) self.new.tokens.items
            ≡ max (greatest_of (token_number len) self.old.tokens.items) (token_number len part)) }
    {
        if part.worth.letter_weight() > 0 && !has(&self.tokens, part) {
            self.tokens.push(part)?;
        }
        Ok(())
    }

    /// The number of an alternative whose parts add up, with the same parts and as many letters of tokens.
    fn place_of(&self, fixed: usize, parts: &[Part]) -> Option<usize>
        ensures inside { IfSome result (λ place. place < length self.now.alternatives.items) }
        ensures same { IfSome result (λ place. (d : Alternative) → (constant : ℕ)
            × (kept_of (slice_index_or self.now.alternatives.items place d) ≡ (inl constant, fixed, parts.now))) }
    {
        for (place, alternative) in self.alternatives.iter().enumerate() {
            if alternative.has_parts(fixed, parts) {
                return Some(place);
            }
        }
        None
    }

    /// The greatest value of the rule over all ways to have this length, cut; 0 where there is no way. The values at
    /// all lesser lengths were asked for before, and the table has the bounds of rules that it needs.
    pub fn extend(&mut self, bounds: &Table, len: usize) -> u64
        requires readable { IsRuleReadable bounds.now.rows self.old }
        requires within { len < bounds.now.width }
        requires columns { IsRuleWide bounds.now.width self.old }
        requires short { len < 2 ^ 32 }
        ensures plan { kept_plan self.new ≡ kept_plan self.old }
        ensures tokens { self.new.tokens ≡ self.old.tokens }
        ensures readable { IsRuleReadable bounds.now.rows self.new }
        ensures columns { IsRuleWide bounds.now.width self.new }
        ensures value { (bound : ℕ → ℕ → ℕ) → AreAllRead bound bounds.now (kept_plan self.old) len
            → IsRuleSpread bound len self.old → result ≡ told (kept_rule_value bound (kept_plan self.old) len) }
        ensures spread { (bound : ℕ → ℕ → ℕ) → AreAllRead bound bounds.now (kept_plan self.old) len
            → IsRuleSpread bound len self.old → IsRuleSpread bound (len + 1) self.new }
    {
        let singles = greatest_single(&self.singles, bounds, len);
        self.extend_others(bounds, len).max(singles)
    }

    /// The same, where those whose one part is a rule that is counted once are left out.
    fn extend_others(&mut self, bounds: &Table, len: usize) -> u64
        requires readable { All (λ alternative. IsAllReadable bounds.now.rows alternative) self.old.alternatives.items }
        requires within { len < bounds.now.width }
        requires columns { All (λ alternative. IsWide bounds.now.width alternative) self.old.alternatives.items }
        requires short { len < 2 ^ 32 }
        ensures plan { plan_of self.new.alternatives.items ≡ plan_of self.old.alternatives.items }
        ensures singles { self.new.singles ≡ self.old.singles }
        ensures tokens { self.new.tokens ≡ self.old.tokens }
        ensures readable { All (λ alternative. IsAllReadable bounds.now.rows alternative) self.new.alternatives.items }
        ensures columns { All (λ alternative. IsWide bounds.now.width alternative) self.new.alternatives.items }
        ensures value { (bound : ℕ → ℕ → ℕ) → AreAllRead bound bounds.now (plan_of self.old.alternatives.items) len
            → All (IsSpreadTo bound len) self.old.alternatives.items
            → result ≡ told (kept_rule_value bound (plan_of self.old.alternatives.items) len) }
        ensures spread { (bound : ℕ → ℕ → ℕ) → AreAllRead bound bounds.now (plan_of self.old.alternatives.items) len
            → All (IsSpreadTo bound len) self.old.alternatives.items
            → All (IsSpreadTo bound (len + 1)) self.new.alternatives.items }
    {
        let mut best = 0;
        for place in 0..self.alternatives.len() {
            let alternative = &mut self.alternatives[place];
            let value = alternative.extend(bounds, len);
            best = best.max(value);
        }
        best
    }
}
