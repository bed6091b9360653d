//! Parts of a problem: its word, and of its grammar and its algebra what it is asked for most.

ghost use Rattle.std.specs.Prelude.{◌≡◌, ℕ, ◌<◌, ◌≤◌, ◌↔◌, IfSome, IsTrue, length};
ghost use Rattle.std.specs.List.{AllByRecursion};
ghost use Rattle.adp_model.specs.Lengths.{AllowsLength};
ghost use Rattle.adp_model.specs.Parts.{algebra_of, alternative_at, alternatives_of, arguments_of, letters_of, term_of};
ghost use Rattle.adp_model.specs.PosedProblem.{axiom_cell};
ghost use Rattle.adp_model.specs.ProblemFields.{most_letters};
ghost use Rattle.adp_model.specs.Sizes.{IsWithinSizes};
ghost use Rattle.adp_model.specs.TermForms.{IsTermFor};
ghost use Rattle.adp_model.specs.WellFormed.{IsKnown};

use crate::cell::Cell;
use crate::grammar::{Algebra, Alt, Arg, Goal, Term};
use crate::laws::sizes::sizes_are_the_checked_numbers;
use crate::laws::well_formed::{
    alternatives_fit, arguments_are_few_and_known, terms_fit_their_alternatives,
};
use crate::problem::Problem;

/// The most letters that the word of a problem has.
pub const MOST_LETTERS: usize = 4_000;

impl<'a> Problem<'a> {
    /// The letters of the word: at most 4,000. Takes no memory.
    #[inline(always)]
    pub fn letters(&self) -> &'a [u8]
        ensures word { result.now ≡ self.now.word }
        ensures few { length result.now ≤ most_letters }
    {
        self.word.bytes()
    }

    /// The cell of the axiom and the whole word. Takes no memory.
    pub fn axiom_cell(&self) -> Cell
        ensures { result ≡ axiom_cell self.now }
    {
        Cell {
            rule: self.grammar.axiom,
            from: 0,
            to: self.letters().len() as u16,
        }
    }

    /// The letters of a class with their weights. Takes no memory.
    #[inline(always)]
    pub fn class_letters(&self, class: u32) -> &'a [(u8, i64)]
        requires { class < length self.now.grammar.classes }
        ensures { result.now ≡ letters_of self.now.grammar class }
    {
        self.grammar.classes.as_slice()[class as usize]
            .letters
            .as_slice()
    }

    /// The least and the greatest size of a rule, in letters; the greatest is `None` where it is unbounded. Takes no
    /// memory.
    #[inline(always)]
    pub fn sizes(&self, rule: u32) -> (u32, Option<u32>)
        requires { rule < length self.now.grammar.rules }
        ensures { (len : ℕ) → IsWithinSizes self.now.grammar rule len
            ↔ ((result.0 ≤ len) × IfSome result.1 (λ most. len ≤ most)) }
    {
        sizes_are_the_checked_numbers();
        let rule = rule as usize;
        (self.least.as_slice()[rule], self.greatest.as_slice()[rule])
    }

    /// The alternatives of a rule: one to 64. Takes no memory.
    #[inline(always)]
    pub fn alternatives(&self, rule: u32) -> &'a [Alt]
        requires { rule < length self.now.grammar.rules }
        ensures alternatives { result.now ≡ alternatives_of self.now.grammar rule }
        ensures some { 1 ≤ length result.now }
        ensures few { length result.now ≤ 64 }
    {
        self.admissible();
        alternatives_fit();
        self.grammar.rules.as_slice()[rule as usize].alts.as_slice()
    }

    /// The arguments of an alternative: one to four, and the rules and classes that they name are there. Takes no
    /// memory.
    #[inline(always)]
    pub fn arguments(&self, rule: u32, alt: u8) -> &'a [Arg]
        requires { alt < length (alternatives_of self.now.grammar rule) }
        ensures arguments { result.now ≡ arguments_of self.now.grammar rule alt }
        ensures some { 1 ≤ length result.now }
        ensures few { length result.now ≤ 4 }
        ensures known { AllByRecursion (IsKnown self.now.grammar) result.now }
    {
        self.admissible();
        alternatives_fit();
        arguments_are_few_and_known();
        self.alternatives(rule)[alt as usize].args.as_slice()
    }

    /// An alternative. Takes no memory.
    #[inline(always)]
    pub fn alternative(&self, rule: u32, alt: u8) -> &'a Alt
        requires { alt < length (alternatives_of self.now.grammar rule) }
        ensures { result.now ≡ alternative_at self.now.grammar rule alt }
    {
        alternatives_fit();
        &self.alternatives(rule)[alt as usize]
    }

    /// Whether an alternative may be used over so many letters. Takes no memory.
    #[inline(always)]
    pub fn allows(&self, rule: u32, alt: u8, letters: usize) -> bool
        requires { alt < length (alternatives_of self.now.grammar rule) }
        ensures { IsTrue result ↔ AllowsLength (alternative_at self.now.grammar rule alt) letters }
    {
        self.alternative(rule, alt).allows(letters)
    }

    /// The algebra.
    fn algebra(&self) -> &'a Algebra
        ensures { result.now ≡ algebra_of self.now }
    {
        &self.grammar.algebras.as_slice()[self.algebra as usize]
    }

    /// Which scores are better. Takes no memory.
    pub fn goal(&self) -> Goal
        ensures { result ≡ (algebra_of self.now).goal }
    {
        self.algebra().goal
    }

    /// The algebra's term for an alternative, of its arguments. Takes no memory.
    pub fn term(&self, rule: u32, alt: u8) -> &'a Term
        requires { alt < length (alternatives_of self.now.grammar rule) }
        ensures term { result.now ≡ term_of self.now rule alt }
        ensures fits { IsTermFor (length (arguments_of self.now.grammar rule alt)) result.now }
    {
        self.admissible();
        alternatives_fit();
        terms_fit_their_alternatives();
        let sign = self.alternatives(rule)[alt as usize].sign;
        &self.algebra().terms.as_slice()[sign as usize]
    }
}
