//! What is worked out of a problem, as rows ask for it.

ghost use Rattle.std.specs.Prelude.{◌≡◌, ℕ, ◌<◌, IfSome, length, slice_index_or};
ghost use Rattle.adp_model.specs.declared.grammar.Arg.TheVariants.{Rule};
ghost use Rattle.adp_model.specs.Parts.{alternatives_of};
ghost use Rattle.split_lines.specs.declared.kept.KeptAlternative.{KeptAlternative};
ghost use Rattle.split_lines.specs.Kept.{IsAlternative};
ghost use Rattle.cell_demands.specs.LetterRows.{AreBegun, AreLetterRows};

use crate::letter_rows::LetterRows;
use adp_model::{Arg, Problem};
use split_lines::{KeptAlternative, Lines};
use std::marker::Model;
use viable_splits::Matcher;

/// The lines of a problem, and where the letters of its word stand. Contracts see it as the problem.
#[derive(Drop)]
pub struct RowLines<'w, 'a> {
    lines: &'w Lines<'a>,
    letters: &'w LetterRows,
}

impl<'w, 'a> Model for RowLines<'w, 'a> {
    ghost use Rattle.adp_model.specs.PosedProblem.{PosedProblem};
    ghost use Rattle.cell_demands.specs.LetterRows.{AreLetterRows};

    ghost Value = { PosedProblem };

    ghost use Rattle.adp_model.specs.WideForm.{form_code};
    ghost use Rattle.std.specs.Coded.{codes};

    ghost coded = { Prim.hlevel (codes, form_code) };

    ghost view = { λ it. it.lines.now };

    ghost invariant = { λ it. AreLetterRows it.lines.now it.letters.now };
}

impl<'w, 'a> RowLines<'w, 'a> {
    /// The lines of a problem with the letters of its word.
    pub fn new(lines: &'w Lines<'a>, letters: &'w LetterRows) -> RowLines<'w, 'a>
        requires { AreLetterRows lines.now letters.now }
        ensures { result ≡ lines.now }
    {
        RowLines { lines, letters }
    }

    /// The lines.
    pub fn lines(&self) -> &'w Lines<'a>
        ensures { result.now ≡ self.now }
    {
        self.lines
    }

    /// The problem.
    pub fn problem(&self) -> &'a Problem<'a>
        ensures { result.now ≡ self.now }
    {
        self.lines.problem()
    }

    /// The alternatives of a rule.
    pub fn alternatives(&self, rule: u32) -> &[KeptAlternative<'a>]
        requires { rule < length self.now.grammar.rules }
        ensures each { length result.now ≡ length (alternatives_of self.now.grammar rule) }
        ensures are { (alternative : ℕ) (d : KeptAlternative) → alternative < length result.now
            → IsAlternative self.now rule alternative (slice_index_or result.now alternative d) }
    {
        self.lines.alternatives(rule)
    }

    /// Bits of the positions at which an argument may begin, as far as its first letter tells: `None` where any may be
    /// one.
    pub fn begins(&self, argument: &Arg) -> Option<&[u64]>
        ensures begun { IfSome result (λ bits. AreBegun self.now argument.now bits.now) }
        ensures token { IfSome result (λ bits. (rule : ℕ) → argument.now ≡ Rule rule → ⊥) }
    {
        self.letters.begins(argument)
    }
}

impl<'w, 'a> Matcher for RowLines<'w, 'a> {
    ghost posed = { λ lines. lines };

    fn problem(&self) -> &Problem<'_> {
        self.lines.problem()
    }

    fn class_end(&self, class: u32, from: usize, last: usize) -> usize {
        self.lines.class_end(class, from, last)
    }
}
