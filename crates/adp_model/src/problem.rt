mod parts;

use crate::grammar::Grammar;
use crate::sequence::Sequence;
use crate::text::Text;
pub use parts::MOST_LETTERS;
use std::marker::Model;

/// A problem that was admitted: a grammar that passed its checks, one of its algebras by its number, and a word within
/// the limits, with what the checks found. For each rule there is its least size, its greatest size (`None` where it is
/// unbounded), its rank, and whether its cells all begin where the word begins (`left`) or all end where it ends
/// (`right`); `cells` is the cell bound and `score_bound` the score bound. Contracts see it as grammar, algebra and
/// word. What depends on the grammar alone is borrowed, so that a problem costs nothing but its word.
#[derive(Drop)]
pub struct Problem<'a> {
    pub grammar: &'a Grammar,
    pub algebra: u32,
    pub word: &'a Text,
    pub least: &'a Sequence<u32>,
    pub greatest: &'a Sequence<Option<u32>>,
    pub ranks: &'a Sequence<u32>,
    pub left: &'a Sequence<bool>,
    pub right: &'a Sequence<bool>,
    pub cells: u64,
    pub score_bound: u64,
}

impl<'a> Model for Problem<'a> {
    ghost use Rattle.adp_model.specs.PosedProblem.{PosedProblem};

    ghost Value = { PosedProblem };

    ghost use Rattle.adp_model.specs.ProblemFields.{posed_problem, IsAdmitted};
    ghost use Rattle.adp_model.specs.WideForm.{form_code};
    ghost use Rattle.std.specs.Coded.{codes};

    ghost coded = { Prim.hlevel (codes, form_code) };

    ghost view = { posed_problem };

    ghost invariant = { IsAdmitted };
}

impl<'a> Problem<'a> {
    ghost use Rattle.adp_model.specs.ProblemFields.{IsAdmissible};

    /// What every problem keeps. Does nothing when it runs.
    pub fn admissible(&self)
        ensures { IsAdmissible self.now }
    {
        let _ = &self.grammar;
    }
}
