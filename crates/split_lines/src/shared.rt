//! What words of one grammar share, under one of its algebras, so that it is worked out once for all of them.

ghost use Rattle.std.specs.Prelude.{◌≡◌, IfOk};
ghost use Rattle.split_lines.specs.Shared.{without_word};

use crate::kept_rules::{Kept, KeptRules, kept_rules};
use crate::lines::Lines;
use crate::prepared::Prepared;
use adp_model::{Grammar, Problem};
use cell_tables::{LaidOut, Layout};
use std::alloc::{AllocError, Global};
use std::marker::Model;

/// What a grammar and one of its algebras tell of the alternatives, and where the cells of words of one length lie.
/// Contracts see it as a problem without a word.
#[derive(Drop)]
pub struct Shared<'a> {
    grammar: &'a Grammar,
    algebra: u32,
    kept: KeptRules<'a>,
    length: usize,
    laid: LaidOut,
}

impl<'a> Model for Shared<'a> {
    ghost use Rattle.std.specs.Prelude.{[]};
    ghost use Rattle.adp_model.specs.PosedProblem.{PosedProblem};
    ghost use Rattle.split_lines.specs.EachWord.{with_word};
    ghost use Rattle.split_lines.specs.SharedFields.{AreShared};

    ghost Value = { PosedProblem };

    ghost use Rattle.adp_model.specs.WideForm.{form_code};
    ghost use Rattle.std.specs.Coded.{codes};

    ghost coded = { Prim.hlevel (codes, form_code) };

    ghost view = { λ shared. with_word shared.grammar.now shared.algebra [] };

    ghost invariant = { AreShared };
}

impl<'a> Shared<'a> {
    /// What the words of the problem's grammar share, with the layout for words as long as its own. Takes time and
    /// memory for each alternative, and for each rule and position. Fails for want of memory alone.
    pub fn new(alloc: Global, problem: &Problem<'a>) -> Result<Shared<'a>, AllocError>
        ensures { IfOk result (λ shared. shared ≡ without_word problem.now) }
    {
        let kept = kept_rules(alloc, problem)?;
        let laid = LaidOut::new(alloc, problem)?;
        Ok(Shared {
            grammar: problem.grammar,
            algebra: problem.algebra,
            kept,
            length: problem.letters().len(),
            laid,
        })
    }

    /// The lines of a problem.
    pub(crate) fn lines(
        &'a self,
        alloc: Global,
        problem: &'a Problem<'a>,
    ) -> Result<Lines<'a>, AllocError>
        requires { self.now ≡ without_word problem.now }
        ensures { IfOk result (λ lines. lines ≡ problem.now) }
    {
        Lines::over(alloc, problem, Kept::Shared(&self.kept))
    }

    /// The layout of a problem.
    pub(crate) fn layout(
        &self,
        alloc: Global,
        problem: &'a Problem<'a>,
    ) -> Result<Layout<'a>, AllocError>
        requires { self.now ≡ without_word problem.now }
        ensures { IfOk result (λ layout. layout ≡ problem.now) }
    {
        if problem.letters().len() == self.length {
            Ok(Layout::over(problem, self.laid.shared()?))
        } else {
            Layout::new(alloc, problem)
        }
    }
}

/// A problem, with what it shares with other words of its grammar. Contracts see it as the problem.
#[derive(Drop)]
pub struct Sharing<'a> {
    problem: &'a Problem<'a>,
    shared: &'a Shared<'a>,
}

impl<'a> Model for Sharing<'a> {
    ghost use Rattle.std.specs.Prelude.{◌≡◌};
    ghost use Rattle.adp_model.specs.PosedProblem.{PosedProblem};
    ghost use Rattle.split_lines.specs.Shared.{without_word};

    ghost Value = { PosedProblem };

    ghost use Rattle.adp_model.specs.WideForm.{form_code};
    ghost use Rattle.std.specs.Coded.{codes};

    ghost coded = { Prim.hlevel (codes, form_code) };

    ghost view = { λ sharing. sharing.problem.now };

    ghost invariant = { λ sharing. sharing.shared.now ≡ without_word sharing.problem.now };
}

impl<'a> Sharing<'a> {
    /// A problem of the grammar and the algebra of which this is shared. Takes no memory.
    pub fn new(problem: &'a Problem<'a>, shared: &'a Shared<'a>) -> Sharing<'a>
        requires { shared.now ≡ without_word problem.now }
        ensures { result ≡ problem.now }
    {
        Sharing { problem, shared }
    }

    /// The problem. Takes no memory.
    pub fn problem(&self) -> &'a Problem<'a>
        ensures { result.now ≡ self.now }
    {
        self.problem
    }

    /// The lines of its splits and the layout of its cells, over what it shares. Fails for want of memory alone.
    pub fn prepared(&self, alloc: Global) -> Result<Prepared<'a>, AllocError>
        ensures { IfOk result (λ prepared. prepared ≡ self.now) }
    {
        Prepared::over(alloc, self.problem, self.shared)
    }
}
