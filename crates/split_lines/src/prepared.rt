//! What is worked out of a problem once, for all that evaluate it.

ghost use Rattle.std.specs.Prelude.{◌≡◌, IfOk};
ghost use Rattle.split_lines.specs.Shared.{without_word};

use crate::lines::Lines;
use crate::shared::Shared;
use adp_model::Problem;
use cell_tables::Layout;
use std::alloc::{AllocError, Global};
use std::marker::Model;

/// The lines of a problem's splits and the layout of its cells. Machines of one problem share it. Contracts see it as
/// the problem.
#[derive(Drop)]
pub struct Prepared<'a> {
    lines: Lines<'a>,
    layout: Layout<'a>,
}

impl<'a> Model for Prepared<'a> {
    ghost use Rattle.std.specs.Prelude.{◌≡◌};
    ghost use Rattle.adp_model.specs.PosedProblem.{PosedProblem};

    ghost Value = { PosedProblem };

    ghost use Rattle.adp_model.specs.WideForm.{form_code};
    ghost use Rattle.std.specs.Coded.{codes};

    ghost coded = { Prim.hlevel (codes, form_code) };

    ghost view = { λ prepared. prepared.lines };

    ghost invariant = { λ prepared. prepared.layout ≡ prepared.lines };
}

impl<'a> Prepared<'a> {
    /// Works both out, with the time and the memory of each. Fails for want of memory alone.
    pub fn new(alloc: Global, problem: &'a Problem<'a>) -> Result<Prepared<'a>, AllocError>
        ensures { IfOk result (λ prepared. prepared ≡ problem.now) }
    {
        let lines = Lines::new(alloc, problem)?;
        let layout = Layout::new(alloc, problem)?;
        Ok(Prepared { lines, layout })
    }

    /// The same over what words of its grammar share. Blocks that are laid out for words of another length do not serve
    /// it, and are laid out anew. Fails for want of memory alone.
    pub(crate) fn over(
        alloc: Global,
        problem: &'a Problem<'a>,
        shared: &'a Shared<'a>,
    ) -> Result<Prepared<'a>, AllocError>
        requires { shared.now ≡ without_word problem.now }
        ensures { IfOk result (λ prepared. prepared ≡ problem.now) }
    {
        let lines = shared.lines(alloc, problem)?;
        let layout = shared.layout(alloc, problem)?;
        Ok(Prepared { lines, layout })
    }

    /// Its lines and its layout, by themselves. Takes no memory.
    pub fn into_parts(self) -> (Lines<'a>, Layout<'a>)
        ensures lines { result.0 ≡ self.entry }
        ensures layout { result.1 ≡ self.entry }
    {
        let Prepared { lines, layout } = self;
        (lines, layout)
    }

    /// The lines of its splits. Takes no memory.
    #[inline(always)]
    pub fn lines(&self) -> &Lines<'a>
        ensures { result.now ≡ self.now }
    {
        &self.lines
    }

    /// The layout of its cells. Takes no memory.
    #[inline(always)]
    pub fn layout(&self) -> &Layout<'a>
        ensures { result.now ≡ self.now }
    {
        &self.layout
    }

    /// The problem. Takes no memory.
    pub fn problem(&self) -> &'a Problem<'a>
        ensures { result.now ≡ self.now }
    {
        self.lines.problem()
    }
}
