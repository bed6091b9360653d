//! How many letters an argument of open length may have, and so where it may end and where it may begin.

ghost use Rattle.std.specs.Prelude.{◌≡◌, ℕ, ◌↔◌, ◌<◌, ◌≤◌, IfSome, length};
ghost use Rattle.adp_model.specs.declared.grammar.Arg.{Arg as Argument};
ghost use Rattle.adp_model.specs.PosedProblem.{IsSpan};
ghost use Rattle.adp_model.specs.ProblemFields.{most_letters};
ghost use Rattle.adp_model.specs.WellFormed.{IsKnown};
ghost use Rattle.viable_splits.specs.Placing.{AreEnds};
ghost use Rattle.split_lines.specs.Begins.{AreStarts};
ghost use Rattle.split_lines.specs.EachWord.{AtEachWord};
ghost use Rattle.split_lines.specs.Extents.{AreOfClass, IsExtent};
ghost use Rattle.split_lines.specs.Laid.{IsFixed};

use crate::classes::ClassTables;
use adp_model::{Arg, MOST_LETTERS, Problem};
use std::ops::Range;
use viable_splits::Matcher;

/// How many letters a word may have.
const MOST: u32 = MOST_LETTERS as u32;

/// How many letters an argument of open length may have at least and at most, as far as words have so many, and the
/// class of its letters, where it is a run.
#[derive(Clone, Copy)]
pub struct Extent {
    pub least: u16,
    pub most: u16,
    pub class: Option<u32>,
}

/// The extent by these bounds.
fn extent_between(least: u32, most: Option<u32>, class: Option<u32>) -> Extent
    ensures class { result.class ≡ class }
    ensures between { (len : ℕ) → len ≤ most_letters
        → ((least ≤ len) × IfSome most (λ most. len ≤ most)) ↔ ((result.least ≤ len) × (len ≤ result.most)) }
{
    let most = match most {
        Some(most) => most.min(MOST),
        None => MOST,
    };
    Extent {
        least: least.min(MOST + 1) as u16,
        most: most as u16,
        class,
    }
}

/// The extent of an argument of open length.
pub fn extent_of(problem: &Problem<'_>, argument: &Arg) -> Extent
    requires known { IsKnown problem.now.grammar argument.now }
    requires open_length { IsFixed argument.now → ⊥ }
    ensures { AtEachWord problem.now.grammar problem.now.algebra (λ p. IsExtent p argument.now result) }
{
    match argument {
        Arg::Rule(rule) => {
            let (least, greatest) = problem.sizes(*rule);
            extent_between(least, greatest, None)
        }
        Arg::Run { class, low, high } => extent_between(*low, *high, Some(*class)),
        Arg::Literal(_) | Arg::Letter(_) => unreachable!(),
    }
}

/// The last position, up to `last`, up to which the letters from `from` on are of the class, where there is one.
#[inline(always)]
fn class_end(tables: &ClassTables<'_>, class: Option<u32>, from: usize, last: usize) -> usize
    requires known { IfSome class (λ class. class < length tables.now.grammar.classes) }
    requires span { IsSpan tables.now.word from last }
    ensures within { result ≤ last }
    ensures exact { (to : ℕ) → from ≤ to → to ≤ last → AreOfClass tables.now class from to ↔ (to ≤ result) }
{
    match class {
        Some(class) => tables.class_end(class, from, last),
        None => last,
    }
}

/// The first position, from `first` on, from which on the letters up to `to` are of the class, where there is one.
#[inline(always)]
fn class_start(tables: &ClassTables<'_>, class: Option<u32>, first: usize, to: usize) -> usize
    requires known { IfSome class (λ class. class < length tables.now.grammar.classes) }
    requires span { IsSpan tables.now.word first to }
    ensures from_first { first ≤ result }
    ensures exact { (from : ℕ) → first ≤ from → from ≤ to → AreOfClass tables.now class from to ↔ (result ≤ from) }
{
    match class {
        Some(class) => first.max(tables.table(class).behind[to] as usize),
        None => first,
    }
}

impl Extent {
    /// Where an argument of this extent that begins at `from` may end, up to `last`.
    #[inline(always)]
    pub fn ends(self, tables: &ClassTables<'_>, from: usize, last: usize) -> Range<usize>
        requires known { IfSome self.class (λ class. class < length tables.now.grammar.classes) }
        requires span { IsSpan tables.now.word from last }
        requires short { last ≤ most_letters }
        ensures { (argument : Argument) → IsExtent tables.now argument self
            → AreEnds tables.now argument from last result }
    {
        let most = last.min(from + self.most as usize);
        let end = class_end(tables, self.class, from, most);
        from + self.least as usize..end + 1
    }

    /// Where an argument of this extent that ends at `to` may begin, from `first` on.
    #[inline(always)]
    pub fn starts(self, tables: &ClassTables<'_>, first: usize, to: usize) -> Range<usize>
        requires known { IfSome self.class (λ class. class < length tables.now.grammar.classes) }
        requires span { IsSpan tables.now.word first to }
        requires short { to ≤ most_letters }
        ensures { (argument : Argument) → IsExtent tables.now argument self
            → AreStarts tables.now argument first to result }
    {
        let longest = first.max(to.saturating_sub(self.most as usize));
        let start = class_start(tables, self.class, longest, to);
        start..(to + 1).saturating_sub(self.least as usize)
    }
}
