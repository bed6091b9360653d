//! What is worked out of a problem once, for all its cells.

ghost use Rattle.std.specs.Prelude.{◌≡◌, ℕ, ◌+◌, ◌-◌, ◌<◌, ◌≤◌, ◌↔◌, IfOk, IfSome, IsTrue, MatchOption, None, Some, List, ◌∷◌, drop, length, slice_index_or, ◌==◌, if◌then◌else◌};
ghost use Rattle.std.specs.Bool.{OnTrue, OnFalse};
ghost use Rattle.std.specs.Option.{option_copied};
ghost use Rattle.std.specs.List.{AllByRecursion};
ghost use Rattle.adp_model.specs.declared.grammar.Arg.{Arg as Argument};
ghost use Rattle.adp_model.specs.Parts.{alternatives_of, arguments_of, letters_of};
ghost use Rattle.adp_model.specs.PosedProblem.{IsSpan, PosedProblem};
ghost use Rattle.adp_model.specs.Splits.{FitsSpan, IsViable};
ghost use Rattle.adp_model.specs.Tokens.{letters_between, total_weight};
ghost use Rattle.adp_model.specs.Walk.{IsFirstVisited, IsNextVisited, IsLastVisited};
ghost use Rattle.adp_model.specs.WellFormed.{IsKnown};
ghost use Rattle.viable_splits.specs.Placing.{ArePositions, Cover, on_span};
ghost use Rattle.split_lines.specs.declared.kept.KeptAlternative.{KeptAlternative};
ghost use Rattle.split_lines.specs.Kept.{AreInFront, IsAlternative};
ghost use Rattle.split_lines.specs.Laid.{IsFixed, AreBoundaries};
ghost use Rattle.split_lines.specs.Classes.{AreSums};
ghost use Rattle.split_lines.specs.Flags.{AreBitsAmong};
ghost use Rattle.score_numbers.specs.Limits.{AreLimited};
ghost use Rattle.split_lines.specs.Lines.{IsLine, IsLastOpen, HasLine, LeavesPosition, parts_by};
ghost use Rattle.split_lines.specs.Ways.{IsClosed, IsOpening, IsWay};
ghost use Rattle.split_lines.specs.KeptRules.{AreKeptFor, kept_of};
ghost use Rattle.split_lines.specs.Beginnings.{IsCandidate};
ghost use Rattle.split_lines.specs.Matching.{AreMatches};

use crate::beginnings::Candidates;
use crate::classes::ClassTables;
use crate::extents::Extent;
use crate::found::Found;
use crate::kept::{KeptAlternative, opening};
use crate::kept_rules::{Kept, kept_rules};
use crate::matches::{Matches, covers};
use crate::spans;
use crate::ways::Way;
use adp_model::laws::well_formed::{alternatives_fit, arguments_are_few_and_known};
use adp_model::{Arg, Cell, Problem};
use std::alloc::{AllocError, Global};
use std::marker::Model;
use std::ops::Range;
use viable_splits::{Cuts, Matcher, first_ends, first_visited, next_visited};

/// The line of an alternative: which of its arguments are the last two of open length, and where the tokens between
/// them match.
#[derive(Clone, Copy)]
pub struct Line<'l> {
    /// The number of the first of the two.
    pub first: u8,
    /// How many tokens stand between the two.
    pub between: u8,
    /// How many letters the tokens behind the second one have.
    pub(crate) tail: u16,
    /// How many letters each of the two may have.
    pub(crate) before: Extent,
    pub(crate) behind: Extent,
    /// Where the tokens between the two match.
    pub(crate) middle: &'l Matches,
}

/// The boundary of a line on a span: the positions at which it may stand, the limit of a sum at each position from the
/// first of these to the last one, how many letters lie between it and the second argument, and where that one ends.
/// Where the line can't have the span, there is no position. Bits tell the positions too, and where the second argument
/// begins: they are those of the whole word, 64 positions in a number.
#[derive(Clone, Copy)]
pub struct Boundary<'l> {
    pub positions: &'l [u16],
    pub limits: &'l [i16],
    pub here: &'l [u64],
    pub behind: &'l [u64],
    pub letters: u16,
    pub last: u16,
}

/// Whether tokens of fixed length match the letters from `from` to `to`; in most cases there are none.
#[inline(always)]
fn tail_covers(tables: &ClassTables<'_>, tokens: &[Arg], from: usize, to: usize) -> bool
    requires known { AllByRecursion (IsKnown tables.now.grammar) tokens.now }
    requires fixed { AllByRecursion IsFixed tokens.now }
    requires span { IsSpan tables.now.word from to }
    requires short { to ≤ 4000 }
    ensures { IsTrue result ↔ Cover tables.now tokens.now from to }
{
    if tokens.is_empty() {
        from == to
    } else {
        covers(tables, tokens, from, to)
    }
}

/// The line, where none of the arguments comes before it.
#[inline(always)]
pub fn line_here<'s, 'l>(line: Option<&'s Line<'l>>, ahead: u8) -> Option<&'s Line<'l>>
    ensures { option_copied result ≡ (if ahead == 0 then option_copied line.entry else None) }
{
    if ahead == 0 { line } else { None }
}

/// What is worked out of a problem once, for all its cells: its classes and where tokens match, and what its grammar and
/// its algebra tell of the alternatives, which other words may share. Contracts see it as the problem.
#[derive(Drop)]
pub struct Lines<'a> {
    tables: ClassTables<'a>,
    kept: Kept<'a>,
    found: Found,
}

impl<'a> Model for Lines<'a> {
    ghost use Rattle.adp_model.specs.PosedProblem.{PosedProblem};

    ghost Value = { PosedProblem };

    ghost use Rattle.split_lines.specs.LinesFields.{AreLines};
    ghost use Rattle.adp_model.specs.WideForm.{form_code};
    ghost use Rattle.std.specs.Coded.{codes};

    ghost coded = { Prim.hlevel (codes, form_code) };

    ghost view = { λ lines. lines.tables };

    ghost invariant = { AreLines };
}

impl<'a> Lines<'a> {
    /// Works it out, with what may be shared. Fails for want of memory alone.
    pub fn new(alloc: Global, problem: &'a Problem<'a>) -> Result<Lines<'a>, AllocError>
        ensures { IfOk result (λ lines. lines ≡ problem.now) }
    {
        let kept = kept_rules(alloc, problem)?;
        Lines::over(alloc, problem, Kept::Own(kept))
    }

    /// Works it out over what was kept of the alternatives, in time for each letter of a class, for each letter of the
    /// word once for each class and once for each middle of lines. Memory is 20 bytes for each class and letter, and what
    /// `Found::new` takes. Fails for want of memory alone.
    pub(crate) fn over(
        alloc: Global,
        problem: &'a Problem<'a>,
        kept: Kept<'a>,
    ) -> Result<Lines<'a>, AllocError>
        requires { AreKeptFor problem.now.grammar problem.now.algebra (kept_of kept) }
        ensures { IfOk result (λ lines. lines ≡ problem.now) }
    {
        problem.admissible();
        let tables = ClassTables::new(alloc, problem, &kept.rules().weights)?;
        let found = Found::new(alloc, &tables, &kept.rules().middles)?;
        Ok(Lines {
            tables,
            kept,
            found,
        })
    }

    /// The problem. Takes no memory.
    pub fn problem(&self) -> &'a Problem<'a>
        ensures { result.now ≡ self.now }
    {
        self.tables.problem()
    }

    /// The line of an alternative; `None` where fewer than two of its arguments are of open length. Takes constant time
    /// and no memory.
    pub fn line(&self, rule: u32, alt: u8) -> Option<Line<'_>>
        requires { alt < length (alternatives_of self.now.grammar rule) }
        ensures { MatchOption result
            ((first between : ℕ) → HasLine (drop first (arguments_of self.now.grammar rule alt)) between → ⊥)
            (λ line. IsLine self.now (drop line.first (arguments_of self.now.grammar rule alt)) line) }
    {
        let kept = self.kept.rules().rules[rule as usize].alternatives[alt as usize].line?;
        Some(Line {
            first: kept.first,
            between: kept.between,
            tail: kept.tail,
            before: kept.before,
            behind: kept.behind,
            middle: self.found.of(kept.middle),
        })
    }

    /// Whether arguments of an alternative may come before its line. Takes constant time and no memory.
    #[inline]
    pub fn have_tails(&self) -> bool {
        self.kept.rules().have_tails
    }

    /// The alternatives of a rule, as they are kept. Takes constant time and no memory.
    #[inline]
    pub fn alternatives(&self, rule: u32) -> &[KeptAlternative<'a>]
        requires { rule < length self.now.grammar.rules }
        ensures each { length result.now ≡ length (alternatives_of self.now.grammar rule) }
        ensures are { (alternative : ℕ) (d : KeptAlternative) → alternative < length result.now
            → IsAlternative self.now rule alternative (slice_index_or result.now alternative d) }
    {
        let _ = &self.tables;
        &self.kept.rules().rules[rule as usize].alternatives
    }

    /// The alternatives of the cell's rule, and which of them may begin where the cell does. Takes constant time and no
    /// memory.
    #[inline(always)]
    pub fn candidates(&self, cell: Cell) -> Candidates<'_>
        requires { cell.rule < length self.now.grammar.rules }
        ensures each { length result.alternatives.now ≡ length (alternatives_of self.now.grammar cell.rule) }
        ensures few { length result.alternatives.now ≤ 64 }
        ensures are { (alternative : ℕ) (d : KeptAlternative) → alternative < length result.alternatives.now
            → IsAlternative self.now cell.rule alternative (slice_index_or result.alternatives.now alternative d) }
        ensures others { (alternative : ℕ) (d : KeptAlternative) → alternative < length result.alternatives.now
            → (IsCandidate result alternative → ⊥)
            → IsClosed self.now (slice_index_or result.alternatives.now alternative d) cell }
    {
        self.problem().admissible();
        alternatives_fit();
        let rule = &self.kept.rules().rules[cell.rule as usize];
        let word = self.problem().letters();
        Candidates {
            alternatives: &rule.alternatives,
            bits: rule.beginnings.bits_at(word, cell.from),
        }
    }

    /// Where the tokens in front of an alternative end on a cell; `None` where they don't match there, or where the
    /// alternative may not have as many letters as the cell. Takes constant time, but for the letters of literals, and
    /// no memory.
    #[inline(always)]
    pub fn opening(&self, alternative: &KeptAlternative<'_>, cell: Cell) -> Option<u16>
        requires front { AreInFront self.now alternative.now }
        requires span { IsSpan self.now.word cell.from cell.to }
        ensures { MatchOption result (IsClosed self.now alternative.now cell)
            (IsOpening self.now alternative.now cell) }
    {
        self.problem().admissible();
        let end = opening(&self.tables, alternative, cell)?;
        Some(end as u16)
    }

    /// The line of an alternative, with the number of its first argument among those behind the tokens in front.
    fn line_behind(&self, alternative: &KeptAlternative<'_>, rule: u32, alt: u8) -> Option<Line<'_>>
        requires in_range { alt < length (alternatives_of self.now.grammar rule) }
        requires alternative { IsAlternative self.now rule alt alternative.now }
        ensures { IfSome result (λ line. IsLine self.now (drop line.first alternative.now.others.now) line) }
    {
        alternative.line?;
        let line = self.line(rule, alt)?;
        Some(Line {
            first: line.first - alternative.front.len() as u8,
            ..line
        })
    }

    /// How an alternative is scored, and looked through, behind its tokens in front. Takes constant time and no memory.
    #[inline(always)]
    pub fn way<'l>(&'l self, alternative: &KeptAlternative<'l>, rule: u32, alt: u8) -> Way<'l>
        requires in_range { alt < length (alternatives_of self.now.grammar rule) }
        requires alternative { IsAlternative self.now rule alt alternative.now }
        ensures { IsWay self.now alternative.now.others.now result }
    {
        match alternative.others {
            [] => Way::Front,
            [argument] => Way::Last(argument),
            _ => Way::Several(self.line_behind(alternative, rule, alt)),
        }
    }

    /// The positions at which the boundary of a line may stand, as far as the arguments on both sides of it and the
    /// tokens behind tell: from where on, and before which.
    #[inline(always)]
    fn range(&self, line: Line<'_>, arguments: &[Arg], from: usize, to: usize) -> Range<usize>
        requires line { IsLine self.now arguments.now line }
        requires known { AllByRecursion (IsKnown self.now.grammar) arguments.now }
        requires span { IsSpan self.now.word from to }
        requires short { to ≤ 4000 }
        ensures exact { (position : ℕ) → ((result.start ≤ position) × (position < result.end))
            ↔ LeavesPosition self.now (parts_by arguments.now line.entry.between)
            from to line.entry.middle.now.letters (to - line.entry.tail) position }
        ensures in_order { result.start ≤ result.end }
        ensures in_word { result.end ≤ length self.now.word + 1 }
    {
        let second = line.between as usize + 1;
        let letters = line.middle.letters as usize;
        let last = to.saturating_sub(line.tail as usize);
        if last < from || !tail_covers(&self.tables, &arguments[second + 1..], last, to) {
            return from..from;
        }
        let ends = line.before.ends(&self.tables, from, last);
        let starts = line.behind.starts(&self.tables, from, last);
        let start = ends.start.max(starts.start.saturating_sub(letters));
        let end = ends.end.min(starts.end.saturating_sub(letters));
        start.min(end)..end
    }

    /// The boundary of the line of these arguments, the first of which is the first one of the line. Takes constant
    /// time, but for literals behind the second one, and no memory.
    #[inline(always)]
    pub fn boundary<'l>(
        &self,
        line: Line<'l>,
        arguments: &[Arg],
        from: u16,
        to: u16,
    ) -> Boundary<'l>
        requires line { IsLine self.now arguments.now line }
        requires known { AllByRecursion (IsKnown self.now.grammar) arguments.now }
        requires span { IsSpan self.now.word from to }
        ensures boundaries { AreBoundaries self.now (parts_by arguments.now line.entry.between) from to
            result.letters result.last result.positions.now }
        ensures limits { AreLimited result.positions.now result.limits.now }
        ensures here { AreBitsAmong result.positions.now 0 result.here.now }
        ensures behind { AreBitsAmong result.positions.now result.letters result.behind.now }
    {
        self.problem().admissible();
        let range = self.range(line, arguments, from as usize, to as usize);
        let positions = line.middle.between(range.start as u16, range.end as u16);
        Boundary {
            positions,
            limits: line.middle.limits_among(positions),
            here: &line.middle.here,
            behind: &line.middle.behind,
            letters: line.middle.letters,
            last: to.saturating_sub(line.tail),
        }
    }

    /// Where a token of fixed length that begins at `from` ends, where it matches there and ends at `last` or before.
    /// Takes constant time, but for the letters of a literal, and no memory.
    pub fn token_end(&self, token: &Arg, from: u16, last: u16) -> Option<u16>
        requires known { IsKnown self.now.grammar token.now }
        requires fixed { IsFixed token.now }
        requires span { IsSpan self.now.word from last }
        ensures { (end : ℕ) → (result ≡ Some end)
            ↔ ((end ≤ last) × FitsSpan self.now (on_span token.now from end)) }
    {
        self.problem().admissible();
        let end = spans::token_end(&self.tables, token, from as usize, last as usize)?;
        Some(end as u16)
    }

    /// Whether an argument may have the letters from `from` to `to`. Takes constant time, but for the letters of a
    /// literal, and no memory.
    #[inline(always)]
    pub fn fits(&self, argument: &Arg, from: u16, to: u16) -> bool
        requires known { IsKnown self.now.grammar argument.now }
        requires span { IsSpan self.now.word from to }
        ensures { IsTrue result ↔ FitsSpan self.now (on_span argument.now from to) }
    {
        self.problem().admissible();
        spans::fits(&self.tables, argument, from as usize, to as usize)
    }

    /// Where the first of the arguments may end, as far as the lengths of the others leave a way up to `last`. Takes
    /// constant time, but for the letters of a literal, and no memory.
    pub fn ends_of_first(&self, arguments: &[Arg], from: u16, last: u16) -> Range<u16>
        requires known { AllByRecursion (IsKnown self.now.grammar) arguments.now }
        requires some { 0 < length arguments.now }
        requires few { length arguments.now ≤ 4 }
        requires span { IsSpan self.now.word from last }
        ensures { (first : Argument) (later : List Argument) → arguments.now ≡ first ∷ later
            → ArePositions self.now first later from last result }
    {
        self.problem().admissible();
        let positions = first_ends(&self.tables, arguments, from as usize, last as usize);
        positions.start as u16..positions.end as u16
    }

    /// What the letters of a class before each position of the word weigh; letters that the class lacks weigh nothing.
    /// Takes constant time and no memory.
    pub fn sums(&self, class: u32) -> &[i128]
        requires { class < length self.now.grammar.classes }
        ensures { AreSums (letters_of self.now.grammar class) self.now.word result.now }
    {
        &self.tables.table(class).sums
    }

    /// What the letters of a span weigh in a class. Takes constant time and no memory.
    pub fn weight(&self, class: u32, from: u16, to: u16) -> i128
        requires class { class < length self.now.grammar.classes }
        requires span { IsSpan self.now.word from to }
        ensures { result ≡ total_weight (letters_of self.now.grammar class) (letters_between self.now.word from to) }
    {
        let sums = self.sums(class);
        sums[to as usize] - sums[from as usize]
    }

    /// Whether the alternative has a viable split of the cell. If so, `cuts` are then the one that is visited first,
    /// where each boundary's positions are visited from its turn on; else its boundaries are as before. Takes no
    /// memory.
    pub fn first_viable(&self, cell: Cell, alt: u8, turns: [u32; 3], cuts: &mut Cuts) -> bool
        requires span { IsSpan self.now.word cell.from cell.to }
        requires alternative { alt < length (alternatives_of self.now.grammar cell.rule) }
        requires turns { AllByRecursion (λ turn. turn ≤ cell.to - cell.from) turns }
        ensures turns { cuts.new.turns ≡ turns }
        ensures first { OnTrue result (IsFirstVisited self.now cell alt turns cuts.new.at) }
        ensures none { OnFalse result ((others : List ℕ) → IsViable self.now cell alt others → ⊥) }
        ensures kept { OnFalse result (cuts.new.at ≡ cuts.old.at) }
    {
        first_visited(self, cell, alt, turns, cuts)
    }

    /// Whether a viable split is visited behind `cuts`. If so, they are then the next one; else they are as before.
    /// Takes no memory.
    pub fn next_viable(&self, cell: Cell, alt: u8, cuts: &mut Cuts) -> bool
        requires span { IsSpan self.now.word cell.from cell.to }
        requires turns { AllByRecursion (λ turn. turn ≤ cell.to - cell.from) cuts.old.turns }
        requires viable { IsViable self.now cell alt cuts.old.at }
        ensures turns { cuts.new.turns ≡ cuts.old.turns }
        ensures next { OnTrue result (IsNextVisited self.now cell alt cuts.old.turns cuts.old.at cuts.new.at) }
        ensures last { OnFalse result (IsLastVisited self.now cell alt cuts.old.turns cuts.old.at) }
        ensures kept { OnFalse result (cuts.new.at ≡ cuts.old.at) }
    {
        next_visited(self, cell, alt, cuts)
    }
}

impl<'a> Matcher for Lines<'a> {
    ghost posed = { λ lines. lines };

    fn problem(&self) -> &Problem<'_> {
        self.tables.problem()
    }

    /// Takes constant time.
    fn class_end(&self, class: u32, from: usize, last: usize) -> usize {
        self.tables.class_end(class, from, last)
    }

    /// Takes constant time: where the arguments begin with the tokens between the two of a line, their next match is
    /// looked up.
    fn next_position(
        &self,
        rule: u32,
        alt: u8,
        number: usize,
        start: usize,
        end: usize,
    ) -> Option<usize> {
        self.problem().admissible();
        if start >= end {
            return None;
        }
        let Some(line) = self.line(rule, alt) else {
            return Some(start);
        };
        if line.first as usize + 1 != number {
            return Some(start);
        }
        let positions = line.middle.between(start as u16, end as u16);
        if positions.is_empty() {
            None
        } else {
            Some(positions[0] as usize)
        }
    }
}
