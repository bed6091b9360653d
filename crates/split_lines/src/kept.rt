//! Alternatives, made ready for the cells of their rules.

ghost use Rattle.std.specs.Prelude.{◌≡◌, ◌↔◌, ℕ, ◌+◌, ◌<◌, ◌≤◌, false, IfSome, IsTrue, MatchOption, Some, pos, nat_abs, [], ◌∷◌, drop, length, map, slice_index_or, take};
ghost use Rattle.std.specs.Bool.{OnTrue};
ghost use Rattle.std.specs.List.{AllByRecursion};
ghost use Rattle.adp_model.specs.declared.grammar.Arg.TheVariants.{Letter};
ghost use Rattle.adp_model.specs.PosedProblem.{IsSpan};
ghost use Rattle.adp_model.specs.Parts.{alternatives_of};
ghost use Rattle.adp_model.specs.ProblemFields.{greatest_score, most_letters};
ghost use Rattle.viable_splits.specs.Placing.{Cover};
ghost use Rattle.split_lines.specs.declared.kept.Scoring.TheVariants.{Sum};
ghost use Rattle.split_lines.specs.declared.kept.WeightedSum.{WeightedSum as DeclaredSum};
ghost use Rattle.score_numbers.specs.Turned.{turned};
ghost use Rattle.score_numbers.specs.Worthless.{AreWorthless};
ghost use Rattle.split_lines.specs.Laid.{IsFixed};
ghost use Rattle.split_lines.specs.EachWord.{AtEachWord};
ghost use Rattle.split_lines.specs.Kept.{AreInFront, AreOneLetter, AreOneOfClass, HasLengths, IsAlternative, IsAmong, factors_behind, factors_in_front};
ghost use Rattle.split_lines.specs.Ways.{MayFill, MaySpan, IsClosed, IsOpening};

use crate::classes::ClassTables;
use crate::kept_rules::KeptLine;
use crate::matches::{covers, fixed_letters};
use crate::tokens::{first_letter, is_fixed, stands};
use adp_model::laws::well_formed::alternatives_fit;
use adp_model::{Alt, Arg, Cell, Goal, MOST_LETTERS, Problem, Term};
use score_numbers::{are_worthless, turned, turned_factors};
use term_values::laws::further_factors_add_nothing;
use term_values::{LinearForm, lowered};
use viable_splits::Matcher;

/// An alternative as it is kept: most spans are refused by the tokens before its first argument of open length.
#[derive(Drop)]
pub struct KeptAlternative<'a> {
    /// The tokens of fixed length before the first argument of open length.
    pub front: &'a [Arg],
    /// The arguments from that one on.
    pub others: &'a [Arg],
    /// How many letters the tokens in front have, or 4,001, where they have more than any word.
    pub letters: u16,
    /// The letter with which they begin, where the first one is a literal that is not empty.
    pub first: Option<u8>,
    /// Whether they are that letter alone.
    pub alone: bool,
    /// The class of the letter that they are, where they are one letter of a class and nothing more.
    pub class: Option<u32>,
    /// Whether they may add something to a total.
    pub weighs: bool,
    /// How its splits are scored.
    pub scoring: Scoring<'a>,
    /// The lengths that the alternative allows.
    pub lengths: Lengths,
    /// The line of all the arguments.
    pub line: Option<KeptLine>,
}

/// Numbers of letters from the least to the most. More than 4,000 letters, which no word has, count as 4,001 in the
/// least and as 4,000 in the most.
#[derive(Clone, Copy)]
pub struct Lengths {
    pub least: u16,
    pub most: u16,
}

impl Lengths {
    /// Whether this number of letters is one of them.
    #[inline(always)]
    fn have(self, letters: u16) -> bool
        ensures { IsTrue result ↔ IsAmong self letters }
    {
        self.least <= letters && letters <= self.most
    }
}

/// How the splits of an alternative are scored.
#[derive(Clone, Copy)]
pub enum Scoring<'a> {
    /// By a sum.
    Sum(WeightedSum),
    /// By the term itself, at the values of all arguments.
    Term(&'a Term),
}

/// A constant and the values of arguments, each times its factor: the score of a split, turned, is their sum.
#[derive(Clone, Copy)]
pub struct WeightedSum {
    /// What is added to the total of the arguments.
    pub constant: i64,
    /// The factor of each argument in the total; behind them stands 0.
    pub factors: [i64; 4],
}

impl WeightedSum {
    /// The factors of the tokens in front.
    #[inline]
    pub fn front_factors(&self, alternative: &KeptAlternative<'_>) -> &[i64]
        requires { length alternative.now.front.now + length alternative.now.others.now ≤ 4 }
        ensures { result.now ≡ factors_in_front alternative.now self.now }
    {
        &self.factors[..alternative.front.len()]
    }

    /// The factors of the other arguments.
    #[inline]
    pub fn other_factors(&self, alternative: &KeptAlternative<'_>) -> &[i64]
        requires { length alternative.now.front.now + length alternative.now.others.now ≤ 4 }
        ensures { result.now ≡ factors_behind alternative.now self.now }
    {
        let number = alternative.front.len();
        &self.factors[number..number + alternative.others.len()]
    }
}

impl KeptAlternative<'_> {
    /// Whether the alternative may have as many letters as lie between the two positions, as far as lengths alone tell:
    /// it allows so many, and where all its arguments have fixed length, they have so many.
    #[inline(always)]
    fn may_span(&self, from: u16, to: u16) -> bool
        requires { from ≤ to }
        ensures { IsTrue result ↔ MaySpan self.now from to }
    {
        self.lengths.have(to - from) && self.may_fill(from, to)
    }

    #[inline(always)]
    fn may_fill(&self, from: u16, to: u16) -> bool
        ensures { IsTrue result ↔ MayFill self.now from to }
    {
        !self.others.is_empty() || from as usize + self.letters as usize == to as usize
    }
}

/// How many tokens of fixed length stand before the first argument of open length.
fn front_length(arguments: &[Arg]) -> usize
    ensures within { result ≤ length arguments.now }
    ensures fixed { AllByRecursion IsFixed (take result arguments.now) }
{
    for number in 0..arguments.len() {
        if !is_fixed(&arguments[number]) {
            return number;
        }
    }
    arguments.len()
}

/// Whether tokens are a literal of one letter, and nothing more.
fn are_one_letter(tokens: &[Arg]) -> bool
    ensures { OnTrue result (AreOneLetter tokens.now) }
{
    let Some((Arg::Literal(text), others)) = tokens.split_first() else {
        return false;
    };
    others.is_empty() && text.bytes().len() == 1
}

/// The class of the letter that tokens are, where they are one letter of a class, and nothing more.
fn class_of(tokens: &[Arg]) -> Option<u32>
    ensures { IfSome result (AreOneOfClass tokens.now) }
{
    let Some((Arg::Letter(class), others)) = tokens.split_first() else {
        return None;
    };
    if others.is_empty() {
        Some(*class)
    } else {
        None
    }
}

/// The sum that a term is lowered to, turned.
fn weighted_sum(goal: Goal, term: &LinearForm) -> WeightedSum
    requires constant { nat_abs term.now.constant ≤ greatest_score }
    requires factors { (k : ℕ) → k < length term.now.factors
        → nat_abs (slice_index_or term.now.factors k (pos 0)) ≤ greatest_score }
    ensures constant { result.constant ≡ turned goal term.now.constant }
    ensures factors { take (length term.now.factors) result.factors ≡ map (turned goal) term.now.factors }
{
    WeightedSum {
        constant: turned(goal, term.constant),
        factors: turned_factors(goal, &term.factors),
    }
}

/// Whether tokens in front of the arguments of an alternative that is scored in this way may add something to a total.
fn may_weigh(front: &[Arg], scoring: &Scoring<'_>) -> bool
    requires { length front.now ≤ 4 }
    ensures { (sum : DeclaredSum) → scoring.now ≡ Sum sum → result ≡ false
        → AreWorthless front.now (take (length front.now) sum.factors) }
{
    match scoring {
        Scoring::Sum(sum) => !are_worthless(front, &sum.factors[..front.len()]),
        Scoring::Term(_) => true,
    }
}

/// The greatest number of letters that is told apart from more.
fn most_kept(high: Option<u32>) -> u16
    ensures { (letters : ℕ) → letters ≤ most_letters → IfSome high (λ most. letters ≤ most) ↔ (letters ≤ result) }
{
    match high {
        Some(high) if (high as usize) < MOST_LETTERS => high as u16,
        _ => MOST_LETTERS as u16,
    }
}

/// The lengths that an alternative allows.
fn lengths_of(alternative: &Alt) -> Lengths
    ensures { HasLengths alternative.now result }
{
    Lengths {
        least: (alternative.low() as usize).min(MOST_LETTERS + 1) as u16,
        most: most_kept(alternative.high()),
    }
}

/// An alternative, made ready; its line is found apart. By a term that is linear, or is so by its form, it is scored as
/// a sum, by any other term by that. Takes time for each argument and for the letters of literals.
pub fn kept_alternative<'a>(
    problem: &Problem<'a>,
    rule: u32,
    alt: u8,
    line: Option<KeptLine>,
) -> KeptAlternative<'a>
    requires rule { rule < length problem.now.grammar.rules }
    requires alternative { alt < length (alternatives_of problem.now.grammar rule) }
    ensures alternative { AtEachWord problem.now.grammar problem.now.algebra
        (λ p. IsAlternative p rule alt result) }
    ensures line { result.line ≡ line }
{
    further_factors_add_nothing();
    let goal = problem.goal();
    let arguments = problem.arguments(rule, alt);
    let term = problem.term(rule, alt);
    let number = front_length(arguments);
    let (front, others) = (&arguments[..number], &arguments[number..]);
    let scoring = match lowered(term) {
        Some(lowered) => Scoring::Sum(weighted_sum(goal, &lowered)),
        None => Scoring::Term(term),
    };
    KeptAlternative {
        front,
        others,
        letters: fixed_letters(front) as u16,
        first: first_letter(front),
        alone: are_one_letter(front),
        class: class_of(front),
        weighs: may_weigh(front, &scoring),
        scoring,
        lengths: lengths_of(problem.alternative(rule, alt)),
        line,
    }
}

/// Where a letter of the class that begins at `from` ends, where it stands there and ends at `to` or before.
#[inline(always)]
fn letter_end(tables: &ClassTables<'_>, class: u32, from: usize, to: usize) -> Option<usize>
    requires known { class < length tables.now.grammar.classes }
    requires span { IsSpan tables.now.word from to }
    ensures { (end : ℕ) → (result ≡ Some end) ↔ ((end ≤ to) × Cover tables.now (Letter class ∷ []) from end) }
{
    if tables.class_end(class, from, to) > from {
        Some(from + 1)
    } else {
        None
    }
}

/// Where the tokens in front end that begin at `from`, where they match there and end at `to` or before. In most cases
/// how many letters they have, or the first of these, tells that they don't.
#[inline(always)]
fn front_end(
    tables: &ClassTables<'_>,
    alternative: &KeptAlternative<'_>,
    from: usize,
    to: usize,
) -> Option<usize>
    requires front { AreInFront tables.now alternative.now }
    requires span { IsSpan tables.now.word from to }
    requires short { to ≤ 4000 }
    ensures { (end : ℕ) → (result ≡ Some end) ↔ ((end ≤ to) × Cover tables.now alternative.now.front.now from end) }
{
    if let Some(class) = alternative.class {
        return letter_end(tables, class, from, to);
    }
    let end = from + alternative.letters as usize;
    if end > to {
        return None;
    }
    if let Some(letter) = alternative.first {
        if !stands(tables.problem().letters(), from, letter) {
            return None;
        }
        if alternative.alone {
            return Some(end);
        }
    }
    if covers(tables, alternative.front, from, end) {
        Some(end)
    } else {
        None
    }
}

/// Where the tokens in front of an alternative end on a cell, where they match there and the alternative may have the
/// letters of the cell: this is the one place that asks whether it may have so many.
#[inline(always)]
pub fn opening(
    tables: &ClassTables<'_>,
    alternative: &KeptAlternative<'_>,
    cell: Cell,
) -> Option<usize>
    requires front { AreInFront tables.now alternative.now }
    requires span { IsSpan tables.now.word cell.from cell.to }
    requires short { cell.to ≤ 4000 }
    ensures { MatchOption result (IsClosed tables.now alternative.now cell)
        (IsOpening tables.now alternative.now cell) }
{
    tables.problem().admissible();
    alternatives_fit();
    if !alternative.may_span(cell.from, cell.to) {
        return None;
    }
    front_end(tables, alternative, cell.from as usize, cell.to as usize)
}
