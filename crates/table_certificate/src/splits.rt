//! The splits of a cell, judged by what lines say of the cells of their rule arguments.

ghost use Rattle.std.specs.Prelude.{◌≡◌, ◌↔◌, ℕ, ◌+◌, ◌<◌, ◌≤◌, [], ◌∷◌, ◌++◌, nat_abs, length, take, IsTrue};
ghost use Rattle.std.specs.List.{AllByRecursion};
ghost use Rattle.adp_model.specs.declared.grammar.Term.{Term as AnyTerm};
ghost use Rattle.adp_model.specs.PosedProblem.{IsSpan};
ghost use Rattle.adp_model.specs.Parts.{algebra_of, alternatives_of};
ghost use Rattle.adp_model.specs.ProblemFields.{greatest_score};
ghost use Rattle.adp_model.specs.Scores.{IsBetter};
ghost use Rattle.adp_model.specs.Tokens.{letters_between, token_value};
ghost use Rattle.adp_model.specs.WellFormed.{IsKnown};
ghost use Rattle.viable_splits.specs.Placing.{on_span};
ghost use Rattle.table_certificate.specs.Claims.{claimed};
ghost use Rattle.table_certificate.specs.SplitVerdicts.{AreLowTokens, HasRoom, HasSpace, HasSplitVerdict, HasVerdict, HasVerdictBy, IsBetterOf, IsJudged, joined, told_verdict, verdict_of, worth_of, worths};

use crate::claims::Claims;
use crate::magnitudes::magnitude;
use adp_model::laws::bounds::words_keep_their_score_bound;
use adp_model::{Arg, Cell, Goal, Term};
use split_lines::Lines;
use term_values::eval;
use term_values::laws::terms_have_their_values;

/// The values of the first arguments of a split.
#[derive(Clone, Copy)]
pub(crate) struct Values {
    pub(crate) values: [i64; 4],
    pub(crate) count: usize,
}

/// What the first arguments of a split come to: no line tells of the cell of one of them; the cell of one has no score;
/// or all have values.
#[derive(Clone, Copy)]
pub(crate) enum Front {
    Untold,
    Scoreless,
    Values(Values),
}

impl Values {
    /// With the value of one argument more.
    fn with(self, value: i64) -> Values
        requires { self.count < 4 }
        ensures count { result.count ≡ self.count + 1 }
        ensures values { take result.count result.values ≡ take self.count self.values ++ value ∷ [] }
    {
        let mut values = self.values;
        values[self.count] = value;
        Values {
            values,
            count: self.count + 1,
        }
    }
}

impl Front {
    /// With one argument more, which has this worth.
    fn with(self, worth: Option<Option<i64>>) -> Front
        requires { HasSpace self }
        ensures worths { worths result ≡ joined (worths self) worth }
        ensures room { (term : AnyTerm) (more : ℕ) → HasRoom term self (more + 1) → HasRoom term result more }
    {
        match (self, worth) {
            (Front::Untold, _) | (_, None) => Front::Untold,
            (Front::Scoreless, _) | (_, Some(None)) => Front::Scoreless,
            (Front::Values(values), Some(Some(value))) => Front::Values(values.with(value)),
        }
    }
}

fn is_better(goal: Goal, one: i64, other: i64) -> bool
    ensures { IsTrue result ↔ IsBetter goal one other }
{
    match goal {
        Goal::Least => one < other,
        Goal::Greatest => other < one,
    }
}

/// The better of two scores, where there are any; the first of equal ones.
fn better(goal: Goal, one: Option<i64>, other: Option<i64>) -> Option<i64>
    ensures { IsBetterOf goal one other result }
{
    match (one, other) {
        (None, other) => other,
        (Some(one), None) => Some(one),
        (Some(one), Some(other)) => {
            if is_better(goal, other, one) {
                Some(other)
            } else {
                Some(one)
            }
        }
    }
}

/// What an argument is worth on its span: nothing is said of its cell; none; or a value.
fn worth(
    lines: &Lines<'_>,
    claims: &Claims,
    argument: &Arg,
    from: u16,
    to: u16,
) -> Option<Option<i64>>
    requires known { IsKnown lines.now.grammar argument.now }
    requires span { IsSpan lines.now.word from to }
    requires low { nat_abs (token_value lines.now.grammar argument.now (letters_between lines.now.word from to))
        ≤ greatest_score }
    ensures { result ≡ worth_of lines.now (claimed claims.now) (on_span argument.now from to) }
{
    match argument {
        Arg::Rule(rule) => claims.said(Cell {
            rule: *rule,
            from,
            to,
        }),
        Arg::Literal(_) => Some(Some(0)),
        Arg::Letter(class) | Arg::Run { class, .. } => {
            Some(Some(lines.weight(*class, from, to) as i64))
        }
    }
}

/// What a split comes to, of all whose arguments these are: `None` where it is wrong, `Some(None)` where it has no
/// score.
fn verdict(term: &Term, front: Front) -> Option<Option<i64>>
    requires { HasRoom term.now front 0 }
    ensures { result ≡ told_verdict (verdict_of term.now (worths front)) }
{
    match front {
        Front::Untold => None,
        Front::Scoreless => Some(None),
        Front::Values(values) => {
            let values = &values.values[..values.count];
            magnitude(term, values)?;
            Some(Some(eval(term, values)))
        }
    }
}

/// What the splits come to that have these arguments from `from` to `to` behind the first ones: `None` where one is
/// wrong, else the best of their scores. Calls itself once for each argument, at most four deep.
fn judge(
    lines: &Lines<'_>,
    claims: &Claims,
    term: &Term,
    front: Front,
    arguments: &[Arg],
    from: u16,
    to: u16,
) -> Option<Option<i64>>
    requires known { AllByRecursion (IsKnown lines.now.grammar) arguments.now }
    requires low { AreLowTokens lines.now arguments.now }
    requires few { length arguments.now ≤ 4 }
    requires span { IsSpan lines.now.word from to }
    requires room { HasRoom term.now front (length arguments.now) }
    ensures { IsJudged (algebra_of lines.now).goal
        (HasVerdict lines.now (claimed claims.now) term.now (worths front) arguments.now from to) result }
{
    let Some((argument, others)) = arguments.split_first() else {
        if from != to {
            return Some(None);
        }
        return verdict(term, front);
    };
    let goal = lines.problem().goal();
    let positions = lines.ends_of_first(arguments, from, to);
    let mut best = None;
    for end in positions.start..positions.end {
        let front = front.with(worth(lines, claims, argument, from, end));
        match judge(lines, claims, term, front, others, end, to) {
            None => return None,
            Some(behind) => best = better(goal, best, behind),
        }
    }
    Some(best)
}

/// What the splits of a cell by an alternative come to.
fn judge_alternative(lines: &Lines<'_>, claims: &Claims, cell: Cell, alt: u8) -> Option<Option<i64>>
    requires span { IsSpan lines.now.word cell.from cell.to }
    requires alternative { alt < length (alternatives_of lines.now.grammar cell.rule) }
    ensures { IsJudged (algebra_of lines.now).goal (HasVerdictBy lines.now (claimed claims.now) cell alt) result }
{
    let problem = lines.problem();
    problem.admissible();
    words_keep_their_score_bound();
    terms_have_their_values();
    let none = Front::Values(Values {
        values: [0; 4],
        count: 0,
    });
    if problem.allows(cell.rule, alt, (cell.to - cell.from) as usize) {
        let term = problem.term(cell.rule, alt);
        let arguments = problem.arguments(cell.rule, alt);
        judge(lines, claims, term, none, arguments, cell.from, cell.to)
    } else {
        Some(None)
    }
}

/// What the splits of a cell come to: `None` where one is wrong, since a line is missing for the cell of a rule argument
/// or its term is out of range; else the best of their scores, at what the lines say of the cells of rule arguments.
pub(crate) fn judge_cell(lines: &Lines<'_>, claims: &Claims, cell: Cell) -> Option<Option<i64>>
    requires span { IsSpan lines.now.word cell.from cell.to }
    requires rule { cell.rule < length lines.now.grammar.rules }
    ensures { IsJudged (algebra_of lines.now).goal (HasSplitVerdict lines.now (claimed claims.now) cell) result }
{
    let problem = lines.problem();
    let goal = problem.goal();
    let mut best = None;
    for alt in 0..problem.alternatives(cell.rule).len() {
        match judge_alternative(lines, claims, cell, alt as u8) {
            None => return None,
            Some(other) => best = better(goal, best, other),
        }
    }
    Some(best)
}
