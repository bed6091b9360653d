ghost use Rattle.std.specs.Prelude.{◌≡◌, ℕ, ◌+◌, ◌-◌, ◌^◌, ◌<◌, ◌≤◌, ◌↔◌, IfSome, eqb, length};
ghost use Rattle.std.specs.List.{starts_with};
ghost use Rattle.adp_model.specs.declared.grammar.Arg.TheVariants.{Rule, Literal, Letter, Run};
ghost use Rattle.adp_model.specs.PosedProblem.{IsSpan};
ghost use Rattle.adp_model.specs.WellFormed.{IsKnown};
ghost use Rattle.viable_splits.specs.Placing.{AreEnds};

use crate::matcher::Matcher;
use adp_model::{Arg, Problem};
use std::ops::Range;

/// The last position up to `last` where a span from `from` on may end that has at most so many letters.
#[inline(always)]
fn last_end(from: usize, last: usize, most: Option<u32>) -> usize
    requires in_order { from ≤ last }
    requires short { last < 2 ^ 16 }
    ensures after { from ≤ result }
    ensures within { result ≤ last }
    ensures exact { (to : ℕ) → from ≤ to → to ≤ last → (to ≤ result) ↔ IfSome most (λ most. to - from ≤ most) }
{
    match most {
        Some(most) => last.min(from + most as usize),
        None => last,
    }
}

/// Where the rule may end.
#[inline(always)]
fn rule_ends(problem: &Problem<'_>, rule: u32, from: usize, last: usize) -> Range<usize>
    requires known { rule < length problem.now.grammar.rules }
    requires span { IsSpan problem.now.word from last }
    requires short { last < 2 ^ 16 }
    ensures { AreEnds problem.now (Rule rule) from last result }
{
    let (least, greatest) = problem.sizes(rule);
    from + least as usize..last_end(from, last, greatest) + 1
}

/// Whether the letters begin with the text. In most cases the first letters tell.
fn begins_with(letters: &[u8], text: &[u8]) -> bool
    ensures { result ≡ starts_with eqb letters.now text.now }
{
    let Some((first, others)) = text.split_first() else {
        return true;
    };
    let Some((letter, rest)) = letters.split_first() else {
        return false;
    };
    letter == first && (others.is_empty() || rest.starts_with(others))
}

/// Where the literal may end.
#[inline(never)]
fn literal_ends(problem: &Problem<'_>, text: &[u8], from: usize, last: usize) -> Range<usize>
    requires span { IsSpan problem.now.word from last }
    requires short { last < 2 ^ 16 }
    ensures { AreEnds problem.now (Literal text.now) from last result }
{
    if begins_with(&problem.letters()[from..last], text) {
        from + text.len()..from + text.len() + 1
    } else {
        from..from
    }
}

/// Where a run of letters of the class may end.
#[inline(never)]
fn run_ends<M: Matcher>(
    matcher: &M,
    class: u32,
    low: u32,
    high: Option<u32>,
    from: usize,
    last: usize,
) -> Range<usize>
    requires known { class < length (M.posed matcher.now).grammar.classes }
    requires span { IsSpan (M.posed matcher.now).word from last }
    requires short { last < 2 ^ 16 }
    ensures { AreEnds (M.posed matcher.now) (Run class low high) from last result }
{
    let most = last_end(from, last, high);
    from + low as usize..matcher.class_end(class, from, most) + 1
}

/// Where an argument that begins at `from` may end, up to `last`. Takes no memory.
#[inline(always)]
pub fn argument_ends<M: Matcher>(
    matcher: &M,
    argument: &Arg,
    from: usize,
    last: usize,
) -> Range<usize>
    requires known { IsKnown (M.posed matcher.now).grammar argument.now }
    requires span { IsSpan (M.posed matcher.now).word from last }
    requires short { last < 2 ^ 16 }
    ensures { AreEnds (M.posed matcher.now) argument.now from last result }
{
    match argument {
        Arg::Rule(rule) => rule_ends(matcher.problem(), *rule, from, last),
        Arg::Literal(text) => literal_ends(matcher.problem(), text.bytes(), from, last),
        Arg::Letter(class) => run_ends(matcher, *class, 1, Some(1), from, last),
        Arg::Run { class, low, high } => run_ends(matcher, *class, *low, *high, from, last),
    }
}
