ghost use Rattle.std.specs.Prelude.{◌≡◌, ◌+◌, ◌^◌, ◌<◌, ◌≤◌, List, [], ◌∷◌, length};
ghost use Rattle.std.specs.List.{AllByRecursion};
ghost use Rattle.adp_model.specs.declared.grammar.Arg.{Arg as Argument};
ghost use Rattle.adp_model.specs.PosedProblem.{IsSpan};
ghost use Rattle.adp_model.specs.WellFormed.{IsKnown};
ghost use Rattle.viable_splits.specs.Placing.{AreLengths, ArePositions};

use crate::ends::argument_ends;
use crate::matcher::Matcher;
use adp_model::{Arg, Problem};
use std::ops::Range;

/// The least and the greatest number of letters that an argument may have, if it has at most `most`.
fn lengths(problem: &Problem<'_>, argument: &Arg, most: usize) -> (usize, usize)
    requires known { IsKnown problem.now.grammar argument.now }
    requires short { most < 2 ^ 16 }
    ensures { AreLengths problem.now (argument.now ∷ []) most result.0 result.1 }
{
    let (least, greatest) = match argument {
        Arg::Rule(rule) => problem.sizes(*rule),
        Arg::Literal(text) => {
            let len = text.bytes().len();
            return (len.min(most + 1), len.min(most));
        }
        Arg::Letter(_) => (1, Some(1)),
        Arg::Run { low, high, .. } => (*low, *high),
    };
    let greatest = match greatest {
        Some(greatest) => most.min(greatest as usize),
        None => most,
    };
    ((least as usize).min(most + 1), greatest)
}

/// The same of several arguments, one behind the other.
fn total_lengths(problem: &Problem<'_>, arguments: &[Arg], most: usize) -> (usize, usize)
    requires known { AllByRecursion (IsKnown problem.now.grammar) arguments.now }
    requires few { length arguments.now ≤ 4 }
    requires short { most < 2 ^ 16 }
    ensures { AreLengths problem.now arguments.now most result.0 result.1 }
{
    if arguments.is_empty() {
        return (0, 0);
    }
    let (least, greatest) = lengths(problem, &arguments[0], most);
    let (others_least, others_greatest) = total_lengths(problem, &arguments[1..], most);
    (least + others_least, greatest + others_greatest)
}

/// Where the first argument, which begins at `from`, may end, as far as the lengths of the others leave a way up to
/// `last`. Takes no memory.
pub fn first_ends<M: Matcher>(
    matcher: &M,
    arguments: &[Arg],
    from: usize,
    last: usize,
) -> Range<usize>
    requires known { AllByRecursion (IsKnown (M.posed matcher.now).grammar) arguments.now }
    requires some { 0 < length arguments.now }
    requires few { length arguments.now ≤ 4 }
    requires span { IsSpan (M.posed matcher.now).word from last }
    requires short { last < 2 ^ 16 }
    ensures positions { (first : Argument) (later : List Argument) → arguments.now ≡ first ∷ later
        → ArePositions (M.posed matcher.now) first later from last result }
    ensures start { result.start ≤ last + 1 }
    ensures end { result.end ≤ last + 1 }
{
    let ends = argument_ends(matcher, &arguments[0], from, last);
    let (least, greatest) = total_lengths(matcher.problem(), &arguments[1..], last - from);
    let start = ends.start.max(last.saturating_sub(greatest));
    start.min(last + 1)..ends.end.min((last + 1).saturating_sub(least))
}
