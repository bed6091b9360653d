//! Whether a grammar is straight.

ghost use Rattle.std.specs.Prelude.{◌↔◌, ◌<◌, IsTrue, length};
ghost use Rattle.adp_model.specs.Parts.{alternatives_of};
ghost use Rattle.suffix_cells.specs.Straight.{AreStraight, AreStraightUpTo, IsStraight};

use adp_model::laws::well_formed::alternatives_fit;
use adp_model::{Arg, Problem};

/// Whether nothing stands behind a rule, and the other arguments are tokens of fixed length.
fn is_straight(arguments: &[Arg]) -> bool
    ensures { IsTrue result ↔ IsStraight arguments.now }
{
    let Some((argument, others)) = arguments.split_first() else {
        return true;
    };
    match argument {
        Arg::Rule(_) => others.is_empty(),
        Arg::Literal(_) | Arg::Letter(_) => is_straight(others),
        Arg::Run { .. } => false,
    }
}

/// Whether all alternatives of a rule are straight.
fn is_straight_rule(problem: &Problem<'_>, rule: u32) -> bool
    requires { rule < length problem.now.grammar.rules }
    ensures { IsTrue result ↔ AreStraightUpTo problem.now rule (length (alternatives_of problem.now.grammar rule)) }
{
    for alt in 0..problem.alternatives(rule).len() as u8 {
        if !is_straight(problem.arguments(rule, alt)) {
            return false;
        }
    }
    true
}

/// Whether the grammar of a problem is straight. Takes time for each argument up to the first one that is not, and no
/// memory.
pub fn are_straight(problem: &Problem<'_>) -> bool
    ensures { IsTrue result ↔ AreStraight problem.now }
{
    alternatives_fit();
    for rule in 0..problem.grammar.rules.as_slice().len() as u32 {
        if !is_straight_rule(problem, rule) {
            return false;
        }
    }
    true
}
