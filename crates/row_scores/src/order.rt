//! An order of the rules in which each stands behind those whose rows of the same start its own row is made of.

ghost use Rattle.std.specs.Prelude.{◌≡◌, ◌↔◌, ℕ, ◌<◌, EachIndex, IfOk, IfSome, IsTrue, length};
ghost use Rattle.std.specs.Result.{OnOk};
ghost use Rattle.std.specs.List.{AllByRecursion};
ghost use Rattle.adp_model.specs.WellFormed.{IsKnown};
ghost use Rattle.row_scores.specs.Order.{AreInRowOrder, ArePlaced, BeginsWith, IsPlaced, MayBeEmpty, MayBegin};

use adp_model::laws::well_formed::numbers_fit_together;
use adp_model::{Arg, Problem};
use cell_layouts::Layout;
use std::alloc::{AllocError, Global};

/// Whether an argument may have no letter at all.
fn may_be_empty(problem: &Problem<'_>, argument: &Arg) -> bool
    requires { IsKnown problem.now.grammar argument.now }
    ensures { IsTrue result ↔ MayBeEmpty problem.now argument.now }
{
    match argument {
        Arg::Rule(rule) => problem.sizes(*rule).0 == 0,
        Arg::Literal(text) => text.bytes().is_empty(),
        Arg::Letter(_) => false,
        Arg::Run { low, .. } => *low == 0,
    }
}

/// Whether all rules that may stand where the arguments begin are placed.
fn begin_with(problem: &Problem<'_>, arguments: &[Arg], placed: &[bool]) -> bool
    requires known { AllByRecursion (IsKnown problem.now.grammar) arguments.now }
    requires each { length placed.now ≡ length problem.now.grammar.rules }
    ensures { IsTrue result ↔ ((rule : ℕ) → MayBegin problem.now arguments.now rule → IsPlaced placed.now rule) }
{
    let Some((argument, others)) = arguments.split_first() else {
        return true;
    };
    if let Arg::Rule(rule) = argument {
        if !placed[*rule as usize] {
            return false;
        }
    }
    !may_be_empty(problem, argument) || begin_with(problem, others, placed)
}

/// Whether all rules that an alternative of a rule may begin with are placed.
fn all_begin_with(problem: &Problem<'_>, rule: u32, placed: &[bool]) -> bool
    requires rule { rule < length problem.now.grammar.rules }
    requires each { length placed.now ≡ length problem.now.grammar.rules }
    ensures { IsTrue result ↔ ((other : ℕ) → BeginsWith problem.now rule other → IsPlaced placed.now other) }
{
    let alternatives = problem.alternatives(rule);
    for number in 0..alternatives.len() {
        if !begin_with(problem, problem.arguments(rule, number as u8), placed) {
            return false;
        }
    }
    true
}

/// Puts rules that may follow behind those that are placed. Fails for want of memory alone.
fn place_more(
    problem: &Problem<'_>,
    placed: &mut [bool],
    order: &mut Vec<u32>,
) -> Result<(), AllocError>
    requires { ArePlaced problem.now placed.old order.old.items }
    ensures { OnOk result (ArePlaced problem.now placed.new order.new.items) }
{
    problem.admissible();
    numbers_fit_together();
    for rule in 0..placed.len() as u32 {
        if !placed[rule as usize] && all_begin_with(problem, rule, placed) {
            placed[rule as usize] = true;
            order.push(rule)?;
        }
    }
    Ok(())
}

/// Whether all rules are placed.
fn are_all_placed(placed: &[bool]) -> bool
    ensures { IsTrue result ↔ EachIndex placed.now (IsPlaced placed.now) }
{
    placed.iter().all(|is| *is)
}

/// The rules, each behind those that an alternative of it may begin with where it begins; `None` where there is no such
/// order, since a rule leads back to itself. Fails for want of memory alone.
fn row_order(alloc: Global, problem: &Problem<'_>) -> Result<Option<Vec<u32>>, AllocError>
    ensures { IfOk result (λ order. IfSome order (λ rules. AreInRowOrder problem.now rules.items)) }
{
    let rules = problem.grammar.rules.as_slice().len();
    let mut placed = vec![in alloc; false; rules]?;
    let mut order = Vec::with_capacity(alloc, rules)?;
    for _ in 0..rules {
        let before = order.len();
        place_more(problem, &mut placed, &mut order)?;
        if order.len() == before {
            break;
        }
    }
    if are_all_placed(&placed) {
        Ok(Some(order))
    } else {
        Ok(None)
    }
}

/// How many ends rows have on average, at least, where they are taken as rows.
const LONG_ROW: usize = 16;

/// How many alternatives a grammar has, at most, that is gone through by rows.
const MOST_ALTERNATIVES: usize = 64;

/// Whether a grammar has few alternatives. A row asks for each token at each position that is reached, so under many
/// alternatives whose tokens match nowhere cells one by one take less.
fn has_few_alternatives(problem: &Problem<'_>) -> bool {
    let mut alternatives: usize = 0;
    for rule in problem.grammar.rules.as_slice() {
        alternatives = alternatives.saturating_add(rule.alts.as_slice().len());
    }
    alternatives <= MOST_ALTERNATIVES
}

/// The same order, where the rows of the word are long and the grammar has few alternatives; `None` also where that is
/// not so: cells one by one are then no slower. Fails for want of memory alone.
pub fn order_of_long_rows(
    alloc: Global,
    problem: &Problem<'_>,
    layout: &Layout<'_>,
) -> Result<Option<Vec<u32>>, AllocError>
    ensures { IfOk result (λ order. IfSome order (λ rules. AreInRowOrder problem.now rules.items)) }
{
    let laid = layout.rows();
    if laid.count as usize / LONG_ROW < laid.blocks.len() || !has_few_alternatives(problem) {
        return Ok(None);
    }
    row_order(alloc, problem)
}
