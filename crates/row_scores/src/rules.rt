//! The rules of a problem, in the order in which their rows of a start are filled.

ghost use Rattle.std.specs.Prelude.{◌≡◌, ◌<◌, IfOk, IfSome, length};
ghost use Rattle.adp_model.specs.Parts.{alternatives_of};
ghost use Rattle.split_lines.specs.declared.kept.Scoring.TheVariants.{Sum};
ghost use Rattle.row_scores.specs.RowRules.{AreRowAlternatives, AreRowRules};

use crate::order::order_of_long_rows;
use adp_model::Arg;
use adp_model::laws::well_formed::alternatives_fit;
use cell_layouts::Layout;
use split_lines::{Lengths, Lines, Scoring, WeightedSum};
use std::alloc::{AllocError, Global};

/// An alternative that is scored by a sum.
#[derive(Clone, Copy)]
pub struct RowAlternative<'a> {
    pub arguments: &'a [Arg],
    pub sum: WeightedSum,
    pub lengths: Lengths,
}

/// A rule and its alternatives.
#[derive(Drop)]
pub struct RowRule<'a> {
    pub rule: u32,
    pub alternatives: Vec<RowAlternative<'a>>,
}

/// The sum, where an alternative is scored by one.
fn sum_of(scoring: &Scoring<'_>) -> Option<WeightedSum>
    ensures { IfSome result (λ sum. scoring.now ≡ Sum sum) }
{
    match scoring {
        Scoring::Sum(sum) => Some(*sum),
        Scoring::Term(_) => None,
    }
}

/// The alternatives of a rule; `None` where one of them is not scored by a sum. Fails for want of memory alone.
fn row_alternatives<'a>(
    alloc: Global,
    lines: &Lines<'a>,
    rule: u32,
) -> Result<Option<Vec<RowAlternative<'a>>>, AllocError>
    requires { rule < length lines.now.grammar.rules }
    ensures { IfOk result (λ found. IfSome found
        (λ all. AreRowAlternatives lines.now rule (length (alternatives_of lines.now.grammar rule)) all.items)) }
{
    let problem = lines.problem();
    problem.admissible();
    alternatives_fit();
    let kept = lines.alternatives(rule);
    let mut alternatives = Vec::with_capacity(alloc, kept.len())?;
    for number in 0..kept.len() {
        let alternative = &kept[number];
        let Some(sum) = sum_of(&alternative.scoring) else {
            return Ok(None);
        };
        alternatives.push(RowAlternative {
            arguments: problem.arguments(rule, number as u8),
            sum,
            lengths: alternative.lengths,
        })?;
    }
    Ok(Some(alternatives))
}

/// The rules in the order of their rows; `None` where they have no such order, where rows are short, or where an
/// alternative is not scored by a sum. Fails for want of memory alone.
pub fn row_rules<'a>(
    alloc: Global,
    lines: &Lines<'a>,
    layout: &Layout<'a>,
) -> Result<Option<Vec<RowRule<'a>>>, AllocError>
    ensures { IfOk result (λ found. IfSome found (λ rules. AreRowRules lines.now rules.items)) }
{
    let Some(order) = order_of_long_rows(alloc, lines.problem(), layout)? else {
        return Ok(None);
    };
    let mut rules = Vec::with_capacity(alloc, order.len())?;
    for rule in &order {
        let Some(alternatives) = row_alternatives(alloc, lines, *rule)? else {
            return Ok(None);
        };
        rules.push(RowRule {
            rule: *rule,
            alternatives,
        })?;
    }
    Ok(Some(rules))
}
