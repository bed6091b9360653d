ghost use Rattle.std.specs.Prelude.{◌≡◌, ◌+◌, ◌^◌, ◌<◌, ◌≤◌, [], ◌∷◌, ◌++◌, List, IfOk, OnOk, IsTrue, length, map, vec_len};
ghost use Rattle.std.specs.List.{All};
ghost use Rattle.adp_model.specs.WellFormed.{is_well_formed};
ghost use Rattle.grammar_check.specs.GrammarPlans.{HasFewLeaves, low_in, high_in, ranged, own_in, parts_in, entry_in, lengths_of, wide_in};
ghost use Rattle.grammar_check.specs.Fills.{IsRuleWide};
ghost use Rattle.grammar_check.specs.RuleValues.{Entry};
ghost use Rattle.grammar_check.specs.KeptPlans.{Keeps, KeepsAll};

use crate::measure::Measure;
use crate::part::{Part, Worth};
use crate::rule_plan::RulePlan;
use adp_model::laws::well_formed::{arguments_are_few_and_known, terms_fit_their_alternatives};
use adp_model::{Alt, Arg, Grammar};
use std::alloc::{AllocError, Global};
use yield_sizes::Sizes;

/// A part between these lengths, where no length above `most` counts.
fn ranged(most: usize, low: usize, high: Option<usize>, worth: Worth) -> Part
    requires { most < 2 ^ 32 }
    ensures { result ≡ ranged most low high worth }
{
    let low = low.min(most + 1);
    let high = high.unwrap_or(most).min(most);
    let room = high.saturating_sub(low);
    Part { worth, low, room }
}

/// The least length of an argument.
fn low(sizes: &Sizes, argument: &Arg) -> usize
    ensures { result ≡ low_in sizes.now.least argument.now }
{
    match argument {
        Arg::Rule(rule) => match sizes.least.as_slice().get(*rule as usize) {
            None => 0,
            Some(least) => *least as usize,
        },
        Arg::Literal(text) => text.bytes().len(),
        Arg::Letter(_) => 1,
        Arg::Run { low, .. } => *low as usize,
    }
}

/// The greatest length of an argument.
fn high(sizes: &Sizes, argument: &Arg) -> Option<usize>
    ensures { result ≡ high_in sizes.now.greatest argument.now }
{
    match argument {
        Arg::Rule(rule) => match sizes.greatest.as_slice().get(*rule as usize) {
            None => None,
            Some(greatest) => widened(*greatest),
        },
        Arg::Literal(text) => Some(text.bytes().len()),
        Arg::Letter(_) => Some(1),
        Arg::Run { high, .. } => widened(*high),
    }
}

fn widened(number: Option<u32>) -> Option<usize>
    ensures { result ≡ number }
{
    match number {
        None => None,
        Some(number) => Some(number as usize),
    }
}

/// The arguments of an alternative of the sign, as parts.
fn parts(
    alloc: Global,
    grammar: &Grammar,
    sizes: &Sizes,
    measure: Measure,
    most: usize,
    sign: u32,
    arguments: &[Arg],
) -> Result<Vec<Part>, AllocError>
    requires { most < 2 ^ 32 }
    ensures { IfOk result (λ parts. parts.items
        ≡ parts_in grammar.now measure (lengths_of sizes.now most) sign 0 arguments.now) }
{
    let mut parts = Vec::with_capacity(alloc, arguments.len())?;
    for (place, argument) in arguments.iter().enumerate() {
        let factor = measure.factor(grammar, sign, place);
        let worth = measure.worth(grammar, factor, argument);
        parts.push(ranged(most, low(sizes, argument), high(sizes, argument), worth))?;
    }
    Ok(parts)
}

/// Adds an alternative of the sign, which has these parts, for lengths up to `most`.
fn add_alternative<'a>(
    alloc: Global,
    plan: &mut RulePlan<'a>,
    grammar: &'a Grammar,
    measure: Measure,
    most: usize,
    sign: u32,
    parts: Vec<Part>,
) -> Result<(), AllocError>
    requires few { vec_len parts ≤ 4 }
    requires term { HasFewLeaves (wide_in grammar.now measure sign) }
    requires short { most ≤ 4000 }
    ensures keeps { OnOk result ((entries : List Entry) → Keeps entries plan.old
        → Keeps (entries ++ (own_in grammar.now measure sign, parts.items) ∷ []) plan.new) }
    ensures columns { OnOk result (IsRuleWide (most + 1) plan.old → IsRuleWide (most + 1) plan.new) }
{
    match measure.wide_term(grammar, sign) {
        None => plan.add(alloc, measure.constant(grammar, sign), &parts, most),
        Some(term) => plan.add_wide(alloc, term, parts, most),
    }
}

/// What is kept of the alternatives of a rule, for lengths up to `most`.
fn rule_plan<'a>(
    alloc: Global,
    grammar: &'a Grammar,
    sizes: &Sizes,
    measure: Measure,
    most: usize,
    alternatives: &[Alt],
) -> Result<RulePlan<'a>, AllocError>
    requires few { All (λ alternative. length alternative.args ≤ 4) alternatives.now }
    requires terms { All (λ alternative. HasFewLeaves (wide_in grammar.now measure alternative.sign)) alternatives.now }
    requires short { most ≤ 4000 }
    ensures plan { IfOk result
        (Keeps (map (entry_in grammar.now measure (lengths_of sizes.now most)) alternatives.now)) }
    ensures columns { IfOk result (IsRuleWide (most + 1)) }
{
    let mut plan = RulePlan::new(alloc);
    for alternative in alternatives {
        let sign = alternative.sign;
        let arguments = alternative.args.as_slice();
        let parts = parts(alloc, grammar, sizes, measure, most, sign, arguments)?;
        add_alternative(alloc, &mut plan, grammar, measure, most, sign, parts)?;
    }
    Ok(plan)
}

/// What is kept of a grammar's plan, rule by rule, for lengths up to `most`.
pub fn plans<'a>(
    alloc: Global,
    grammar: &'a Grammar,
    sizes: &Sizes,
    measure: Measure,
    most: usize,
) -> Result<Vec<RulePlan<'a>>, AllocError>
    requires well_formed { IsTrue (is_well_formed grammar.now) }
    requires short { most ≤ 4000 }
    ensures plan { IfOk result (λ plans. KeepsAll grammar.now measure (lengths_of sizes.now most) plans.items) }
    ensures columns { IfOk result (λ plans. All (λ plan. IsRuleWide (most + 1) plan) plans.items) }
{
    arguments_are_few_and_known();
    terms_fit_their_alternatives();
    let mut planned = Vec::with_capacity(alloc, grammar.rules.as_slice().len())?;
    for rule in grammar.rules.as_slice() {
        planned.push(rule_plan(alloc, grammar, sizes, measure, most, rule.alts.as_slice())?)?;
    }
    Ok(planned)
}
