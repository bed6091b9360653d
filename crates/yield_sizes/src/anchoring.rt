ghost use Rattle.std.specs.Prelude.{◌≡◌, IfOk, IsTrue, ◌&&◌, ◌||◌, ◌==◌, not, length, map, false, slice_index_or};
ghost use Rattle.std.specs.List.{enumerate_from, list_any, range_with_len, zip};
ghost use Rattle.yield_sizes.specs.References.{Reaches};
ghost use Rattle.adp_model.specs.WellFormed.{is_well_formed};
ghost use Rattle.yield_sizes.specs.AnchorTests.{AreSideAnchors, is_free, is_named_beyond, is_reached, is_start, is_start_in};
ghost use Rattle.yield_sizes.specs.GrammarSizes.{AreAnchors, AreSizes};
ghost use Rattle.yield_sizes.specs.Relations.{IsTableOf};

use crate::argument_tests::{is_named_before, is_named_behind};
use crate::references::reached;
use crate::relation::is_related;
use crate::rule_anchors::Anchors;
use crate::rule_sizes::Sizes;
use adp_model::laws::well_formed::numbers_fit_together;
use adp_model::{Alt, Arg, Grammar, Rule, Sequence};
use std::alloc::{AllocError, Global};

/// A side of a span: where it begins, or where it ends.
#[derive(Clone, Copy)]
pub enum Side {
    Left,
    Right,
}

/// Whether one of the arguments is this rule, and one on this side of it can be nonempty.
fn is_named_beyond(side: Side, greatest: &[Option<u32>], rule: usize, arguments: &[Arg]) -> bool
    ensures { result ≡ is_named_beyond side greatest.now rule arguments.now }
{
    match side {
        Side::Left => is_named_behind(greatest, rule, arguments),
        Side::Right => is_named_before(greatest, rule, arguments),
    }
}

fn is_start_in(side: Side, greatest: &[Option<u32>], rule: usize, alternatives: &[Alt]) -> bool
    ensures { result ≡ is_start_in side greatest.now rule alternatives.now }
{
    alternatives.iter().any(|alternative| is_named_beyond(
        side,
        greatest,
        rule,
        alternative.args.as_slice(),
    ))
}

/// Whether a reached rule names this one beyond an argument that can be nonempty.
fn is_start(
    side: Side,
    greatest: &[Option<u32>],
    rules: &[Rule],
    reached: &[bool],
    rule: usize,
) -> bool
    ensures { result ≡ is_start side greatest.now rules.now reached.now rule }
{
    rules.iter().zip(reached).any(|(other, is_reached)| {
        *is_reached && is_start_in(side, greatest, rule, other.alts.as_slice())
    })
}

fn starts(
    alloc: Global,
    side: Side,
    greatest: &[Option<u32>],
    rules: &[Rule],
    reached: &[bool],
) -> Result<Vec<bool>, AllocError>
    ensures { IfOk result (λ starts. starts.items
        ≡ map (is_start side greatest.now rules.now reached.now) (range_with_len 0 (length rules.now))) }
{
    (0..rules.len())
        .map(|rule| is_start(side, greatest, rules, reached, rule))
        .collect(alloc)
}

fn is_reached(root: u32, paths: &[Sequence<bool>], rule: usize) -> bool
    ensures { result ≡ is_reached root paths.now rule }
{
    root as usize == rule || is_related(paths, root as usize, rule)
}

/// Which rules are reached from the axiom.
fn reached_rules(
    alloc: Global,
    root: u32,
    paths: &[Sequence<bool>],
) -> Result<Vec<bool>, AllocError>
    ensures { IfOk result (λ flags. flags.items
        ≡ map (is_reached root paths.now) (range_with_len 0 (length paths.now))) }
{
    (0..paths.len())
        .map(|rule| is_reached(root, paths, rule))
        .collect(alloc)
}

/// Whether references lead from a start to this rule, or it is one.
fn is_free(paths: &[Sequence<bool>], starts: &[bool], rule: usize) -> bool
    ensures { result ≡ is_free paths.now starts.now rule }
{
    starts.iter().enumerate().any(|(start, is_start)| {
        *is_start && (start == rule || is_related(paths, start, rule))
    })
}

fn anchored(
    alloc: Global,
    paths: &[Sequence<bool>],
    starts: &[bool],
) -> Result<Vec<bool>, AllocError>
    ensures { IfOk result (λ flags. flags.items
        ≡ map (λ rule. not (is_free paths.now starts.now rule)) (range_with_len 0 (length paths.now))) }
{
    (0..paths.len())
        .map(|rule| !is_free(paths, starts, rule))
        .collect(alloc)
}

/// Which rules are anchored on this side.
fn anchored_on(
    alloc: Global,
    side: Side,
    grammar: &Grammar,
    sizes: &Sizes,
    paths: &[Sequence<bool>],
) -> Result<Vec<bool>, AllocError>
    requires well_formed { IsTrue (is_well_formed grammar.now) }
    requires sizes { AreSizes grammar.now sizes.now }
    requires paths { IsTableOf (length grammar.now.rules) (Reaches grammar.now) paths.now }
    ensures { IfOk result (λ flags. AreSideAnchors side grammar.now flags.items) }
{
    numbers_fit_together();
    let rules = grammar.rules.as_slice();
    let greatest = sizes.greatest.as_slice();
    let from_axiom = reached_rules(alloc, grammar.axiom, paths)?;
    let starts = starts(alloc, side, greatest, rules, &from_axiom)?;
    anchored(alloc, paths, &starts)
}

/// Which rules are left-anchored and which are right-anchored. A rule is not left-anchored where references lead to it
/// from a rule that a reached rule names behind an argument that can be nonempty, or where it is such a rule; so on the
/// right with arguments that follow.
pub fn anchors(alloc: Global, grammar: &Grammar, sizes: &Sizes) -> Result<Anchors, AllocError>
    requires well_formed { IsTrue (is_well_formed grammar.now) }
    requires sizes { AreSizes grammar.now sizes.now }
    ensures { IfOk result (AreAnchors grammar.now) }
{
    let paths = reached(alloc, grammar)?;
    let left = anchored_on(alloc, Side::Left, grammar, sizes, &paths)?;
    let right = anchored_on(alloc, Side::Right, grammar, sizes, &paths)?;
    Ok(Anchors {
        left: Sequence::new(left),
        right: Sequence::new(right),
    })
}
