ghost use Rattle.std.specs.Prelude.{◌≡◌, IfOk, IsTrue, length, map};
ghost use Rattle.std.specs.List.{list_any, range_with_len};
ghost use Rattle.adp_model.specs.Loops.{IsEdge, IsEdgePath};
ghost use Rattle.adp_model.specs.Sizes.{Names};
ghost use Rattle.adp_model.specs.WellFormed.{is_well_formed};
ghost use Rattle.yield_sizes.specs.ArgumentTests.{has_rule, is_edge};
ghost use Rattle.yield_sizes.specs.GrammarSizes.{AreSizes};
ghost use Rattle.yield_sizes.specs.References.{Reaches};
ghost use Rattle.yield_sizes.specs.Relations.{IsTableOf};

use crate::argument_tests::{has_rule, is_empty_but};
use crate::relation::closure;
use crate::rule_sizes::Sizes;
use adp_model::laws::well_formed::numbers_fit_together;
use adp_model::{Alt, Grammar, Sequence};
use std::alloc::{AllocError, Global};

fn names(alternatives: &[Alt], other: usize) -> bool
    ensures { result ≡ list_any (has_rule other) alternatives.now }
{
    alternatives
        .iter()
        .any(|alternative| has_rule(other, alternative))
}

fn named_rules(alloc: Global, alternatives: &[Alt], count: usize) -> Result<Vec<bool>, AllocError>
    ensures { IfOk result (λ row. row.items
        ≡ map (λ other. list_any (has_rule other) alternatives.now) (range_with_len 0 count)) }
{
    (0..count)
        .map(|other| names(alternatives, other))
        .collect(alloc)
}

/// Which rules each rule names in its alternatives.
fn references(alloc: Global, grammar: &Grammar) -> Result<Vec<Sequence<bool>>, AllocError>
    requires { IsTrue (is_well_formed grammar.now) }
    ensures { IfOk result (λ rows. IsTableOf (length grammar.now.rules) (Names grammar.now) rows.items) }
{
    numbers_fit_together();
    let rules = grammar.rules.as_slice();
    let mut rows = Vec::new(alloc);
    for rule in rules {
        let row = named_rules(alloc, rule.alts.as_slice(), rules.len())?;
        rows.push(Sequence::new(row))?;
    }
    Ok(rows)
}

fn has_edge(least: &[u32], alternatives: &[Alt], other: usize) -> bool
    ensures { result ≡ list_any (is_edge least.now other) alternatives.now }
{
    alternatives.iter().any(|alternative| is_empty_but(least, other, alternative.args.as_slice()))
}

fn edge_ends(
    alloc: Global,
    least: &[u32],
    alternatives: &[Alt],
    count: usize,
) -> Result<Vec<bool>, AllocError>
    ensures { IfOk result (λ row. row.items
        ≡ map (λ other. list_any (is_edge least.now other) alternatives.now) (range_with_len 0 count)) }
{
    (0..count)
        .map(|other| has_edge(least, alternatives, other))
        .collect(alloc)
}

/// The empty-context edges.
fn edges(alloc: Global, grammar: &Grammar, sizes: &Sizes) -> Result<Vec<Sequence<bool>>, AllocError>
    requires well_formed { IsTrue (is_well_formed grammar.now) }
    requires sizes { AreSizes grammar.now sizes.now }
    ensures { IfOk result (λ rows. IsTableOf (length grammar.now.rules) (IsEdge grammar.now) rows.items) }
{
    numbers_fit_together();
    let rules = grammar.rules.as_slice();
    let least = sizes.least.as_slice();
    let mut rows = Vec::new(alloc);
    for rule in rules {
        let row = edge_ends(alloc, least, rule.alts.as_slice(), rules.len())?;
        rows.push(Sequence::new(row))?;
    }
    Ok(rows)
}

/// Which rules references lead to from each rule.
pub fn reached(alloc: Global, grammar: &Grammar) -> Result<Vec<Sequence<bool>>, AllocError>
    requires { IsTrue (is_well_formed grammar.now) }
    ensures { IfOk result (λ rows. IsTableOf (length grammar.now.rules) (Reaches grammar.now) rows.items) }
{
    let rows = references(alloc, grammar)?;
    closure(alloc, rows)
}

/// Which rules empty-context edges lead to from each rule.
pub fn edge_paths(
    alloc: Global,
    grammar: &Grammar,
    sizes: &Sizes,
) -> Result<Vec<Sequence<bool>>, AllocError>
    requires well_formed { IsTrue (is_well_formed grammar.now) }
    requires sizes { AreSizes grammar.now sizes.now }
    ensures { IfOk result (λ rows. IsTableOf (length grammar.now.rules) (IsEdgePath grammar.now) rows.items) }
{
    let rows = edges(alloc, grammar, sizes)?;
    closure(alloc, rows)
}
