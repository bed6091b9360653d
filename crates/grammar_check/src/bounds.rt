ghost use Rattle.std.specs.Prelude.{◌≡◌, ℕ, ◌+◌, ◌<◌, ◌≤◌, IfOk, length, slice_index, vec_len};
ghost use Rattle.adp_model.specs.Bounds.{AreScoreBounds, AreNodeBounds};
ghost use Rattle.adp_model.specs.LimitFaults.{told};
ghost use Rattle.grammar_check.specs.Tables.{entry};
ghost use Rattle.grammar_check.specs.Plans.{greatest_from};
ghost use Rattle.grammar_check.specs.GrammarPlans.{grammar_plan, lengths_of};
ghost use Rattle.grammar_check.specs.TokenNumbers.{score_number};
ghost use Rattle.grammar_check.specs.declared.measure.Measure.TheVariants.{Scores};
ghost use Rattle.grammar_check.specs.ToldBounds.{IsToldScoreBound, IsToldNodeBound};

use crate::checked::Checked;
use crate::filled::filled_table;
use crate::measure::Measure;
use crate::table::Table;
use crate::tokens::greatest_token;
use adp_model::Sequence;
use adp_model::laws::bounds::words_have_one_bound;
use adp_model::laws::well_formed::numbers_fit_together;
use std::alloc::{AllocError, Global};

/// The bounds of a checked grammar's words by their length, from 0 up to some length. Each number is the bound, or 2^63
/// where it is more. The rows up to the greatest length of some words serve them all.
#[derive(Drop)]
pub struct BoundRows {
    pub longest: u32,
    pub scores: Sequence<u64>,
    pub nodes: Sequence<u64>,
}

impl BoundRows {
    ghost use Rattle.grammar_check.specs.ToldRows.{AreRowsOf};

    /// The rows for words of at most `longest` letters.
    pub fn new(alloc: Global, checked: &Checked, longest: u32) -> Result<BoundRows, AllocError>
        requires { longest ≤ 4000 }
        ensures rows { IfOk result (AreRowsOf checked.now) }
        ensures longest { IfOk result (λ rows. rows.longest ≡ longest) }
    {
        checked.passes();
        words_have_one_bound();
        numbers_fit_together();
        let scores = Sequence::new(score_row(alloc, checked, longest as usize)?);
        let nodes = Sequence::new(node_row(alloc, checked, longest as usize)?);
        Ok(BoundRows {
            longest,
            scores,
            nodes,
        })
    }
}

/// The greatest entry of all rows at this column.
fn greatest_entry(table: &Table, column: usize) -> u64
    requires { column < table.now.width }
    ensures { result ≡ greatest_from (λ row. entry table.now row column) 0 table.now.rows }
{
    let mut greatest = 0;
    for row in 0..table.rows {
        greatest = greatest.max(table.get(row, column));
    }
    greatest
}

/// The score bounds of words by their length.
fn score_row(alloc: Global, checked: &Checked, longest: usize) -> Result<Vec<u64>, AllocError>
    requires { longest ≤ 4000 }
    ensures each { IfOk result (λ row. length row.items ≡ longest + 1) }
    ensures bounds { IfOk result (λ row. (bound : ℕ → ℕ → ℕ)
        → AreScoreBounds checked.now.grammar checked.now.algebra bound
        → (len : ℕ) → len ≤ longest → slice_index row.items len
        ≡ told (score_number bound (length checked.now.grammar.rules) (grammar_plan checked.now.grammar
        (Scores checked.now.algebra) (lengths_of checked.now.sizes longest)) len)) }
{
    let measure = Measure::Scores {
        algebra: checked.algebra,
    };
    let filled = filled_table(alloc, checked, measure, longest)?;
    let mut row = Vec::with_capacity(alloc, longest + 1)?;
    let mut greatest = 0;
    for len in 0..longest + 1 {
        let rules = greatest_entry(&filled.table, len);
        let tokens = greatest_token(&filled.plans, len);
        greatest = greatest.max(rules.max(tokens));
        row.push(greatest)?;
    }
    Ok(row)
}

/// The node bounds of words by their length.
fn node_row(alloc: Global, checked: &Checked, longest: usize) -> Result<Vec<u64>, AllocError>
    requires { longest ≤ 4000 }
    ensures each { IfOk result (λ row. length row.items ≡ longest + 1) }
    ensures bounds { IfOk result (λ row. (nodes : ℕ → ℕ → ℕ) → AreNodeBounds checked.now.grammar nodes
        → (len : ℕ) → len ≤ longest → slice_index row.items len ≡ told (nodes checked.now.grammar.axiom len)) }
{
    checked.passes();
    numbers_fit_together();
    let filled = filled_table(alloc, checked, Measure::Nodes, longest)?;
    let axiom = checked.grammar.axiom as usize;
    let mut row = Vec::with_capacity(alloc, longest + 1)?;
    for len in 0..longest + 1 {
        row.push(filled.table.get(axiom, len))?;
    }
    Ok(row)
}

/// The score bound of words of `n` letters, or 2^63 where it is more: no score of a derived tree, nor any number that
/// its computation needs, is greater in absolute value.
pub fn score_bound(alloc: Global, checked: &Checked, n: u32) -> Result<u64, AllocError>
    requires { n ≤ 4000 }
    ensures { IfOk result (IsToldScoreBound checked.now.grammar checked.now.algebra n) }
{
    let rows = BoundRows::new(alloc, checked, n)?;
    Ok(rows.scores.as_slice()[n as usize])
}

/// The node bound of words of `n` letters, or 2^63 where it is more: no derived tree of the axiom over the word has
/// more nodes.
pub fn node_bound(alloc: Global, checked: &Checked, n: u32) -> Result<u64, AllocError>
    requires { n ≤ 4000 }
    ensures { IfOk result (IsToldNodeBound checked.now.grammar n) }
{
    let rows = BoundRows::new(alloc, checked, n)?;
    Ok(rows.nodes.as_slice()[n as usize])
}
