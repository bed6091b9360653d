//! The report of a word's first trees, by lists that grow as far as they are asked for.

ghost use Rattle.std.specs.Prelude.{◌≡◌, ◌++◌, ◌<◌, ◌≤◌, List, IfOk, IfSome, OnOk, true, length};
ghost use Rattle.adp_model.specs.Demand.{IsDemanded};
ghost use Rattle.adp_model.specs.PosedProblem.{axiom_cell};
ghost use Rattle.adp_model.specs.Report.{tree_lines};
ghost use Rattle.adp_model.specs.Scores.{score_of};
ghost use Rattle.adp_model.specs.Tree.{Tree};
ghost use Rattle.first_trees.specs.FirstTrees.{AreFirst, HasPlace};
ghost use Rattle.first_trees.specs.ListReport.{IsListReport, lines_of};
ghost use Rattle.first_trees.specs.ListLimits.{most_first_trees};
ghost use Rattle.k_best.specs.GrowingLists.{AreGrowing, IsBasis};

use crate::growing::{Basis, Grown, Told, slot_of, told_at};
use crate::grown_trees::{grow_along, grown_nodes};
use crate::listed_trees::Listed;
use crate::reports::push_lines;
use cell_layouts::Places;
use first_trees::laws::{cells_have_first_trees, first_trees_are_unique};
use report::push_number_line;
use seq_reference::Solved;
use std::alloc::{AllocError, Global};

/// Appends the lines of the listed tree of the whole word at this place, where its nodes are known. Tells whether they
/// are.
fn push_grown_tree(
    alloc: Global,
    out: &mut Vec<u8>,
    basis: &Basis<'_, '_>,
    grown: &mut Grown,
    rank: usize,
    score: i64,
) -> Result<bool, AllocError>
    requires basis { IsBasis basis.now }
    requires growing { AreGrowing basis.now.lines.now basis.now.k grown.old.lists.items }
    requires demanded { IsDemanded basis.now.lines.now (axiom_cell basis.now.lines.now) }
    requires there { (tree : Tree)
        × HasPlace basis.now.lines.now basis.now.k (axiom_cell basis.now.lines.now) tree rank
        × (score ≡ score_of basis.now.lines.now tree) }
    ensures growing { OnOk result (AreGrowing basis.now.lines.now basis.now.k grown.new.lists.items) }
    ensures lines { IfOk result (λ is_known. is_known ≡ true → (tree : Tree)
        → HasPlace basis.now.lines.now basis.now.k (axiom_cell basis.now.lines.now) tree rank
        → out.new.items ≡ out.old.items ++ tree_lines basis.now.lines.now tree) }
{
    first_trees_are_unique();
    let mut places = Vec::new(alloc);
    let Some(nodes) = grown_nodes(alloc, basis, grown, rank, &mut places)? else {
        return Ok(false);
    };
    push_lines(alloc, out, basis.lines.problem(), score, &nodes)?;
    if rank + 1 < basis.k {
        grow_along(basis, grown, &places)?;
    }
    Ok(true)
}

/// Appends the lines of the first trees of the whole word, and tells how many there are, where all of them are known.
fn push_grown_list(
    alloc: Global,
    out: &mut Vec<u8>,
    basis: &Basis<'_, '_>,
    grown: &mut Grown,
) -> Result<Option<u64>, AllocError>
    requires basis { IsBasis basis.now }
    requires growing { AreGrowing basis.now.lines.now basis.now.k grown.old.lists.items }
    ensures { IfOk result (λ count. IfSome count (λ count. (trees : List Tree)
        × AreFirst basis.now.lines.now (axiom_cell basis.now.lines.now) basis.now.k trees
        × (out.new.items ≡ out.old.items ++ lines_of basis.now.lines.now trees) × (count ≡ length trees))) }
{
    let problem = basis.lines.problem();
    problem.admissible();
    cells_have_first_trees();
    first_trees_are_unique();
    let whole = problem.axiom_cell();
    let Some(_slot) = slot_of(basis, grown, whole) else {
        return Ok(None);
    };
    for rank in 0..basis.k {
        let score = match told_at(basis, grown, whole, rank) {
            Told::Score(score) => score,
            Told::Nothing => return Ok(Some(rank as u64)),
            Told::NotYet => return Ok(None),
        };
        if !push_grown_tree(alloc, out, basis, grown, rank, score)? {
            return Ok(None);
        }
    }
    Ok(Some(basis.k as u64))
}

/// The report of a word with its first trees, where all of them are known.
fn report_of(
    alloc: Global,
    number: u32,
    basis: &Basis<'_, '_>,
    grown: &mut Grown,
) -> Result<Option<Vec<u8>>, AllocError>
    requires basis { IsBasis basis.now }
    requires growing { AreGrowing basis.now.lines.now basis.now.k grown.old.lists.items }
    ensures { IfOk result (λ report. IfSome report (λ report.
        IsListReport number basis.now.lines.now basis.now.k report.items)) }
{
    let mut out = Vec::new(alloc);
    push_number_line(&mut out, b"word ", u64::from(number))?;
    let Some(count) = push_grown_list(alloc, &mut out, basis, grown)? else {
        return Ok(None);
    };
    push_number_line(&mut out, b"listed ", count)?;
    Ok(Some(out))
}

/// The report of a word with its first trees, by lists of which none has begun.
fn report_from(
    alloc: Global,
    number: u32,
    basis: &Basis<'_, '_>,
) -> Result<Option<Vec<u8>>, AllocError>
    requires { IsBasis basis.now }
    ensures { IfOk result (λ report. IfSome report (λ report.
        IsListReport number basis.now.lines.now basis.now.k report.items)) }
{
    let mut grown = Grown::new(alloc, basis.lines.problem())?;
    report_of(alloc, number, basis, &mut grown)
}

/// The report of a word with its first `k` trees, by its best scores and lists that grow as far as they are asked for,
/// where they grow as far.
pub fn grown_report(
    alloc: Global,
    number: u32,
    solved: &Solved<'_>,
    k: u32,
) -> Result<Option<Vec<u8>>, AllocError>
    requires some { 0 < k }
    requires few { k ≤ most_first_trees }
    ensures { IfOk result (λ report. IfSome report (λ report. IsListReport number solved.now k report.items)) }
{
    let prepared = solved.prepared();
    let lines = prepared.lines();
    let layout = prepared.layout();
    let basis = Basis {
        lines,
        solved,
        places: Places::of(layout)?,
        k: k as usize,
    };
    report_from(alloc, number, &basis)
}
