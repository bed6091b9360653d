//! The heads of a cell's list: the first ranked splits of its viable splits.

ghost use Rattle.std.specs.Prelude.{◌≡◌, ◌<◌, IfOk, true, length, slice_set, take};
ghost use Rattle.std.specs.Bool.{OnTrue};
ghost use Rattle.adp_model.specs.Parts.{algebra_of, alternatives_of};
ghost use Rattle.adp_model.specs.PosedProblem.{IsSpan};
ghost use Rattle.first_trees.specs.Entries.{Entry as EntryValue};
ghost use Rattle.first_trees.specs.RankedSplits.{IsRankedSplit};
ghost use Rattle.viable_splits.specs.Placing.{on_span};
ghost use Rattle.k_best.specs.Growing.{IsHeaded};
ghost use Rattle.k_best.specs.GrowingLists.{AreGrowing, IsBasis, no_ranks};
ghost use Rattle.k_best.specs.Heads.{AreHeadedBy, IsLaid, IsTreeless};
ghost use Rattle.k_best.specs.RankedRows.{IsListing};
ghost use Rattle.k_best.specs.Settled.{IsSettled};

use crate::entry::Entry;
use crate::growing::{Basis, Grown, Told, told_at};
use crate::ranked::meet_at;
use adp_model::{Arg, Cell, Choice};
use std::alloc::AllocError;
use traceback::NodeAt;

/// Whether the argument is a rule whose cell on this span is known to have no tree.
fn is_treeless(basis: &Basis<'_, '_>, grown: &Grown, argument: &Arg, from: u16, to: u16) -> bool
    requires basis { IsBasis basis.now }
    requires growing { AreGrowing basis.now.lines.now basis.now.k grown.now.lists.items }
    ensures { OnTrue result (IsTreeless basis.now.lines.now basis.now.k (on_span argument.now from to)) }
{
    let Arg::Rule(rule) = argument else {
        return false;
    };
    let child = Cell {
        rule: *rule,
        from,
        to,
    };
    matches!(told_at(basis, grown, child, 0), Told::Nothing)
}

/// The cuts with one of them moved.
fn with_cut(cuts: [u16; 3], number: usize, cut: u16) -> [u16; 3]
    requires { number < 3 }
    ensures { result ≡ slice_set cuts number cut }
{
    let mut moved = cuts;
    moved[number] = cut;
    moved
}

/// Puts the heads among the first entries of all viable splits that begin with the first so many cuts of a node, the
/// other arguments laid from `from` on. Tells whether all are known. Calls itself once for each argument, at most four
/// deep.
fn meet_laid(
    basis: &Basis<'_, '_>,
    grown: &Grown,
    node: NodeAt,
    count: usize,
    arguments: &[Arg],
    from: u16,
    found: &mut Vec<Entry>,
) -> Result<bool, AllocError>
    requires basis { IsBasis basis.now }
    requires growing { AreGrowing basis.now.lines.now basis.now.k grown.now.lists.items }
    requires span { IsSpan basis.now.lines.now.word node.cell.from node.cell.to }
    requires laid { IsLaid basis.now.lines.now node.cell node.choice.alt node.choice.cuts count arguments.now from }
    requires some { 0 < length arguments.now }
    requires listing { IsListing basis.now.lines.now basis.now.k node.cell found.old.items }
    ensures listing { IfOk result (λ _. IsListing basis.now.lines.now basis.now.k node.cell found.new.items) }
    ensures kept { IfOk result (λ _. (entry : EntryValue)
        → IsSettled (algebra_of basis.now.lines.now).goal basis.now.k found.old.items entry
        → IsSettled (algebra_of basis.now.lines.now).goal basis.now.k found.new.items entry) }
    ensures met { IfOk result (λ are_known. are_known ≡ true → AreHeadedBy basis.now.lines.now basis.now.k node.cell
        node.choice.alt (take count node.choice.cuts) found.new.items) }
{
    let lines = basis.lines;
    let to = node.cell.to;
    let Some((argument, others)) = arguments.split_first() else {
        unreachable!()
    };
    if others.is_empty() {
        if !lines.fits(argument, from, to) {
            return Ok(true);
        }
        return meet_at(basis, grown, node, &[0; 4], found);
    }
    let ends = lines.ends_of_first(arguments, from, to);
    for end in ends.start..ends.end {
        if is_treeless(basis, grown, argument, from, end) {
            continue;
        }
        let next = NodeAt {
            cell: node.cell,
            choice: Choice {
                alt: node.choice.alt,
                cuts: with_cut(node.choice.cuts, count, end),
            },
        };
        if !meet_laid(basis, grown, next, count + 1, others, end, found)? {
            return Ok(false);
        }
    }
    Ok(true)
}

/// Puts the first ranked split of each viable split of a cell by an alternative among its first entries. Tells whether
/// all are known.
pub fn meet_heads(
    basis: &Basis<'_, '_>,
    grown: &Grown,
    cell: Cell,
    alt: u8,
    found: &mut Vec<Entry>,
) -> Result<bool, AllocError>
    requires basis { IsBasis basis.now }
    requires growing { AreGrowing basis.now.lines.now basis.now.k grown.now.lists.items }
    requires span { IsSpan basis.now.lines.now.word cell.from cell.to }
    requires in_range { alt < length (alternatives_of basis.now.lines.now.grammar cell.rule) }
    requires listing { IsListing basis.now.lines.now basis.now.k cell found.old.items }
    ensures listing { IfOk result (λ _. IsListing basis.now.lines.now basis.now.k cell found.new.items) }
    ensures kept { IfOk result (λ _. (entry : EntryValue)
        → IsHeaded basis.now.lines.now basis.now.k cell no_ranks found.old.items entry
        → IsHeaded basis.now.lines.now basis.now.k cell no_ranks found.new.items entry) }
    ensures met { IfOk result (λ are_known. are_known ≡ true → (entry : EntryValue)
        → IsRankedSplit basis.now.lines.now basis.now.k cell entry → entry.choice.alt ≡ alt
        → IsHeaded basis.now.lines.now basis.now.k cell no_ranks found.new.items entry) }
{
    let problem = basis.lines.problem();
    if !problem.allows(cell.rule, alt, (cell.to - cell.from) as usize) {
        return Ok(true);
    }
    let node = NodeAt {
        cell,
        choice: Choice {
            alt,
            cuts: [cell.to; 3],
        },
    };
    let arguments = problem.arguments(cell.rule, alt);
    meet_laid(basis, grown, node, 0, arguments, cell.from, found)
}
