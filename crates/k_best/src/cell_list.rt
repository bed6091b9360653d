//! The list of a cell, by the lists of the cells that it demands.

ghost use Rattle.std.specs.Prelude.{◌≡◌, ◌<◌, ◌≤◌, ℕ, IfOk, [], length};
ghost use Rattle.adp_model.specs.declared.cell.Cell.{Cell as CellValue};
ghost use Rattle.adp_model.specs.PosedProblem.{IsSpan};
ghost use Rattle.adp_model.specs.Parts.{algebra_of, alternatives_of};
ghost use Rattle.adp_model.specs.Demand.{IsDemandedChild};
ghost use Rattle.first_trees.specs.Entries.{AreEntries, Entry as EntryValue};
ghost use Rattle.first_trees.specs.RankedSplits.{IsRankedSplit};
ghost use Rattle.k_best.specs.Settled.{IsSettled};
ghost use Rattle.k_best.specs.ListTables.{HasList, IsLaidOut};
ghost use Rattle.k_best.specs.RankedRows.{IsListing};

use crate::entry::Entry;
use crate::list_table::ListTable;
use crate::split_ranks::{Split, meet_split};
use adp_model::laws::splits::ranks_tell_splits_apart;
use adp_model::{Cell, Choice};
use first_trees::laws::lists_are_the_first_ranked_splits;
use split_lines::Lines;
use std::alloc::AllocError;
use viable_splits::Cuts;

/// Puts the ranked splits of a cell by an alternative among its first entries.
fn meet_alternative<'s, 'a>(
    lines: &'s Lines<'a>,
    table: &'s ListTable<'a>,
    k: usize,
    cell: Cell,
    alt: u8,
    listed: &mut Vec<Entry>,
) -> Result<(), AllocError>
    requires laid { IsLaidOut lines.now table.now }
    requires small { k ≤ 64 }
    requires lists { (child : CellValue) → IsDemandedChild lines.now cell child → HasList k table.now child }
    requires span { IsSpan lines.now.word cell.from cell.to }
    requires in_range { alt < length (alternatives_of lines.now.grammar cell.rule) }
    requires listing { IsListing lines.now k cell listed.old.items }
    ensures listing { IfOk result (λ _. IsListing lines.now k cell listed.new.items) }
    ensures kept { IfOk result (λ _. (entry : EntryValue)
        → IsSettled (algebra_of lines.now).goal k listed.old.items entry
        → IsSettled (algebra_of lines.now).goal k listed.new.items entry) }
    ensures met { IfOk result (λ _. (entry : EntryValue) → IsRankedSplit lines.now k cell entry
        → entry.choice.alt ≡ alt → IsSettled (algebra_of lines.now).goal k listed.new.items entry) }
{
    let problem = lines.problem();
    problem.admissible();
    ranks_tell_splits_apart();
    let term = problem.term(cell.rule, alt);
    let turns = [0; 3];
    let mut cuts = Cuts {
        at: [cell.to; 3],
        turns,
    };
    if !lines.first_viable(cell, alt, turns, &mut cuts) {
        return Ok(());
    }
    loop {
        let split = Split {
            lines,
            k,
            cell,
            choice: Choice { alt, cuts: cuts.at },
            term,
        };
        meet_split(split, table, listed)?;
        if !lines.next_viable(cell, alt, &mut cuts) {
            return Ok(());
        }
    }
}

/// The list of a cell whose demanded children have theirs.
pub fn fill_list<'s, 'a>(
    lines: &'s Lines<'a>,
    table: &'s ListTable<'a>,
    k: usize,
    cell: Cell,
    listed: &mut Vec<Entry>,
) -> Result<(), AllocError>
    requires laid { IsLaidOut lines.now table.now }
    requires small { k ≤ 64 }
    requires lists { (child : CellValue) → IsDemandedChild lines.now cell child → HasList k table.now child }
    requires rule { cell.rule < length lines.now.grammar.rules }
    requires span { IsSpan lines.now.word cell.from cell.to }
    requires empty { listed.old.items ≡ [] }
    ensures { IfOk result (λ _. AreEntries lines.now k cell listed.new.items) }
{
    let problem = lines.problem();
    problem.admissible();
    lists_are_the_first_ranked_splits();
    for alt in 0..problem.alternatives(cell.rule).len() as u8 {
        meet_alternative(lines, table, k, cell, alt, listed)?;
    }
    Ok(())
}
