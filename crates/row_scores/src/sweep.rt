//! The sweep over the starts of a word, downwards.

ghost use Rattle.std.specs.Prelude.{◌≡◌, ◌↔◌, ◌+◌, ◌≤◌, IfOk, IfSome, length};
ghost use Rattle.std.specs.Result.{OnOk};
ghost use Rattle.adp_model.specs.declared.cell.Cell.{Cell};
ghost use Rattle.adp_model.specs.Demand.{IsDemanded};
ghost use Rattle.cell_answers.specs.Entries.{HasEntry};
ghost use Rattle.cell_tables.specs.Marks.{IsMarkedInRow};
ghost use Rattle.row_scores.specs.RowNumbers.{HaveChildren};
ghost use Rattle.row_scores.specs.RowRules.{AreRowRules, IsClearRoom, IsRowRule};
ghost use Rattle.row_scores.specs.Sweeps.{AreFilled, AreKept, AreNumbers, IsAny, IsFromStart, IsOfRow, IsSettled, IsSwept};

use crate::rules::{RowRule, row_rules};
use crate::steps::Known;
use crate::through::{Room, raise_by};
use adp_model::Cell;
use adp_model::laws::bellman::bellman;
use adp_model::laws::bounds::words_keep_their_score_bound;
use adp_model::laws::demand::{demanded_cells_are_counted, demanded_children_are_below};
use adp_model::laws::well_formed::{alternatives_fit, arguments_are_few_and_known};
use cell_answers::{Packed, Scores};
use cell_layouts::Layout;
use cell_tables::{Marks, Table};
use score_numbers::{LONG_LIMIT, LONG_MARK, MEDIUM_LIMIT, MEDIUM_MARK, SHORT_LIMIT, SHORT_MARK};
use score_rows::RowNumber;
use split_lines::Lines;
use std::alloc::{AllocError, Global};

/// A number, or the mark where it stands for no score.
#[inline(always)]
fn settled<N: RowNumber>(number: N) -> N
    ensures { IsSettled N.width (N.value number) (N.value result) }
{
    if number.is_live() { number } else { N::mark() }
}

/// Fills the row of a rule and a start.
fn fill_row<N: RowNumber>(
    lines: &Lines<'_>,
    layout: &Layout<'_>,
    marks: &Marks<'_>,
    rule: &RowRule<'_>,
    from: u16,
    room: &mut Room<N>,
    table: &mut Table<'_, N>,
)
    requires swept { IsSwept lines.now N.width layout.now marks.now }
    requires rule { IsRowRule lines.now rule.now }
    requires from { from ≤ length lines.now.word }
    requires room { IsClearRoom lines.now N.width room.old }
    requires children { AreNumbers N.width N.value lines.now table.old
        × HaveChildren N.width N.value lines.now table.old rule.now.rule from }
    ensures filled { AreFilled N.width N.value lines.now table.new (IsOfRow rule.now.rule from) }
    ensures kept { AreKept N.width N.value table.old table.new }
    ensures room { IsClearRoom lines.now N.width room.new }
{
    let problem = lines.problem();
    problem.admissible();
    demanded_cells_are_counted();
    bellman();
    words_keep_their_score_bound();
    alternatives_fit();
    arguments_are_few_and_known();
    let known = Known {
        lines,
        layout,
        table,
    };
    for alternative in &rule.alternatives {
        raise_by(&known, alternative, from, room);
    }
    let ends = layout.ends(rule.rule, from);
    for to in ends.start..ends.end {
        let cell = Cell {
            rule: rule.rule,
            from,
            to,
        };
        if marks.is_marked_in_row(cell) {
            table.put(cell, settled(room.row.number(to)));
        }
    }
    room.row.clear();
}

/// Fills the row of a rule and a start, if a cell of it is marked.
fn fill_marked<N: RowNumber>(
    lines: &Lines<'_>,
    layout: &Layout<'_>,
    marks: &Marks<'_>,
    rule: &RowRule<'_>,
    from: u16,
    room: &mut Room<N>,
    table: &mut Table<'_, N>,
)
    requires swept { IsSwept lines.now N.width layout.now marks.now }
    requires rule { IsRowRule lines.now rule.now }
    requires from { from ≤ length lines.now.word }
    requires room { IsClearRoom lines.now N.width room.old }
    requires children { AreNumbers N.width N.value lines.now table.old
        × HaveChildren N.width N.value lines.now table.old rule.now.rule from }
    ensures filled { AreFilled N.width N.value lines.now table.new (IsOfRow rule.now.rule from) }
    ensures kept { AreKept N.width N.value table.old table.new }
    ensures room { IsClearRoom lines.now N.width room.new }
{
    lines.problem().admissible();
    demanded_cells_are_counted();
    let only = [rule.rule];
    if marks.next_marked(&only, from, from + 1, from).is_none() {
        return;
    }
    fill_row(lines, layout, marks, rule, from, room, table);
}

/// Fills the rows of a start.
fn fill_start<N: RowNumber>(
    lines: &Lines<'_>,
    layout: &Layout<'_>,
    marks: &Marks<'_>,
    rules: &[RowRule<'_>],
    from: u16,
    room: &mut Room<N>,
    table: &mut Table<'_, N>,
)
    requires swept { IsSwept lines.now N.width layout.now marks.now }
    requires rules { AreRowRules lines.now rules.now }
    requires from { from ≤ length lines.now.word }
    requires room { IsClearRoom lines.now N.width room.old }
    requires filled { AreFilled N.width N.value lines.now table.old (IsFromStart (from + 1)) }
    ensures filled { AreFilled N.width N.value lines.now table.new (IsFromStart from) }
    ensures room { IsClearRoom lines.now N.width room.new }
{
    lines.problem().admissible();
    demanded_cells_are_counted();
    demanded_children_are_below();
    for rule in rules {
        fill_marked(lines, layout, marks, rule, from, room, table);
    }
}

/// Fills the rows of the starts, the last one first. Fails for want of memory alone.
fn fill<N: RowNumber>(
    alloc: Global,
    lines: &Lines<'_>,
    layout: &Layout<'_>,
    marks: &Marks<'_>,
    rules: &[RowRule<'_>],
    table: &mut Table<'_, N>,
) -> Result<(), AllocError>
    requires swept { IsSwept lines.now N.width layout.now marks.now }
    requires rules { AreRowRules lines.now rules.now }
    requires numbers { AreNumbers N.width N.value lines.now table.old }
    ensures { OnOk result (AreFilled N.width N.value lines.now table.new IsAny) }
{
    lines.problem().admissible();
    demanded_cells_are_counted();
    let positions = layout.positions() as u16;
    let mut room = Room::new(alloc, positions as usize)?;
    for from in (0..positions).rev() {
        if marks.has_start(from) {
            fill_start(lines, layout, marks, rules, from, &mut room, table);
        }
    }
    Ok(())
}

/// The scores of the demanded cells, which are marked in their rows; `None` where rows are short, or the rules are not
/// such that whole rows can be filled one after another. Fails for want of memory alone.
pub fn scores_by_rows<'a>(
    alloc: Global,
    lines: &Lines<'a>,
    marks: &Marks<'a>,
    layout: &Layout<'a>,
) -> Result<Option<Scores<'a>>, AllocError>
    requires same_layout { layout.now ≡ lines.now }
    requires marked { (cell : Cell) → IsMarkedInRow marks.now cell ↔ IsDemanded lines.now cell }
    ensures problem { IfOk result (λ found. IfSome found (λ scores. scores.problem ≡ lines.now)) }
    ensures scored { IfOk result (λ found. IfSome found
        (λ scores. (cell : Cell) → IsDemanded lines.now cell → HasEntry scores cell)) }
{
    let Some(rules) = row_rules(alloc, lines, layout)? else {
        return Ok(None);
    };
    let problem = lines.problem();
    problem.admissible();
    words_keep_their_score_bound();
    let packed = if problem.score_bound <= SHORT_LIMIT as u64 {
        let mut table = Table::new(alloc, layout, SHORT_MARK)?;
        table.cells();
        fill(alloc, lines, layout, marks, &rules, &mut table)?;
        Packed::Short(table)
    } else if problem.score_bound <= MEDIUM_LIMIT as u64 {
        let mut table = Table::new(alloc, layout, MEDIUM_MARK)?;
        table.cells();
        fill(alloc, lines, layout, marks, &rules, &mut table)?;
        Packed::Medium(table)
    } else if problem.score_bound <= LONG_LIMIT as u64 {
        let mut table = Table::new(alloc, layout, LONG_MARK)?;
        table.cells();
        fill(alloc, lines, layout, marks, &rules, &mut table)?;
        Packed::Long(table)
    } else {
        return Ok(None);
    };
    Ok(Some(Scores::of(problem.goal(), packed)))
}
