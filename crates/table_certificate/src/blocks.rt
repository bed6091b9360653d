//! The block of a word.

ghost use Rattle.std.specs.Prelude.{◌≡◌, ◌↔◌, ◌<◌, ◌≤◌, ◌^◌, IfOk, IfSome, IsTrue, MatchOption, OnOk, List, Some, false, ℕ, [], ◌∷◌, ◌++◌, length};
ghost use Rattle.adp_model.specs.declared.cell.Cell.{Cell as AnyCell};
ghost use Rattle.adp_model.specs.PosedProblem.{IsSpan, axiom_cell};
ghost use Rattle.adp_model.specs.Cells.{CellPrecedes};
ghost use Rattle.adp_model.specs.Sizes.{IsWithinSizes};
ghost use Rattle.adp_model.specs.WellFormed.{is_well_formed};
ghost use Rattle.table_certificate.specs.CertificateLines.{LineForm};
ghost use Rattle.table_certificate.specs.LocalCertificate.{HasLine, IsRightCellLine, IsRightInBlock, IsTold, is_word_line, last_cell};
ghost use Rattle.table_certificate.specs.KeptForms.{kept, kept_form};
ghost use Rattle.table_certificate.specs.Claims.{Tell, claimed};
ghost use Rattle.table_certificate.specs.KnownScores.{AreSaidBest};
ghost use Rattle.table_certificate.specs.BlockLines.{AreRightFurther, IsAtHead, IsBestOrNot, IsBlock, IsFirstWrong, IsInWord, IsKnownForm, IsOutcome, IsWithin, LiesInWord, lines_ahead};

use crate::claims::Claims;
use crate::forms::{Form, next_form, next_line};
use crate::known_scores::{is_same, noted_said_best, settled_score};
use crate::laws::settled_lines_say_best_scores;
use crate::splits::judge_cell;
use adp_model::laws::demand::demanded_cells_are_counted;
use adp_model::laws::well_formed::{
    alternatives_fit, arguments_are_few_and_known, numbers_fit_together,
};
use adp_model::{Cell, Grammar, Problem};
use cell_layouts::Layout;
use cell_tables::Noted;
use seq_reference::Solved;
use split_lines::Lines;
use std::alloc::{AllocError, Global};

/// What is kept of the further lines of a block: what they say of cells, how many they are, and what stands behind them.
#[derive(Drop)]
pub(crate) struct Block<'t> {
    pub(crate) claims: Claims,
    pub(crate) count: u32,
    pub(crate) behind: &'t [u8],
}

/// What came of a block.
#[derive(Clone, Copy)]
pub(crate) enum Outcome<'t> {
    /// Its first line that is false, or missing, stands behind so many lines.
    FirstFalse(u32),
    /// All its lines are right: what it tells of its word, how many lines it has, and what stands behind them.
    Right {
        value: Option<i64>,
        lines: u32,
        behind: &'t [u8],
    },
}

fn is_between(least: u32, greatest: Option<u32>, letters: u64) -> bool
    ensures { IsTrue result ↔ ((least ≤ letters) × IfSome greatest (λ most. letters ≤ most)) }
{
    match greatest {
        None => u64::from(least) <= letters,
        Some(most) => u64::from(least) <= letters && letters <= u64::from(most),
    }
}

/// Whether so many letters lie between the sizes of a rule.
fn is_within_sizes(problem: &Problem<'_>, rule: u32, letters: u64) -> bool
    requires { rule < length problem.now.grammar.rules }
    ensures { IsTrue result ↔ IsWithinSizes problem.now.grammar rule letters }
{
    let (least, greatest) = problem.sizes(rule);
    is_between(least, greatest, letters)
}

fn lies_in_word(problem: &Problem<'_>, rule: u32, from: u64, to: u64) -> bool
    requires { rule < length problem.now.grammar.rules }
    ensures { IsTrue result ↔ LiesInWord problem.now rule from to }
{
    if from > to {
        return false;
    }
    if to > problem.letters().len() as u64 {
        return false;
    }
    is_within_sizes(problem, rule, to - from)
}

/// The cell, where it lies in the word and its length in its rule's sizes.
fn cell_in_word(problem: &Problem<'_>, rule: u32, from: u64, to: u64) -> Option<Cell>
    requires { rule < length problem.now.grammar.rules }
    ensures exact { (exact : AnyCell) → rule ≡ exact.rule → from ≡ kept exact.from → to ≡ kept exact.to
        → MatchOption result (IsInWord problem.now exact → ⊥) (λ cell. (cell ≡ exact) × IsInWord problem.now exact) }
    ensures inside { IfSome result (λ cell. IsInWord problem.now cell × (cell.rule ≡ rule)) }
{
    problem.admissible();
    if lies_in_word(problem, rule, from, to) {
        Some(Cell {
            rule,
            from: from as u16,
            to: to as u16,
        })
    } else {
        None
    }
}

fn precedes(one: Cell, other: Cell) -> bool
    ensures { IsTrue result ↔ CellPrecedes one other }
{
    if one.rule != other.rule {
        return one.rule < other.rule;
    }
    if one.from != other.from {
        return one.from < other.from;
    }
    one.to < other.to
}

/// Whether the cell comes behind the earlier one, where there is one.
fn is_in_order(earlier: Option<Cell>, cell: Cell) -> bool
    ensures { IsTrue result ↔ IfSome earlier (λ before. CellPrecedes before cell) }
{
    match earlier {
        None => true,
        Some(before) => precedes(before, cell),
    }
}

/// Whether no split of the cell is wrong, and this is the best of their scores.
fn is_best(lines: &Lines<'_>, claims: &Claims, cell: Cell, score: Option<i64>) -> bool
    requires span { IsSpan lines.now.word cell.from cell.to }
    requires rule { cell.rule < length lines.now.grammar.rules }
    ensures { IsBestOrNot lines.now (claimed claims.now) cell score result }
{
    match judge_cell(lines, claims, cell) {
        None => false,
        Some(best) => is_same(score, best),
    }
}

/// Whether the line of a cell in the word is right, where its length is within its rule's sizes. The splits of the cell
/// are judged where its score isn't settled.
fn is_right_cell(
    lines: &Lines<'_>,
    claims: &Claims,
    solved: &Solved<'_>,
    said_best: &Noted<'_>,
    earlier: Option<Cell>,
    cell: Cell,
    score: Option<i64>,
) -> bool
    requires solved { solved.now ≡ lines.now }
    requires noted { AreSaidBest lines.now (claimed claims.now) said_best.now }
    requires inside { IsInWord lines.now cell }
    requires rule { cell.rule < length lines.now.grammar.rules }
    ensures { (block : List LineForm) → Tell claims.now block
        → IsTrue result ↔ IsRightCellLine lines.now block earlier cell score }
{
    lines.problem().admissible();
    alternatives_fit();
    arguments_are_few_and_known();
    demanded_cells_are_counted();
    settled_lines_say_best_scores();
    if !is_in_order(earlier, cell) {
        return false;
    }
    match settled_score(lines, solved, said_best, cell) {
        Some(best) => is_same(score, best),
        None => is_best(lines, claims, cell, score),
    }
}

/// The cell of a line that is right.
fn right_cell(
    lines: &Lines<'_>,
    claims: &Claims,
    solved: &Solved<'_>,
    said_best: &Noted<'_>,
    earlier: Option<Cell>,
    rule: u32,
    from: u64,
    to: u64,
    score: Option<i64>,
) -> Option<Cell>
    requires solved { solved.now ≡ lines.now }
    requires noted { AreSaidBest lines.now (claimed claims.now) said_best.now }
    requires rule { rule < length lines.now.grammar.rules }
    ensures { (block : List LineForm) (exact : AnyCell) → Tell claims.now block → rule ≡ exact.rule
        → from ≡ kept exact.from → to ≡ kept exact.to
        → MatchOption result (IsRightCellLine lines.now block earlier exact score → ⊥)
        (λ cell. (cell ≡ exact) × IsRightCellLine lines.now block earlier exact score) }
{
    let problem = lines.problem();
    match cell_in_word(problem, rule, from, to) {
        None => None,
        Some(cell) => {
            if is_right_cell(lines, claims, solved, said_best, earlier, cell, score) {
                Some(cell)
            } else {
                None
            }
        }
    }
}

/// The cell of a line that is right.
fn right_line(
    lines: &Lines<'_>,
    claims: &Claims,
    solved: &Solved<'_>,
    said_best: &Noted<'_>,
    earlier: Option<Cell>,
    form: Form,
) -> Option<Cell>
    requires solved { solved.now ≡ lines.now }
    requires noted { AreSaidBest lines.now (claimed claims.now) said_best.now }
    requires form { IsKnownForm lines.now.grammar form }
    ensures { (block : List LineForm) (exact : LineForm) → Tell claims.now block → form ≡ kept_form exact
        → is_word_line exact ≡ false
        → MatchOption result ((number : ℕ) → IsRightInBlock lines.now block number earlier exact → ⊥)
        (λ cell. (Some cell ≡ last_cell earlier (exact ∷ []))
        × ((number : ℕ) → IsRightInBlock lines.now block number earlier exact)) }
{
    match form {
        Form::Cell {
            rule,
            from,
            to,
            score,
        } => right_cell(
            lines, claims, solved, said_best, earlier, rule, from, to, score,
        ),
        Form::Word { .. } => None,
        Form::Cert => None,
        Form::Formless => None,
    }
}

/// Notes what a line says.
fn note_line(claims: &mut Claims, form: Form) -> Result<(), AllocError>
    ensures { OnOk result ((lines : List LineForm) (exact : LineForm) → form ≡ kept_form exact
        → Tell claims.old lines → Tell claims.new (lines ++ exact ∷ [])) }
{
    match form {
        Form::Cell {
            rule,
            from,
            to,
            score,
        } => claims.note(rule, from, to, score),
        Form::Word { .. } => Ok(()),
        Form::Cert => Ok(()),
        Form::Formless => Ok(()),
    }
}

/// What is kept of the lines of a text before the next head of a block.
fn read_block<'t>(
    alloc: Global,
    layout: &Layout<'_>,
    grammar: &Grammar,
    text: &'t [u8],
) -> Result<Block<'t>, AllocError>
    requires well_formed { IsTrue (is_well_formed grammar.now) }
    requires few { length text.now ≤ 2 ^ 31 }
    ensures { IfOk result (IsBlock grammar.now text.now) }
{
    let mut claims = Claims::new(alloc, layout)?;
    let mut rest = text;
    let mut count: u32 = 0;
    'lines: while let Some((form, behind)) = next_line(grammar, rest) {
        note_line(&mut claims, form)?;
        count += 1;
        rest = behind;
    }
    Ok(Block {
        claims,
        count,
        behind: rest,
    })
}

/// The number of lines before the first wrong one, of those before the next head of a block.
fn first_wrong(
    lines: &Lines<'_>,
    claims: &Claims,
    solved: &Solved<'_>,
    said_best: &Noted<'_>,
    grammar: &Grammar,
    text: &[u8],
) -> Option<u32>
    requires solved { solved.now ≡ lines.now }
    requires noted { AreSaidBest lines.now (claimed claims.now) said_best.now }
    requires same { grammar.now ≡ lines.now.grammar }
    requires well_formed { IsTrue (is_well_formed grammar.now) }
    requires few { length text.now ≤ 2 ^ 31 }
    requires told { Tell claims.now (lines_ahead lines.now.grammar text.now) }
    ensures { MatchOption result (AreRightFurther lines.now (lines_ahead lines.now.grammar text.now))
        (IsFirstWrong lines.now (lines_ahead lines.now.grammar text.now)) }
{
    let mut rest = text;
    let mut count: u32 = 0;
    let mut earlier = None;
    'lines: while let Some((form, behind)) = next_line(grammar, rest) {
        match right_line(lines, claims, solved, said_best, earlier, form) {
            Some(cell) => earlier = Some(cell),
            None => return Some(count),
        }
        count += 1;
        rest = behind;
    }
    None
}

/// What the lines of a block tell of the word, `None` where the axiom's cell has no line and needs one.
fn told_value(problem: &Problem<'_>, claims: &Claims) -> Option<Option<i64>>
    ensures { (block : List LineForm) → Tell claims.now block → MatchOption result
        ((IsWithinSizes problem.now.grammar problem.now.grammar.axiom (length problem.now.word)
        → HasLine block (axiom_cell problem.now)) → ⊥)
        (λ value. (IsWithinSizes problem.now.grammar problem.now.grammar.axiom (length problem.now.word)
        → HasLine block (axiom_cell problem.now)) × IsTold problem.now block value) }
{
    problem.admissible();
    numbers_fit_together();
    let cell = problem.axiom_cell();
    if is_within_sizes(problem, cell.rule, u64::from(cell.to)) {
        claims.said(cell)
    } else {
        Some(None)
    }
}

/// Whether the head of a block has its number, and counts so many further lines.
fn is_right_head(number: u32, count: u32, told: u64, cells: u64) -> bool
    ensures { (exact_number exact_cells : ℕ) → told ≡ kept exact_number → cells ≡ kept exact_cells
        → IsTrue result ↔ ((exact_number ≡ number) × (exact_cells ≡ count)) }
{
    told == u64::from(number) && cells == u64::from(count)
}

/// What comes of the block of this number, with which a text begins: its lines are judged one by one.
pub(crate) fn judge_block<'p, 't>(
    alloc: Global,
    problem: &'p Problem<'p>,
    solved: &Solved<'p>,
    number: u32,
    text: &'t [u8],
) -> Result<Outcome<'t>, AllocError>
    requires solved { solved.now ≡ problem.now }
    requires few { length text.now ≤ 2 ^ 31 }
    requires begins { IsAtHead problem.now.grammar text.now }
    ensures outcome { IfOk result (IsOutcome problem.now number text.now) }
    ensures within { IfOk result (IsWithin text.now) }
{
    problem.admissible();
    let Some((form, rest)) = next_form(problem.grammar, text) else {
        return Ok(Outcome::FirstFalse(0));
    };
    let Form::Word {
        number: told,
        cells,
    } = form
    else {
        return Ok(Outcome::FirstFalse(0));
    };
    let prepared = solved.prepared();
    let layout = prepared.layout();
    let block = read_block(alloc, layout, problem.grammar, rest)?;
    if !is_right_head(number, block.count, told, cells) {
        return Ok(Outcome::FirstFalse(0));
    }
    let Some(value) = told_value(problem, &block.claims) else {
        return Ok(Outcome::FirstFalse(0));
    };
    let lines = prepared.lines();
    let said_best = noted_said_best(alloc, layout, solved, &block.claims)?;
    match first_wrong(
        lines,
        &block.claims,
        solved,
        &said_best,
        problem.grammar,
        rest,
    ) {
        Some(place) => Ok(Outcome::FirstFalse(place + 1)),
        None => Ok(Outcome::Right {
            value,
            lines: block.count + 1,
            behind: block.behind,
        }),
    }
}
