ghost use Rattle.std.specs.Prelude.{◌≡◌, ◌++◌, ◌<◌, length, IfOk, OnOk};
ghost use Rattle.adp_model.specs.Demand.{AreDemanded, IsDemanded};
ghost use Rattle.adp_model.specs.Parts.{rule_at};
ghost use Rattle.adp_model.specs.Report.{line};
ghost use Rattle.table_certificate.specs.BestScores.{IsBestScore};
ghost use Rattle.table_certificate.specs.WrittenCertificate.{cell_text, score_text, word_text, IsCertificate};

use crate::demanded::{DemandedScores, demanded_cells};
use adp_model::laws::demand::demanded_cells_are_counted;
use adp_model::{Cell, Problem, push_decimal, push_signed};
use cell_layouts::Layout;
use std::alloc::{AllocError, Global};

fn push_score(out: &mut Vec<u8>, score: Option<i64>) -> Result<(), AllocError>
    ensures { OnOk result (out.new.items ≡ out.old.items ++ score_text score) }
{
    match score {
        None => out.extend_from_slice(b"none"),
        Some(score) => push_signed(out, score),
    }
}

/// Appends the head of a block.
fn push_word_line(out: &mut Vec<u8>, number: u32, cells: usize) -> Result<(), AllocError>
    ensures { OnOk result (out.new.items ≡ out.old.items ++ line (word_text number cells)) }
{
    out.extend_from_slice(b"word ")?;
    push_decimal(out, u64::from(number))?;
    out.extend_from_slice(b" cells ")?;
    push_decimal(out, cells as u64)?;
    out.push(b'\n')?;
    Ok(())
}

fn rule_name<'p>(problem: &'p Problem<'_>, rule: u32) -> &'p [u8]
    requires { rule < length problem.now.grammar.rules }
    ensures { result.now ≡ (rule_at problem.now.grammar rule).name }
{
    problem.grammar.rules.as_slice()[rule as usize].name.bytes()
}

/// Appends the line of a cell with its score.
fn push_cell_line(
    out: &mut Vec<u8>,
    problem: &Problem<'_>,
    cell: Cell,
    score: Option<i64>,
) -> Result<(), AllocError>
    requires { cell.rule < length problem.now.grammar.rules }
    ensures { OnOk result (out.new.items ≡ out.old.items ++ line (cell_text problem.now.grammar cell score)) }
{
    out.extend_from_slice(rule_name(problem, cell.rule))?;
    out.push(b' ')?;
    push_decimal(out, u64::from(cell.from))?;
    out.push(b' ')?;
    push_decimal(out, u64::from(cell.to))?;
    out.push(b' ')?;
    push_score(out, score)?;
    out.push(b'\n')?;
    Ok(())
}

/// The best score of a demanded cell.
fn best_score<A: DemandedScores>(scores: &A, cell: Cell) -> Option<i64>
    requires { IsDemanded (A.problem scores.now) cell }
    ensures { IsBestScore (A.problem scores.now) cell result }
{
    match scores.demanded_score(cell) {
        Some(score) => score,
        None => unreachable!(),
    }
}

/// The block of a word in a certificate, whose problem is laid out: its number, counted from 1, and the number of its
/// demanded cells, then a line for each of these cells, in order, with its best score.
///
/// # Errors
///
/// Where there is no memory.
pub fn certificate<A: DemandedScores>(
    alloc: Global,
    number: u32,
    layout: &Layout<'_>,
    scores: &A,
) -> Result<Vec<u8>, AllocError>
    requires { A.problem scores.now ≡ layout.now }
    ensures { IfOk result (λ text. IsCertificate number layout.now text.items) }
{
    let problem = layout.problem();
    let cells = demanded_cells(alloc, layout, scores)?;
    cells_certificate(alloc, number, problem, &cells, scores)
}

/// The same, where these are the demanded cells.
fn cells_certificate<A: DemandedScores>(
    alloc: Global,
    number: u32,
    problem: &Problem<'_>,
    cells: &[Cell],
    scores: &A,
) -> Result<Vec<u8>, AllocError>
    requires scores { A.problem scores.now ≡ problem.now }
    requires cells { AreDemanded problem.now cells.now }
    ensures { IfOk result (λ text. IsCertificate number problem.now text.items) }
{
    problem.admissible();
    demanded_cells_are_counted();
    let mut out = Vec::new(alloc);
    push_word_line(&mut out, number, cells.len())?;
    for cell in cells {
        push_cell_line(&mut out, problem, *cell, best_score(scores, *cell))?;
    }
    Ok(out)
}
