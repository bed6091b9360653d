//! Machines that are stepped by hand, over a plain memo and over the shared table.

ghost use Rattle.std.specs.Prelude.{◌≡◌, ◌<◌};
ghost use Rattle.memo_model.specs.Machines.{IsMachine};
ghost use Rattle.cell_core.specs.MachineViews.{IsNotedIn};
ghost use Rattle.memo_table.specs.Meanings.{table_meaning};
ghost use Rattle.memo_words.specs.Passes.{IsPassOf, problem_of};

use crate::lines::{push_field, push_flag, push_no_call, push_signed_field, push_text};
use adp_model::Problem;
use cell_core::{Machine, PlainMemo, Turn};
use memo_model::{Memo, Steps};
use memo_table::{Pass, Table};
use random_orders::Orders;
use std::alloc::{AllocError, Global};
use std::marker::Brand;
use std::sync::ledger::{Blank, Ledger};

/// The most steps of one machine.
const MOST_STEPS: u32 = 100;

/// Steps a machine so often, or to its end.
fn run<M: Memo, L: Ledger>(
    memo: &M,
    machine: &mut Machine<'_, M>,
    pass: &mut M::Pass,
    steps: &mut Steps<L>,
    most: u32,
) -> Turn
    requires memo { M.problem memo.now ≡ machine.old.machine.problem }
    requires own { M.is_of memo.now pass.old }
    requires machine { IsMachine M.meaning IsNotedIn machine.old.machine pass.old }
{
    if most == 0 {
        return Turn::Going;
    }
    match machine.step(memo, pass, steps) {
        Turn::Going => run(memo, machine, pass, steps, most - 1),
        Turn::Ended(score) => Turn::Ended(score),
    }
}

/// The last turn, the wins and the steps of a fresh machine.
fn ending_counted<'a, M: Memo, L: Ledger>(
    alloc: Global,
    problem: &'a Problem<'a>,
    memo: &M,
    pass: &mut M::Pass,
    seed: u64,
    blank: Blank,
) -> Result<(Turn, u64, u64), AllocError>
    requires name { blank.name ≡ L.name }
    requires parts { (blank.parts ≡ L.parts) × (0 < blank.parts) }
    requires memo { M.problem memo.now ≡ problem.now }
    requires own { M.is_of memo.now pass.old }
{
    let mut machine = Machine::<M>::new(alloc, problem, Orders::new(seed, 0))?;
    let mut steps = Steps::<L>::open(blank);
    let turn = run(memo, &mut machine, pass, &mut steps, MOST_STEPS);
    Ok((turn, machine.wins(), machine.moves()))
}

/// The same, with a counter of steps that is opened for it.
fn ending<'a, M: Memo>(
    alloc: Global,
    problem: &'a Problem<'a>,
    memo: &M,
    pass: &mut M::Pass,
    seed: u64,
) -> Result<(Turn, u64, u64), AllocError>
    requires memo { M.problem memo.now ≡ problem.now }
    requires own { M.is_of memo.now pass.old }
{
    ending_counted::<M, Brand>(alloc, problem, memo, pass, seed, Blank::new(1))
}

/// Appends how a fresh machine ends over a plain memo, with its orders drawn by a seed.
pub(crate) fn push_plain(
    alloc: Global,
    problem: &Problem<'_>,
    numbers: &[u64],
    out: &mut Vec<u8>,
) -> Result<(), AllocError> {
    match numbers {
        [seed] => push_ending(plain_ending(alloc, &*problem, *seed)?, out),
        _ => push_no_call(out),
    }
}

fn plain_ending<'a>(
    alloc: Global,
    problem: &'a Problem<'a>,
    seed: u64,
) -> Result<(Turn, u64, u64), AllocError> {
    let (memo, mut pass) = PlainMemo::new(alloc, problem)?;
    ending(alloc, problem, &memo, &mut pass, seed)
}

fn push_ending(ending: (Turn, u64, u64), out: &mut Vec<u8>) -> Result<(), AllocError> {
    let (turn, wins, moves) = ending;
    push_turn(turn, out)?;
    push_field(out, ", wins ", wins)?;
    push_field(out, ", moves ", moves)
}

fn push_turn(turn: Turn, out: &mut Vec<u8>) -> Result<(), AllocError> {
    match turn {
        Turn::Going => push_text(out, " going"),
        Turn::Ended(None) => push_text(out, " ended with none"),
        Turn::Ended(Some(score)) => push_signed_field(out, " ended with ", score),
    }
}

/// Appends where two machines over one table stand that pass over noted arguments, once each of them, turn by turn, was
/// stepped so often.
pub(crate) fn push_turns(
    alloc: Global,
    problem: &Problem<'_>,
    numbers: &[u64],
    out: &mut Vec<u8>,
) -> Result<(), AllocError> {
    match numbers {
        [count @ 0..=100] => push_turned(alloc, &*problem, *count as u32, out),
        _ => push_no_call(out),
    }
}

fn push_turned<'a>(
    alloc: Global,
    problem: &'a Problem<'a>,
    count: u32,
    out: &mut Vec<u8>,
) -> Result<(), AllocError> {
    let (table, mut pass) = Table::new(alloc, problem, 2)?;
    let mut other = table.split(&mut pass);
    push_turned_over(alloc, problem, &table, &mut pass, &mut other, count, out)
}

fn push_turned_over<'a>(
    alloc: Global,
    problem: &'a Problem<'a>,
    table: &Table,
    pass: &mut Pass,
    other: &mut Pass,
    count: u32,
    out: &mut Vec<u8>,
) -> Result<(), AllocError>
    requires memo { problem_of table.now ≡ problem.now }
    requires own { IsPassOf table.now pass.old }
    requires other { IsPassOf table.now other.old }
{
    let mut first = Machine::<Table>::new(alloc, problem, Orders::new(0, 0))?;
    push_turned_beside(alloc, problem, table, &mut first, pass, other, count, out)
}

fn push_turned_beside<'a>(
    alloc: Global,
    problem: &'a Problem<'a>,
    table: &Table,
    first: &mut Machine<'_, Table>,
    pass: &mut Pass,
    other: &mut Pass,
    count: u32,
    out: &mut Vec<u8>,
) -> Result<(), AllocError>
    requires memo { problem_of table.now ≡ problem.now }
    requires same { first.old.machine.problem ≡ problem.now }
    requires own { IsPassOf table.now pass.old }
    requires machine { IsMachine table_meaning IsNotedIn first.old.machine pass.old }
    requires other { IsPassOf table.now other.old }
{
    let mut second = Machine::<Table>::new(alloc, problem, Orders::new(0, 1))?;
    turn(table, first, pass, &mut second, other, count);
    push_standing(first, pass, &second, other, out)
}

/// Steps both by turns, each so often, with a counter of steps that is opened for them.
fn turn<M: Memo>(
    memo: &M,
    first: &mut Machine<'_, M>,
    pass: &mut M::Pass,
    second: &mut Machine<'_, M>,
    other: &mut M::Pass,
    count: u32,
)
    requires memo { M.problem memo.now ≡ first.old.machine.problem }
    requires own { M.is_of memo.now pass.old }
    requires machine { IsMachine M.meaning IsNotedIn first.old.machine pass.old }
    requires other_memo { M.problem memo.now ≡ second.old.machine.problem }
    requires other_own { M.is_of memo.now other.old }
    requires other_machine { IsMachine M.meaning IsNotedIn second.old.machine other.old }
{
    turn_counted::<M, Brand>(memo, first, pass, second, other, count, Blank::new(1));
}

/// The same, with this counter.
fn turn_counted<M: Memo, L: Ledger>(
    memo: &M,
    first: &mut Machine<'_, M>,
    pass: &mut M::Pass,
    second: &mut Machine<'_, M>,
    other: &mut M::Pass,
    count: u32,
    blank: Blank,
)
    requires name { blank.name ≡ L.name }
    requires parts { (blank.parts ≡ L.parts) × (0 < blank.parts) }
    requires memo { M.problem memo.now ≡ first.old.machine.problem }
    requires own { M.is_of memo.now pass.old }
    requires machine { IsMachine M.meaning IsNotedIn first.old.machine pass.old }
    requires other_memo { M.problem memo.now ≡ second.old.machine.problem }
    requires other_own { M.is_of memo.now other.old }
    requires other_machine { IsMachine M.meaning IsNotedIn second.old.machine other.old }
{
    let mut steps = Steps::<L>::open(blank);
    by_turns(memo, first, pass, second, other, &mut steps, count);
}

/// The same, with a counter that was opened before.
fn by_turns<M: Memo, L: Ledger>(
    memo: &M,
    first: &mut Machine<'_, M>,
    pass: &mut M::Pass,
    second: &mut Machine<'_, M>,
    other: &mut M::Pass,
    steps: &mut Steps<L>,
    count: u32,
)
    requires memo { M.problem memo.now ≡ first.old.machine.problem }
    requires own { M.is_of memo.now pass.old }
    requires machine { IsMachine M.meaning IsNotedIn first.old.machine pass.old }
    requires other_memo { M.problem memo.now ≡ second.old.machine.problem }
    requires other_own { M.is_of memo.now other.old }
    requires other_machine { IsMachine M.meaning IsNotedIn second.old.machine other.old }
{
    if count == 0 {
        return;
    }
    let _ = first.step(memo, pass, steps);
    let _ = second.step(memo, other, steps);
    by_turns(memo, first, pass, second, other, steps, count - 1);
}

/// Appends where two machines stand.
fn push_standing(
    first: &Machine<'_, Table>,
    pass: &Pass,
    second: &Machine<'_, Table>,
    other: &Pass,
    out: &mut Vec<u8>,
) -> Result<(), AllocError> {
    push_machine(first, pass, out)?;
    push_text(out, ";")?;
    push_machine(second, other, out)
}

/// Appends how many publications a machine won, the record that its pass has in hand, its moves, and whether it has
/// ended.
fn push_machine(
    machine: &Machine<'_, Table>,
    pass: &Pass,
    out: &mut Vec<u8>,
) -> Result<(), AllocError> {
    push_field(out, " wins ", machine.wins())?;
    match pass.in_hand() {
        Some(record) => push_field(out, ", record ", u64::from(record))?,
        None => push_text(out, ", no record")?,
    }
    push_field(out, ", moves ", machine.moves())?;
    push_flag(out, ", ended", machine.ended())
}
