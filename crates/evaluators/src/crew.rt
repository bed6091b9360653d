//! The workers of a problem: made, run, and brought together again.

ghost use Rattle.std.specs.Prelude.{◌≡◌, ◌<◌, ◌≤◌, ℕ, [], ◌∷◌, ◌++◌, IfOk, All, map, true, vec_len, slice_index_or};
ghost use Rattle.std.specs.Arc.{arc_value};
ghost use Rattle.memo_model.specs.Machines.{IsMachine};
ghost use Rattle.adp_model.specs.ProblemFields.{IsAdmissible};
ghost use Rattle.cell_core.specs.MachineViews.{IsFresh, IsNotedIn};
ghost use Rattle.memo_table.specs.Meanings.{table_meaning};
ghost use Rattle.memo_words.specs.declared.pass.Pass.{Pass as AnyPass};
ghost use Rattle.memo_words.specs.Passes.{IsPassOf, view_of, marks_of, problem_of, plan_of};
ghost use Rattle.memo_words.specs.Views.{first_view, joined};
ghost use Rattle.evaluators.specs.Posts.{posts_of};
ghost use Rattle.evaluators.specs.Driving.{HasStepsOfFresh};
ghost use Rattle.evaluators.specs.Hiring.{IsHired};
ghost use Rattle.evaluators.specs.Working.{IsReady, IsAtWork, first_orders, post_of};
ghost use Rattle.evaluators.specs.Joined.{IsJoined};
ghost use Rattle.evaluators.specs.Runs.{IsFinished, HaveAllEnded, HasFirstEnded, wins_of};
ghost use Rattle.evaluators.specs.Playing.{HasKeptEntries};

use crate::finished::Finished;
use crate::gate::Gate;
use crate::gated::GatedWorker;
use crate::halves::run_all;
use crate::worker::{TableWorker, Worker};
use adp_model::laws::existence::demanded_cells_are_listed;
use adp_model::{Problem, axiom_answer};
use cell_core::{Machine, Prepared};
use memo_table::{Pass, Table};
use random_orders::Orders;
use std::alloc::{AllocError, Global};
use std::sync::Arc;
use std::thread::Threads;

/// Solves the problem by so many evaluators, 1 to 32, which share one table. Each visits in an order of its own, drawn
/// by the seed and its number, and the gate is passed by a worker before each load of a record word. No worker waits
/// for another.
///
/// # Errors
///
/// Where there is no memory.
pub fn run_workers<'a, R: Threads + Sync, G: Gate>(
    rt: &R,
    alloc: Global,
    problem: &'a Problem<'a>,
    workers: u32,
    seed: u64,
    gate: &G,
) -> Result<Finished<'a>, AllocError>
    requires { (1 ≤ workers) × (workers ≤ 32) }
    ensures finished { IfOk result (IsFinished problem.now seed) }
    ensures machines { IfOk result (λ finished. vec_len finished.machines ≡ workers) }
    ensures ended { IfOk result HaveAllEnded }
{
    run_prepared(
        rt,
        alloc,
        Prepared::new(alloc, problem)?,
        workers,
        seed,
        gate,
    )
}

/// The same of a problem that is prepared, so that what it shares with other words is not worked out anew.
///
/// # Errors
///
/// Where there is no memory.
pub fn run_prepared<'a, R: Threads + Sync, G: Gate>(
    rt: &R,
    alloc: Global,
    prepared: Prepared<'a>,
    workers: u32,
    seed: u64,
    gate: &G,
) -> Result<Finished<'a>, AllocError>
    requires { (1 ≤ workers) × (workers ≤ 32) }
    ensures finished { IfOk result (IsFinished prepared.entry seed) }
    ensures machines { IfOk result (λ finished. vec_len finished.machines ≡ workers) }
    ensures ended { IfOk result HaveAllEnded }
{
    let shared = shared_by_all(alloc, prepared)?;
    run_sharing(rt, alloc, &shared, workers, seed, gate)
}

/// The same of a prepared problem that is shared.
fn run_sharing<'a, R: Threads + Sync, G: Gate>(
    rt: &R,
    alloc: Global,
    prepared: &Arc<Prepared<'a>, Global>,
    workers: u32,
    seed: u64,
    gate: &G,
) -> Result<Finished<'a>, AllocError>
    requires number { (1 ≤ workers) × (workers ≤ 32) }
    requires admissible { IsAdmissible (arc_value prepared.now) }
    ensures finished { IfOk result (IsFinished (arc_value prepared.now) seed) }
    ensures machines { IfOk result (λ finished. vec_len finished.machines ≡ workers) }
    ensures ended { IfOk result HaveAllEnded }
{
    let problem = prepared.problem();
    let (table, pass) = Table::new(alloc, problem, workers)?;
    let mut crew = team(alloc, &table, prepared, gate, pass, workers, seed)?;
    run_all(rt, &table, crew.as_mut_slice());
    let left = join_all(alloc, &table, seed, workers, crew)?;
    Ok(finish(table, problem, seed, left))
}

/// The prepared problem, shared by all workers.
pub(crate) fn shared_by_all<'a>(
    alloc: Global,
    prepared: Prepared<'a>,
) -> Result<Arc<Prepared<'a>, Global>, AllocError>
    ensures problem { IfOk result (λ shared. arc_value shared ≡ prepared.entry) }
    ensures admissible { IsAdmissible prepared.entry }
{
    prepared.problem().admissible();
    Ok(Arc::new(alloc, prepared)?)
}

/// As many workers as the table has seats, each with a machine and a pass of its own.
pub(crate) fn team<'a, 'g, G>(
    alloc: Global,
    table: &Table,
    prepared: &Arc<Prepared<'a>, Global>,
    gate: &'g G,
    mut pass: Pass,
    count: u32,
    seed: u64,
) -> Result<Vec<GatedWorker<'g, TableWorker<'a>, G>>, AllocError>
    requires same { problem_of table.now ≡ arc_value prepared.now }
    requires admissible { IsAdmissible (arc_value prepared.now) }
    requires own { IsPassOf table.now pass }
    requires first { view_of pass ≡ first_view (plan_of table.now) }
    requires unmarked { marks_of pass ≡ [] }
    requires seats { (plan_of table.now).seats ≡ count }
    requires some { 1 ≤ count }
    ensures ready { IfOk result (λ team. All (λ gated. IsReady table.now gated.worker) team.items) }
    ensures posts { IfOk result (λ team. map (λ gated. post_of gated.worker) team.items
        ≡ posts_of (arc_value prepared.now) seed count) }
    ensures unmoved { IfOk result (λ team. All (λ gated. HasKeptEntries 0 gated.worker.machine) team.items) }
{
    let mut team = Vec::new(alloc);
    for number in 0..count - 1 {
        let other = table.split(&mut pass);
        hire(alloc, &mut team, prepared, gate, other, number, seed)?;
    }
    hire(alloc, &mut team, prepared, gate, pass, count - 1, seed)?;
    Ok(team)
}

/// One more worker, with a fresh machine, for the team.
fn hire<'a, 'g, G>(
    alloc: Global,
    team: &mut Vec<GatedWorker<'g, TableWorker<'a>, G>>,
    prepared: &Arc<Prepared<'a>, Global>,
    gate: &'g G,
    pass: Pass,
    number: u32,
    seed: u64,
) -> Result<(), AllocError>
    ensures { IfOk result (λ _. IsHired (λ gated. gated.worker) (arc_value prepared.now) seed number pass
        team.old.items team.new.items) }
{
    let worker = worker(alloc, prepared, pass, number, seed)?;
    team.push(GatedWorker { worker, gate })?;
    Ok(())
}

/// A worker with a fresh machine.
fn worker<'a>(
    alloc: Global,
    prepared: &Arc<Prepared<'a>, Global>,
    pass: Pass,
    number: u32,
    seed: u64,
) -> Result<TableWorker<'a>, AllocError>
    ensures fresh { IfOk result (λ worker. IsFresh (arc_value prepared.now) (first_orders seed number) worker.machine) }
    ensures machine { IfOk result (λ worker. (other : AnyPass)
        → IsMachine table_meaning IsNotedIn worker.machine.machine other) }
    ensures bound { IfOk result (λ worker. (other : AnyPass)
        → HasStepsOfFresh table_meaning worker.machine.machine other) }
    ensures pass { IfOk result (λ worker. worker.pass ≡ pass) }
    ensures number { IfOk result (λ worker. worker.number ≡ number) }
    ensures seed { IfOk result (λ worker. worker.seed ≡ seed) }
{
    let machine = Machine::on(alloc, prepared, Orders::new(seed, number))?;
    Ok(Worker {
        machine,
        pass,
        number,
        seed,
    })
}

/// What workers leave: one pass that knows what each of them knew, and their machines with their wins, in order.
#[derive(Drop)]
pub(crate) struct Leavings<'a> {
    pub(crate) pass: Pass,
    pub(crate) machines: Vec<Machine<'a, Table>>,
    pub(crate) wins: Vec<u64>,
}

/// Joins all passes, and keeps the machines in order. The first of them has ended.
pub(crate) fn join_all<'a, G>(
    alloc: Global,
    table: &Table,
    seed: u64,
    count: u32,
    mut workers: Vec<GatedWorker<'_, TableWorker<'a>, G>>,
) -> Result<Leavings<'a>, AllocError>
    requires at_work { All (λ gated. IsAtWork table.now gated.worker) workers.items }
    requires first { HasFirstEnded (map (λ gated. gated.worker.machine) workers.items) }
    requires posts { map (λ gated. post_of gated.worker) workers.items ≡ posts_of (problem_of table.now) seed count }
    ensures joined { IfOk result (IsJoined table.now seed count) }
    ensures kept { IfOk result (λ left. left.machines.items ≡ map (λ gated. gated.worker.machine) workers.entry.items) }
{
    let Some(last) = workers.pop() else {
        unreachable!()
    };
    let mut left = left_by(alloc, last)?;
    while let Some(gated) = workers.pop() {
        take_in(table, &mut left, gated)?;
    }
    left.wins.reverse();
    left.machines.reverse();
    Ok(left)
}

/// What one worker leaves.
fn left_by<'a, G>(
    alloc: Global,
    gated: GatedWorker<'_, TableWorker<'a>, G>,
) -> Result<Leavings<'a>, AllocError>
    ensures pass { IfOk result (λ left. left.pass ≡ gated.entry.worker.pass) }
    ensures machines { IfOk result (λ left. left.machines.items ≡ gated.entry.worker.machine ∷ []) }
    ensures wins { IfOk result (λ left. left.wins.items ≡ wins_of gated.entry.worker.machine ∷ []) }
{
    let Worker {
        machine,
        pass,
        number: _,
        seed: _,
    } = gated.worker;
    let mut left = Leavings {
        pass,
        machines: Vec::new(alloc),
        wins: Vec::new(alloc),
    };
    keep(&mut left, machine)?;
    Ok(left)
}

/// One more worker is joined to those before.
fn take_in<'a, G>(
    table: &Table,
    left: &mut Leavings<'a>,
    gated: GatedWorker<'_, TableWorker<'a>, G>,
) -> Result<(), AllocError>
    requires into { IsPassOf table.now left.old.pass }
    requires other { IsPassOf table.now gated.worker.pass }
    ensures own { IsPassOf table.now left.new.pass }
    ensures view { view_of left.new.pass ≡ joined (view_of left.old.pass) (view_of gated.entry.worker.pass) }
    ensures marks { marks_of left.new.pass ≡ marks_of left.old.pass ++ marks_of gated.entry.worker.pass }
    ensures machines { IfOk result (λ _. left.new.machines.items
        ≡ left.old.machines.items ++ gated.entry.worker.machine ∷ []) }
    ensures wins { IfOk result (λ _. left.new.wins.items
        ≡ left.old.wins.items ++ wins_of gated.entry.worker.machine ∷ []) }
{
    let Worker {
        machine,
        pass,
        number: _,
        seed: _,
    } = gated.worker;
    table.join(&mut left.pass, pass);
    keep(left, machine)
}

/// One more machine is kept, and what it won. The memory of its notes is given back.
fn keep<'a>(left: &mut Leavings<'a>, mut machine: Machine<'a, Table>) -> Result<(), AllocError>
    ensures pass { left.new.pass ≡ left.old.pass }
    ensures machines { IfOk result (λ _. left.new.machines.items ≡ left.old.machines.items ++ machine.entry ∷ []) }
    ensures wins { IfOk result (λ _. left.new.wins.items ≡ left.old.wins.items ++ wins_of machine.entry ∷ []) }
{
    machine.forget_notes();
    let wins = machine.wins();
    left.machines.push(machine)?;
    left.wins.push(wins)?;
    Ok(())
}

/// Closes the table, from which the answers are read then.
pub(crate) fn finish<'a>(
    table: Table,
    problem: &'a Problem<'a>,
    seed: u64,
    left: Leavings<'a>,
) -> Finished<'a>
    requires same { problem_of table ≡ problem.now }
    requires joined { IsJoined table seed (plan_of table).seats left }
    ensures finished { IsFinished problem.now seed result }
    ensures machines { vec_len result.machines ≡ (plan_of table).seats }
    ensures kept { result.machines.items ≡ left.entry.machines.items }
{
    problem.admissible();
    demanded_cells_are_listed();
    let Leavings {
        pass,
        machines,
        wins,
    } = left;
    let closed = table.close(pass);
    let answer = axiom_answer(problem, &closed);
    Finished {
        closed,
        machines,
        wins,
        answer,
    }
}
