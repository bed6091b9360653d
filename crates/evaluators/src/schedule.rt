//! Machines that are stepped in the order of a schedule, on one thread.

ghost use Rattle.std.specs.Prelude.{◌≡◌, ◌+◌, ◌-◌, ◌<◌, ◌≤◌, ◌^◌, ℕ, [], IfOk, IfSome, All, map, take, length, vec_len};
ghost use Rattle.evaluators.specs.Working.{IsReady, IsAtWork, post_of};
ghost use Rattle.evaluators.specs.Runs.{IsFinished, moves_of};
ghost use Rattle.evaluators.specs.Schedules.{HasKeptSchedule};
ghost use Rattle.evaluators.specs.Playing.{HasKeptEntries, HaveKeptSchedule, AllFrom, IsPlayed};
ghost use Rattle.evaluators.specs.Watching.{HasToldMoves, HaveToldMoves, IsToldOn};

use crate::crew::{finish, join_all, team};
use crate::finished::Finished;
use crate::gate::OpenGate;
use crate::gated::{GatedWorker, Way};
use crate::watcher::{Unwatched, Watcher};
use crate::worker::{TableWorker, work};
use adp_model::Problem;
use cell_core::Prepared;
use memo_model::Steps;
use memo_table::{Pass, Table};
use random_orders::draws_advance_the_generator;
use std::alloc::{AllocError, Global};
use std::marker::Brand;
use std::sync::Arc;
use std::sync::ledger::{Blank, Ledger};

/// Solves the problem by so many machines, 1 to 32, on one thread. Each entry of the schedule that is the number of a
/// machine steps this machine once, if it has not ended; then the first machine is run to its end, and the others stay
/// where they are. While the schedule lasts, each rule argument costs a machine its own look.
///
/// # Errors
///
/// Where there is no memory.
pub fn run_schedule<'a>(
    alloc: Global,
    problem: &'a Problem<'a>,
    machines: u32,
    seed: u64,
    schedule: &[u8],
) -> Result<Finished<'a>, AllocError>
    requires { (1 ≤ machines) × (machines ≤ 32) }
    ensures finished { IfOk result (IsFinished problem.now seed) }
    ensures machines { IfOk result (λ finished. vec_len finished.machines ≡ machines) }
    ensures schedule { IfOk result (HasKeptSchedule schedule.now) }
{
    let mut unwatched = Unwatched;
    watch_schedule(alloc, problem, machines, seed, schedule, &mut unwatched)
}

/// The same, with a watcher that is told of each step once it is made. It was told of none before.
///
/// # Errors
///
/// Where there is no memory.
pub fn watch_schedule<'a, W: Watcher<Pass>>(
    alloc: Global,
    problem: &'a Problem<'a>,
    machines: u32,
    seed: u64,
    schedule: &[u8],
    watcher: &mut W,
) -> Result<Finished<'a>, AllocError>
    requires number { (1 ≤ machines) × (machines ≤ 32) }
    requires untold { IfSome (W.told watcher.old) (λ told. told ≡ []) }
    ensures finished { IfOk result (IsFinished problem.now seed) }
    ensures machines { IfOk result (λ finished. vec_len finished.machines ≡ machines) }
    ensures schedule { IfOk result (HasKeptSchedule schedule.now) }
    ensures told { IfOk result (λ finished. HaveToldMoves (W.told watcher.new) finished.machines.items) }
{
    let prepared = Arc::new(alloc, Prepared::new(alloc, problem)?)?;
    let (table, pass) = Table::new(alloc, problem, machines)?;
    let gate = OpenGate;
    let mut crew = team(alloc, &table, &prepared, &gate, pass, machines, seed)?;
    play(&table, crew.as_mut_slice(), schedule, watcher);
    let left = join_all(alloc, &table, seed, machines, crew)?;
    Ok(finish(table, problem, seed, left))
}

type Player<'a, 'g> = GatedWorker<'g, TableWorker<'a>, OpenGate>;

/// Plays the schedule, and then runs the first worker to its end.
fn play<W: Watcher<Pass>>(
    table: &Table,
    workers: &mut [Player<'_, '_>],
    schedule: &[u8],
    watcher: &mut W,
)
    requires ready { All (λ gated. IsReady table.now gated.worker) workers.old }
    requires unmoved { All (λ gated. HasKeptEntries 0 gated.worker.machine) workers.old }
    requires some { 1 ≤ length workers.old }
    requires untold { IfSome (W.told watcher.old) (λ told. told ≡ []) }
    ensures at_work { All (λ gated. IsAtWork table.now gated.worker) workers.new }
    ensures posts { map (λ gated. post_of gated.worker) workers.new
        ≡ map (λ gated. post_of gated.worker) workers.old }
    ensures scheduled { HaveKeptSchedule schedule.now (map (λ gated. gated.worker.machine) workers.new) }
    ensures told { AllFrom (λ number gated. HasToldMoves (W.told watcher.new) number (moves_of gated.worker.machine)) 0
        workers.new }
{
    play_counted::<Brand, W>(table, Blank::new(1), workers, schedule, watcher);
    let first = &mut workers[0];
    first.worker.machine.set_skips(true);
    let way = Way { gate: first.gate };
    work(table, &way, watcher, 0, &mut first.worker);
}

/// Plays the schedule, with a counter of steps that is opened for it.
fn play_counted<L: Ledger, W: Watcher<Pass>>(
    table: &Table,
    blank: Blank,
    workers: &mut [Player<'_, '_>],
    schedule: &[u8],
    watcher: &mut W,
)
    requires name { blank.name ≡ L.name }
    requires parts { (blank.parts ≡ L.parts) × (0 < blank.parts) }
    requires played { AllFrom (λ number gated. IsPlayed table.now [] number gated.worker) 0 workers.old }
    requires told { AllFrom (λ number gated. HasToldMoves (W.told watcher.old) number (moves_of gated.worker.machine)) 0
        workers.old }
    ensures played { AllFrom (λ number gated. IsPlayed table.now schedule.now number gated.worker) 0 workers.new }
    ensures posts { map (λ gated. post_of gated.worker) workers.new
        ≡ map (λ gated. post_of gated.worker) workers.old }
    ensures told { AllFrom (λ number gated. HasToldMoves (W.told watcher.new) number (moves_of gated.worker.machine)) 0
        workers.new }
{
    let mut steps = Steps::<L>::open(blank);
    for at in 0..schedule.len() {
        play_entry(table, workers, schedule, at, watcher, &mut steps);
    }
}

/// Plays the entry at this place of the schedule.
fn play_entry<L: Ledger, W: Watcher<Pass>>(
    table: &Table,
    workers: &mut [Player<'_, '_>],
    schedule: &[u8],
    at: usize,
    watcher: &mut W,
    steps: &mut Steps<L>,
)
    requires inside { at < length schedule.now }
    requires long { length schedule.now < 2 ^ 64 }
    requires played { AllFrom (λ number gated. IsPlayed table.now (take at schedule.now) number gated.worker) 0
        workers.old }
    requires told { AllFrom (λ number gated. HasToldMoves (W.told watcher.old) number (moves_of gated.worker.machine)) 0
        workers.old }
    ensures played { AllFrom (λ number gated. IsPlayed table.now (take (at + 1) schedule.now) number gated.worker) 0
        workers.new }
    ensures posts { map (λ gated. post_of gated.worker) workers.new
        ≡ map (λ gated. post_of gated.worker) workers.old }
    ensures told { AllFrom (λ number gated. HasToldMoves (W.told watcher.new) number (moves_of gated.worker.machine)) 0
        workers.new }
{
    let entry = schedule[at];
    let number = usize::from(entry);
    if number >= workers.len() {
        return;
    }
    let worker = &mut workers[number].worker;
    step_once(table, worker, u32::from(entry), watcher, steps);
}

/// Makes one step of the worker's machine, unless this has ended. The watcher knows the worker by this number.
fn step_once<L: Ledger, W: Watcher<Pass>>(
    table: &Table,
    worker: &mut TableWorker<'_>,
    number: u32,
    watcher: &mut W,
    steps: &mut Steps<L>,
)
    requires ready { IsReady table.now worker.old }
    ensures ready { IsReady table.now worker.new }
    ensures post { post_of worker.new ≡ post_of worker.old }
    ensures kept { (entries : ℕ) → entries < 2 ^ 64 - 1 → HasKeptEntries entries worker.old.machine
        → HasKeptEntries (entries + 1) worker.new.machine }
    ensures told { IsToldOn number (W.told watcher.old) (W.told watcher.new) (moves_of worker.old.machine)
        (moves_of worker.new.machine) }
{
    draws_advance_the_generator();
    if worker.machine.ended() {
        return;
    }
    worker.machine.set_skips(false);
    let turn = worker.machine.step(table, &mut worker.pass, steps);
    watcher.stepped(number, &worker.pass, turn);
}
