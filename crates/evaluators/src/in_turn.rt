//! Workers that run one after the other, on the thread that calls.

ghost use Rattle.std.specs.Prelude.{◌≡◌, ◌≤◌, [], IfOk, All, map};
ghost use Rattle.std.specs.Arc.{arc_value};
ghost use Rattle.adp_model.specs.ProblemFields.{IsAdmissible};
ghost use Rattle.memo_words.specs.Passes.{IsPassOf, view_of, marks_of, problem_of, plan_of};
ghost use Rattle.memo_words.specs.Views.{first_view};
ghost use Rattle.memo_model.specs.Machines.{IsMachine};
ghost use Rattle.cell_core.specs.MachineViews.{IsFresh, IsNotedIn};
ghost use Rattle.memo_table.specs.Meanings.{table_meaning};
ghost use Rattle.memo_words.specs.declared.pass.Pass.{Pass as AnyPass};
ghost use Rattle.evaluators.specs.Driving.{HasStepsOfFresh};
ghost use Rattle.evaluators.specs.Ends.{IsRunToEnd};
ghost use Rattle.evaluators.specs.Posts.{posts_of};
ghost use Rattle.evaluators.specs.Turns.{HasServed};
ghost use Rattle.evaluators.specs.Working.{IsDone, first_orders, post_of};

use crate::crew::{finish, join_all, shared_by_all};
use crate::driving::Door;
use crate::finished::Finished;
use crate::gated::GatedWorker;
use crate::watcher::Unwatched;
use crate::worker::{TableWorker, Worker, work};
use cell_core::{Machine, Prepared};
use memo_table::{Pass, Table};
use random_orders::Orders;
use std::alloc::{AllocError, Global};
use std::sync::Arc;

/// Solves the prepared problem as `run_prepared` does, on one thread: each of so many evaluators, 1 to 32, runs to its
/// end before the next begins. The door is passed before each load of a record word.
///
/// # Errors
///
/// Where there is no memory.
pub fn run_in_turn<'a, D: Door>(
    alloc: Global,
    prepared: Prepared<'a>,
    workers: u32,
    seed: u64,
    door: &D,
) -> Result<Finished<'a>, AllocError>
    requires { (1 ≤ workers) × (workers ≤ 32) }
    ensures { IfOk result (IsRunToEnd workers seed prepared.entry) }
{
    let problem = prepared.problem();
    let (table, pass) = Table::new(alloc, problem, workers)?;
    let shared = shared_by_all(alloc, prepared)?;
    let turns = Turns {
        alloc,
        table: &table,
        prepared: &shared,
        door,
        seed,
    };
    let crew = turns.crew(pass, workers)?;
    let left = join_all(alloc, &table, seed, workers, crew)?;
    Ok(finish(table, problem, seed, left))
}

type Visitor<'a, 'd, D> = GatedWorker<'d, TableWorker<'a>, D>;

/// What workers have in common that run one after the other.
#[derive(Drop)]
struct Turns<'r, 'a, 'd, D> {
    alloc: Global,
    table: &'r Table,
    prepared: &'r Arc<Prepared<'a>, Global>,
    door: &'d D,
    seed: u64,
}

impl<'r, 'a, 'd, D: Door> Turns<'r, 'a, 'd, D> {
    /// So many workers, each of which has run to its end before the next one is made, which takes the memory of its notes.
    fn crew(&self, mut pass: Pass, count: u32) -> Result<Vec<Visitor<'a, 'd, D>>, AllocError>
        requires same { problem_of self.now.table.now ≡ arc_value self.now.prepared.now }
        requires admissible { IsAdmissible (arc_value self.now.prepared.now) }
        requires own { IsPassOf self.now.table.now pass }
        requires first { view_of pass ≡ first_view (plan_of self.now.table.now) }
        requires unmarked { marks_of pass ≡ [] }
        requires seats { (plan_of self.now.table.now).seats ≡ count }
        requires some { 1 ≤ count }
        ensures done { IfOk result (λ crew. All (λ gated. IsDone self.now.table.now gated.worker) crew.items) }
        ensures posts { IfOk result (λ crew. map (λ gated. post_of gated.worker) crew.items
            ≡ posts_of (arc_value self.now.prepared.now) self.now.seed count) }
    {
        let mut crew = Vec::new(self.alloc);
        for number in 0..count - 1 {
            let other = self.table.split(&mut pass);
            self.serve(&mut crew, other, number)?;
        }
        self.serve(&mut crew, pass, count - 1)?;
        Ok(crew)
    }

    /// One more worker, which has run to its end.
    fn serve(
        &self,
        crew: &mut Vec<Visitor<'a, 'd, D>>,
        pass: Pass,
        number: u32,
    ) -> Result<(), AllocError>
        requires same { problem_of self.now.table.now ≡ arc_value self.now.prepared.now }
        requires admissible { IsAdmissible (arc_value self.now.prepared.now) }
        requires own { IsPassOf self.now.table.now pass }
        requires no_wins { (view_of pass).wins ≡ 0 }
        requires unmarked { marks_of pass ≡ [] }
        requires done { All (λ gated. IsDone self.now.table.now gated.worker) crew.old.items }
        ensures { IfOk result (λ _. HasServed (λ gated. gated.worker) self.now.table.now
            (arc_value self.now.prepared.now) self.now.seed number pass crew.old.items crew.new.items) }
    {
        let machine = self.machine(crew, number)?;
        let mut worker = Worker {
            machine,
            pass,
            number,
            seed: self.seed,
        };
        work(self.table, self.door, &mut Unwatched, number, &mut worker);
        crew.push(GatedWorker {
            worker,
            gate: self.door,
        })?;
        Ok(())
    }

    /// A fresh machine, in the memory of the notes of the crew's last one, where there is one.
    fn machine(
        &self,
        crew: &mut Vec<Visitor<'a, 'd, D>>,
        number: u32,
    ) -> Result<Machine<'a, Table>, AllocError>
        requires same { problem_of self.now.table.now ≡ arc_value self.now.prepared.now }
        requires done { All (λ gated. IsDone self.now.table.now gated.worker) crew.old.items }
        ensures crew { crew.new.items ≡ crew.old.items }
        ensures fresh { IfOk result
            (IsFresh (arc_value self.now.prepared.now) (first_orders self.now.seed number)) }
        ensures machine { IfOk result (λ machine. (pass : AnyPass)
            → IsMachine table_meaning IsNotedIn machine.machine pass) }
        ensures bound { IfOk result (λ machine. (pass : AnyPass)
            → HasStepsOfFresh table_meaning machine.machine pass) }
    {
        let orders = Orders::new(self.seed, number);
        if crew.is_empty() {
            return Machine::on(self.alloc, self.prepared, orders);
        }
        let last = crew.len() - 1;
        let before = &mut crew[last].worker.machine;
        Machine::after(self.alloc, self.prepared, before, orders)
    }
}
