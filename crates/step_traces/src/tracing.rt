ghost use Rattle.std.specs.Prelude.{◌≡◌, ◌≤◌, IfOk, Some, map, vec_len};
ghost use Rattle.evaluators.specs.Runs.{IsFinished};
ghost use Rattle.evaluators.specs.Schedules.{HasKeptSchedule};
ghost use Rattle.evaluators.specs.Watching.{HaveToldMoves};
ghost use Rattle.step_traces.specs.Traces.{machine_of};

use crate::trace::{Trace, TracedStep};
use adp_model::Problem;
use evaluators::{Finished, watch_schedule};
use std::alloc::{AllocError, Global};

/// All steps of machines, in order, and what the machines left.
#[derive(Drop)]
pub struct Traced<'a> {
    pub steps: Vec<TracedStep>,
    pub finished: Finished<'a>,
}

/// Solves the problem by so many machines, 1 to 32, that are stepped in the order of the schedule, the first of which
/// is run to its end then, and keeps each step. Each machine made as many of the steps as it moved.
///
/// # Errors
///
/// Where there is no memory.
pub fn trace_schedule<'a>(
    alloc: Global,
    problem: &'a Problem<'a>,
    machines: u32,
    seed: u64,
    schedule: &[u8],
) -> Result<Traced<'a>, AllocError>
    requires { (1 ≤ machines) × (machines ≤ 32) }
    ensures finished { IfOk result (λ traced. IsFinished problem.now seed traced.finished) }
    ensures machines { IfOk result (λ traced. vec_len traced.finished.machines ≡ machines) }
    ensures schedule { IfOk result (λ traced. HasKeptSchedule schedule.now traced.finished) }
    ensures told { IfOk result (λ traced. HaveToldMoves (Some (map machine_of traced.steps.items))
        traced.finished.machines.items) }
{
    let mut trace = Trace::new(alloc);
    let finished = watch_schedule(alloc, problem, machines, seed, schedule, &mut trace)?;
    let steps = trace.into_steps()?;
    Ok(Traced { steps, finished })
}
