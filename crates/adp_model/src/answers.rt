ghost use Rattle.std.specs.Prelude.{◌≡◌, IfSome, IsSome};
ghost use Rattle.adp_model.specs.PosedProblem.{PosedProblem, axiom_cell};
ghost use Rattle.adp_model.specs.Answers.{IsAnswer};
ghost use Rattle.adp_model.specs.Demand.{IsDemanded};

use crate::cell::{Answer, Cell};
use crate::laws::sizes::derived_lengths_are_within_sizes;
use crate::problem::Problem;

/// What knows the answers of a problem's demanded cells.
pub trait Answers {
    /// The problem whose answers it knows.
    ghost problem: { Self → PosedProblem };

    /// The answer of a cell: of every demanded cell, and perhaps of others. Takes no memory.
    fn answer(&self, cell: Cell) -> Option<Answer>
        ensures told { IfSome result (λ answer. IsAnswer (problem self.now) cell answer) }
        ensures demanded { IsDemanded (problem self.now) cell → IsSome result };
}

/// The answer of the axiom and the whole word: where this cell is not demanded it has no tree. Takes no memory.
pub fn axiom_answer<A: Answers>(problem: &Problem<'_>, answers: &A) -> Answer
    requires { A.problem answers.now ≡ problem.now }
    ensures { IsAnswer problem.now (axiom_cell problem.now) result }
{
    problem.admissible();
    derived_lengths_are_within_sizes();
    match answers.answer(problem.axiom_cell()) {
        Some(answer) => answer,
        None => Answer::NoCandidate,
    }
}
