//! Those who are told of each step that a machine makes.

ghost use Rattle.std.specs.Prelude.{None};

use cell_core::Turn;

/// Who is told of each step of the machines, once it is made. The steps are made with passes of type `P`.
pub trait Watcher<P> {
    ghost use Rattle.std.specs.Prelude.{ℕ, List, Option};
    ghost use Rattle.evaluators.specs.Watching.{GrowsByStep};

    /// The numbers of the machines that made the steps that it was told of, in order, where it tells them.
    ghost told: { Self → Option (List ℕ) };

    /// Told that the machine of this number made a step with the pass, and what the step told.
    fn stepped(&mut self, number: u32, pass: &P, turn: Turn)
        ensures { GrowsByStep number (told self.old) (told self.new) };
}

/// One who keeps nothing of what it is told.
#[derive(Drop)]
pub struct Unwatched;

impl<P> Watcher<P> for Unwatched {
    ghost told = { λ _. None };

    fn stepped(&mut self, _number: u32, _pass: &P, _turn: Turn) {}
}
