//! Workers that run side by side: their list is halved, and the halves run by one call, down to one worker.

ghost use Rattle.std.specs.Prelude.{◌≡◌, All, map};
ghost use Rattle.std.specs.Thread.{IsSync};

use memo_table::Table;
use std::thread::{Threads, join_mut};

/// What can be run in a thread of its own. The halving is proved over this bound, which names no lifetime.
pub(crate) trait Evaluator: Send {
    ghost use Rattle.std.specs.Prelude.{◌≡◌};
    ghost use Rattle.memo_words.specs.declared.words.Words.{Words};
    ghost use Rattle.evaluators.specs.Posts.{Post};

    ghost is_ready: { Words → Self → Type 0 };

    ghost is_done: { Words → Self → Type 0 };

    /// What of it stays as it is.
    ghost post: { Self → Post };

    fn run(&mut self, table: &Table)
        requires { is_ready table.now self.old }
        ensures done { is_done table.now self.new }
        ensures post { post self.new ≡ post self.old };
}

/// Runs all, in as many threads as there may be.
pub(crate) fn run_all<W: Evaluator, R: Threads + Sync>(rt: &R, table: &Table, workers: &mut [W])
    requires ready { All (W.is_ready table.now) workers.old }
    ensures done { All (W.is_done table.now) workers.new }
    ensures posts { map W.post workers.new ≡ map W.post workers.old }
{
    if workers.len() < 2 {
        if workers.len() == 1 {
            workers[0].run(table);
        }
        return;
    }
    let (front, back) = workers.split_at_mut(workers.len() / 2);
    join_mut(
        rt,
        &mut ||
            requires sync { IsSync R.row }
            requires ready { All (W.is_ready table.now) front.now }
            ensures done { All (W.is_done table.entry.now) front.exit.now }
            ensures posts { map W.post front.exit.now ≡ map W.post front.entry.now }
        { run_all(rt, table, front) },
        &mut ||
            requires sync { IsSync R.row }
            requires ready { All (W.is_ready table.now) back.now }
            ensures done { All (W.is_done table.entry.now) back.exit.now }
            ensures posts { map W.post back.exit.now ≡ map W.post back.entry.now }
        { run_all(rt, table, back) },
    );
}
