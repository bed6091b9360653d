//! Slots that are filled side by side: their list is cut for so many threads, and each thread fills its part in order.

ghost use Rattle.std.specs.Prelude.{◌≡◌, ◌+◌, ◌*◌, ◌/◌, ◌%◌, ◌<◌, ◌≤◌, min, All, map};
ghost use Rattle.std.specs.Thread.{IsSync};

use std::thread::{Threads, join_mut};

/// What can be filled in a thread of its own.
pub trait Fill: Send {
    ghost use Rattle.std.specs.Prelude.{◌≡◌};

    /// What of it stays as it is.
    ghost Asked: { Type 0 };

    ghost asked: { Self → Asked };

    /// What is asked of it before it is filled.
    ghost is_ready: { Self → Type 0 };

    /// What holds of it then.
    ghost is_filled: { Self → Type 0 };

    fn fill(&mut self)
        requires { is_ready self.old }
        ensures filled { is_filled self.new }
        ensures asked { asked self.new ≡ asked self.old };
}

/// These, all of them filled, in so many threads, each of which has as many to fill as the others, or one less. A thread
/// fills its own one after the other, and waits for another but to join it.
pub fn filled<S: Fill, R: Threads + Sync>(rt: &R, threads: usize, mut slots: Vec<S>) -> Vec<S>
    requires { All S.is_ready slots.items }
    ensures filled { All S.is_filled result.items }
    ensures asked { map S.asked result.items ≡ map S.asked slots.items }
{
    fill_all(rt, threads, slots.as_mut_slice());
    slots
}

/// Fills all, in so many threads.
fn fill_all<S: Fill, R: Threads + Sync>(rt: &R, threads: usize, slots: &mut [S])
    requires { All S.is_ready slots.old }
    ensures filled { All S.is_filled slots.new }
    ensures asked { map S.asked slots.new ≡ map S.asked slots.old }
{
    if threads < 2 {
        fill_each(slots);
        return;
    }
    let low = threads / 2;
    let high = threads - low;
    let cut = share(slots.len(), threads, low);
    let (front, back) = slots.split_at_mut(cut);
    join_mut(
        rt,
        &mut ||
            requires sync { IsSync R.row }
            requires ready { All S.is_ready front.now }
            ensures filled { All S.is_filled front.exit.now }
            ensures asked { map S.asked front.exit.now ≡ map S.asked front.entry.now }
        { fill_all(rt, low, front) },
        &mut ||
            requires sync { IsSync R.row }
            requires ready { All S.is_ready back.now }
            ensures filled { All S.is_filled back.exit.now }
            ensures asked { map S.asked back.exit.now ≡ map S.asked back.entry.now }
        { fill_all(rt, high, back) },
    );
}

/// How many of so many slots the first `low` of so many threads take, where each thread takes as many as one behind it, or
/// one more.
fn share(slots: usize, threads: usize, low: usize) -> usize
    requires some { 0 < threads }
    requires low { low ≤ threads }
    ensures inside { result ≤ slots }
    ensures even { result ≡ slots / threads * low + min (slots % threads) low }
{
    slots / threads * low + (slots % threads).min(low)
}

/// Fills all, one after the other.
fn fill_each<S: Fill>(slots: &mut [S])
    requires { All S.is_ready slots.old }
    ensures filled { All S.is_filled slots.new }
    ensures asked { map S.asked slots.new ≡ map S.asked slots.old }
{
    for place in 0..slots.len() {
        slots[place].fill();
    }
}
