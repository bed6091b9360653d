//! Slots that threads fill side by side: as many at a time as there are threads.

use crate::lines::{numbers, push_field, push_flag, push_no_call};
use std::alloc::{AllocError, Global};
use std::sync::atomic::{AtomicU64, Ordering};
use std::thread::Threads;
use word_groups::{Fill, filled};

/// How often a slot looks whether the others of its round have come.
const LOOKS: u32 = 400_000_000;

/// Where the slots come that threads fill, in rounds: as many as there are threads, and the rest in the last one. Each
/// waits for some time until all of its round have come. Where a thread has two slots more than another, those of a
/// round don't meet: then one that is awaited comes behind one that waits.
#[derive(Drop)]
struct Rounds {
    threads: u64,
    slots: u64,
    come: AtomicU64,
    missed: AtomicU64,
}

impl Rounds {
    /// One comes, and waits for the others of its round, unless one has waited in vain before.
    fn come(&self) {
        let before = self.come.fetch_add(1, Ordering::SeqCst);
        let awaited = before
            .saturating_sub(before % self.threads.max(1))
            .saturating_add(self.threads);
        for _look in 0..LOOKS {
            if self.come.load(Ordering::SeqCst) >= awaited.min(self.slots) || self.has_missed() {
                return;
            }
        }
        self.missed.fetch_add(1, Ordering::SeqCst);
    }

    fn has_missed(&self) -> bool {
        self.missed.load(Ordering::SeqCst) > 0
    }
}

/// One of these slots.
#[derive(Drop)]
struct Slot<'r> {
    rounds: &'r Rounds,
}

impl<'r> Fill for Slot<'r> {
    ghost Asked = { Unit {0} };

    ghost asked = { λ _. tt };

    ghost is_ready = { λ _. Unit {0} };

    ghost is_filled = { λ _. Unit {0} };

    fn fill(&mut self) {
        self.rounds.come();
    }
}

/// Appends how many slots so many threads filled, and whether those of each round met.
pub(crate) fn push_shares<R: Threads + Sync>(
    rt: &R,
    alloc: Global,
    rest: &str,
    out: &mut Vec<u8>,
) -> Result<(), AllocError> {
    match numbers(alloc, rest)?.as_slice() {
        [slots, threads] => push_rounds(rt, alloc, *slots, *threads, out),
        _ => push_no_call(out),
    }
}

fn push_rounds<R: Threads + Sync>(
    rt: &R,
    alloc: Global,
    slots: u64,
    threads: u64,
    out: &mut Vec<u8>,
) -> Result<(), AllocError> {
    let rounds = Rounds {
        threads,
        slots,
        come: AtomicU64::new(0),
        missed: AtomicU64::new(0),
    };
    let mut each = Vec::new(alloc);
    for _slot in 0..slots {
        each.push(Slot { rounds: &rounds })?;
    }
    let filled = filled(rt, threads as usize, each);
    push_field(out, " filled ", filled.len() as u64)?;
    push_flag(out, ", met", !rounds.has_missed())
}
