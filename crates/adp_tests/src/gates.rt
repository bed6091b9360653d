//! Gates at which workers can meet: one that counts how often each of them passes, and one for those of two words.

use evaluators::{Gate, LogGate, NotedRun};
use std::alloc::{AllocError, Global};
use std::sync::atomic::{AtomicU64, Ordering};

/// How often a worker looks whether another one has come.
const LOOKS: u32 = 400_000_000;

/// A gate of two workers, at whose first passes, so many, each waits for some time until the other one has come, too.
/// It keeps a note of each run.
#[derive(Drop)]
pub(crate) struct CountingGate {
    notes: LogGate,
    meetings: u64,
    first: AtomicU64,
    second: AtomicU64,
    missed: AtomicU64,
}

impl CountingGate {
    /// A gate that no worker has passed.
    pub(crate) fn new(alloc: Global, meetings: u64) -> CountingGate {
        CountingGate {
            notes: LogGate::new(alloc),
            meetings,
            first: AtomicU64::new(0),
            second: AtomicU64::new(0),
            missed: AtomicU64::new(0),
        }
    }

    /// The notes of runs, in order.
    pub(crate) fn notes(&self) -> &[NotedRun] {
        self.notes.notes()
    }

    /// How often the first worker passed, and how often the others did.
    pub(crate) fn passes(&self) -> [u64; 2] {
        [
            self.first.load(Ordering::SeqCst),
            self.second.load(Ordering::SeqCst),
        ]
    }

    /// Whether each worker came as often as they were to meet, and none waited in vain.
    pub(crate) fn have_met(&self) -> bool {
        let [first, second] = self.passes();
        self.meetings <= first && self.meetings <= second && !self.has_missed()
    }

    fn has_missed(&self) -> bool {
        self.missed.load(Ordering::SeqCst) > 0
    }

    /// One comes, and waits for the other, unless one has waited in vain before.
    fn come(&self, own: &AtomicU64, other: &AtomicU64) {
        let passes = own.fetch_add(1, Ordering::SeqCst).saturating_add(1);
        if passes > self.meetings || self.has_missed() {
            return;
        }
        for _look in 0..LOOKS {
            if other.load(Ordering::SeqCst) >= passes {
                return;
            }
        }
        self.missed.fetch_add(1, Ordering::SeqCst);
    }
}

impl Gate for CountingGate {
    ghost use Rattle.std.specs.Prelude.{Some};

    ghost runs = { λ gate. Some gate.notes };

    fn pass(&self, worker: u32) {
        match worker {
            0 => self.come(&self.first, &self.second),
            _ => self.come(&self.second, &self.first),
        }
    }

    fn finished(&mut self, note: NotedRun) -> Result<(), AllocError> {
        self.notes.finished(note)
    }
}

/// A gate at which two words are seen that are worked at side by side: at the first passes of their first workers, so
/// many, each waits for some time until one more comes. Those of one word come one after the other. It keeps a note of
/// each run.
#[derive(Drop)]
pub(crate) struct WordsGate {
    notes: LogGate,
    awaited: u64,
    passes: AtomicU64,
    missed: AtomicU64,
}

impl WordsGate {
    /// A gate that no worker has passed, at which two are to meet so often.
    pub(crate) fn new(alloc: Global, meetings: u64) -> WordsGate {
        WordsGate {
            notes: LogGate::new(alloc),
            awaited: meetings.saturating_mul(2),
            passes: AtomicU64::new(0),
            missed: AtomicU64::new(0),
        }
    }

    /// The notes of runs, in order.
    pub(crate) fn notes(&self) -> &[NotedRun] {
        self.notes.notes()
    }

    /// Whether as many came as were awaited, and none waited in vain.
    pub(crate) fn have_met(&self) -> bool {
        self.awaited <= self.passes.load(Ordering::SeqCst) && !self.has_missed()
    }

    fn has_missed(&self) -> bool {
        self.missed.load(Ordering::SeqCst) > 0
    }

    /// One comes, and waits for one more where none waits for it, unless one has waited in vain before.
    fn come(&self) {
        let passes = self.passes.fetch_add(1, Ordering::SeqCst).saturating_add(1);
        if passes > self.awaited || passes % 2 == 0 || self.has_missed() {
            return;
        }
        for _look in 0..LOOKS {
            if self.passes.load(Ordering::SeqCst) > passes {
                return;
            }
        }
        self.missed.fetch_add(1, Ordering::SeqCst);
    }
}

impl Gate for WordsGate {
    ghost use Rattle.std.specs.Prelude.{Some};

    ghost runs = { λ gate. Some gate.notes };

    fn pass(&self, worker: u32) {
        if worker == 0 {
            self.come();
        }
    }

    fn finished(&mut self, note: NotedRun) -> Result<(), AllocError> {
        self.notes.finished(note)
    }
}
