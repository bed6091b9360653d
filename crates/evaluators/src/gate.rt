//! Those who are told of a run: before each load of a record word, and when it has ended.

ghost use Rattle.std.specs.Prelude.{◌≡◌, [], List};
ghost use Rattle.evaluators.specs.declared.finished.RunNote.{RunNote as Note};

use crate::finished::NotedRun;
use std::alloc::{AllocError, Global};
use std::marker::Model;

/// Who is asked before each load of a record word, and told of each run that has ended.
pub trait Gate: Sync {
    ghost use Rattle.std.specs.Prelude.{List, Option};
    ghost use Rattle.evaluators.specs.declared.finished.RunNote.{RunNote};
    ghost use Rattle.evaluators.specs.Runs.{GrowsByNote};

    /// The notes of the runs that it was told of, in order, where it tells them.
    ghost runs: { Self → Option (List RunNote) };

    /// Called before a worker loads a record word. Nothing is promised but that it returns.
    fn pass(&self, worker: u32);

    /// Told of a run once it has ended, by the note that is made of what it left.
    ///
    /// # Errors
    ///
    /// Where there is no memory for the note; its notes are then as before.
    fn finished(&mut self, note: NotedRun) -> Result<(), AllocError>
        ensures noted { GrowsByNote note result (runs self.old) (runs self.new) };
}

/// A gate that is always open and keeps nothing.
#[derive(Clone, Copy, Debug, Drop)]
pub struct OpenGate;

impl Gate for OpenGate {
    ghost use Rattle.std.specs.Prelude.{None, IsOk};

    ghost runs = { λ _. None };

    fn pass(&self, _worker: u32) {}

    fn finished(&mut self, _note: NotedRun) -> Result<(), AllocError>
        ensures { IsOk result }
    {
        Ok(())
    }
}

/// A gate that is always open and keeps a note of each run. Contracts see the list of its notes.
#[derive(Drop)]
pub struct LogGate {
    notes: Vec<NotedRun>,
}

impl Model for LogGate {
    ghost Value = { List Note };

    ghost view = { λ gate. gate.notes.items };
}

impl LogGate {
    /// A gate without notes, which takes memory for them from this allocator later. Takes none now.
    pub fn new(alloc: Global) -> LogGate
        ensures { result ≡ [] }
    {
        LogGate {
            notes: Vec::new(alloc),
        }
    }

    /// The notes, in order. Takes no memory.
    pub fn notes(&self) -> &[NotedRun]
        ensures { result.now ≡ self.now }
    {
        &self.notes
    }
}

impl Gate for LogGate {
    ghost use Rattle.std.specs.Prelude.{Some};

    ghost runs = { λ notes. Some notes };

    fn pass(&self, _worker: u32) {}

    fn finished(&mut self, note: NotedRun) -> Result<(), AllocError> {
        self.notes.push(note)?;
        Ok(())
    }
}
