//! A sink that counts in how many pieces it was given what it holds.

use adp_io::{Failed, MemSink, Sink};
use std::alloc::{AllocError, Global};

/// The most bytes that it holds.
const ROOM: usize = 65_536;

/// A sink in memory that takes each piece whole.
#[derive(Drop)]
pub(crate) struct PieceSink {
    sink: MemSink,
    pieces: u64,
}

impl PieceSink {
    /// A sink that was given nothing.
    pub(crate) fn new(alloc: Global) -> Result<PieceSink, AllocError> {
        let sink = MemSink::new(alloc, ROOM, ROOM, Vec::new(alloc))?;
        Ok(PieceSink { sink, pieces: 0 })
    }

    /// How often it was written to.
    pub(crate) fn pieces(&self) -> u64 {
        self.pieces
    }

    /// The bytes that it holds.
    pub(crate) fn bytes(&self) -> &[u8] {
        self.sink.bytes()
    }
}

impl Sink for PieceSink {
    ghost use Rattle.std.specs.Prelude.{Some};

    ghost held = { λ counted. Some counted.sink.held };

    ghost faults = { λ counted. counted.sink.faults };

    fn write(&mut self, piece: &[u8]) -> Result<usize, Failed> {
        self.pieces = self.pieces.saturating_add(1);
        self.sink.write(piece)
    }
}
