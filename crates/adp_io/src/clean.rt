//! A source and a sink that never fail.
ghost use Rattle.std.specs.Prelude.{◌≡◌, ◌+◌, ◌-◌, ◌^◌, ◌<◌, ◌≤◌, [], ◌++◌, List, ℕ, length, take, drop, min, None, Some, IsOk, IfOk, vec_len};

use crate::stream::{Failed, Sink, Source};
use std::marker::Model;

/// A source of bytes in memory that never fails. It tells the bytes that are left.
#[derive(Drop)]
pub struct CleanSource {
    bytes: Vec<u8>,
    at: usize,
}

impl Model for CleanSource {
    ghost Value = { List ℕ };

    ghost view = { λ s. drop s.at s.bytes.items };

    ghost invariant = { λ s. s.at ≤ vec_len s.bytes };
}

impl CleanSource {
    /// A source of these bytes.
    pub fn new(bytes: Vec<u8>) -> CleanSource
        ensures { result ≡ bytes.items }
    {
        CleanSource { bytes, at: 0 }
    }
}

impl Source for CleanSource {
    ghost left = { λ s. Some s };

    ghost faults = { λ _. 0 };

    fn read(&mut self, into: &mut [u8]) -> Result<usize, Failed>
        ensures ok { IsOk result }
        ensures count { IfOk result (λ count. count ≡ min (length into.new) (length self.old)) }
        ensures taken { IfOk result (λ count. self.old ≡ take count into.new ++ self.new) }
        ensures end { IfOk result (λ count. count ≡ 0 → 0 < length into.new → self.new ≡ []) }
    {
        let rest = &self.bytes[self.at..];
        let count = into.len().min(rest.len());
        into[..count].copy_from_slice(&rest[..count]);
        self.at += count;
        Ok(count)
    }
}

/// A sink that never fails and keeps no byte: only how many it took, which stands still at 2^64 - 1.
#[derive(Drop)]
pub struct CleanSink {
    taken: u64,
}

impl Model for CleanSink {
    ghost Value = { ℕ };

    ghost view = { λ s. s.taken };
}

impl CleanSink {
    /// A sink that has taken nothing.
    pub fn new() -> CleanSink
        ensures { result ≡ 0 }
    {
        CleanSink { taken: 0 }
    }

    /// How many bytes it took.
    pub fn taken(&self) -> u64
        ensures { result ≡ self.now }
    {
        self.taken
    }
}

impl Sink for CleanSink {
    ghost held = { λ _. None };

    ghost faults = { λ _. 0 };

    fn write(&mut self, piece: &[u8]) -> Result<usize, Failed>
        ensures whole { IfOk result (λ count. count ≡ length piece.now) }
        ensures ok { IsOk result }
        ensures taken { self.new ≡ min (self.old + length piece.now) (2 ^ 64 - 1) }
    {
        self.taken = self.taken.saturating_add(piece.len() as u64);
        Ok(piece.len())
    }
}
