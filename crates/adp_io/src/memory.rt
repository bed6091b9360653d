//! A source and a sink in memory, which fail at the calls that they are told to fail at.
ghost use Rattle.std.specs.Prelude.{◌≡◌, ◌+◌, ◌-◌, ◌<◌, ◌≤◌, ◌⊎◌, ◌↔◌, [], ◌++◌, length, take, drop, min, max, Some, IfOk, OnErr, IsErr, Contains, vec_len, vec_capacity};
ghost use Rattle.adp_io.specs.Causes.{IsFailedWrite, RisesWhere, next_count};
ghost use Rattle.adp_io.specs.Memory.{SourceState, SinkState};

use crate::stream::{Failed, Sink, Source};
use std::alloc::{AllocError, Global};
use std::marker::Model;

/// A source of bytes in memory. It tells the bytes that are left.
#[derive(Drop)]
pub struct MemSource {
    bytes: Vec<u8>,
    at: usize,
    piece: usize,
    fails: Vec<u64>,
    calls: u64,
    faults: u64,
    asked: usize,
}

impl Model for MemSource {
    ghost Value = { SourceState };

    ghost view = { λ s. record {
      left = drop s.at s.bytes.items;
      piece = s.piece;
      fails = s.fails.items;
      calls = s.calls;
      faults = s.faults;
      asked = s.asked;
    } };

    ghost invariant = { λ s. (s.at ≤ vec_len s.bytes) × (0 < s.piece) };
}

impl MemSource {
    /// A source of these bytes that gives at most `piece` of them in a read. The calls whose numbers, counted
    /// from 0, are in `fails` answer `Failed`.
    pub fn new(bytes: Vec<u8>, piece: usize, fails: Vec<u64>) -> MemSource
        requires { 0 < piece }
        ensures { result ≡ record {
          left = bytes.items;
          piece = piece;
          fails = fails.items;
          calls = 0;
          faults = 0;
          asked = 0;
        } }
    {
        MemSource {
            bytes,
            at: 0,
            piece,
            fails,
            calls: 0,
            faults: 0,
            asked: 0,
        }
    }
}

impl Source for MemSource {
    ghost left = { λ s. Some s.left };

    ghost faults = { λ s. s.faults };

    ghost asked = { λ s. Some s.asked };

    ghost calls = { λ s. Some s.calls };

    fn read(&mut self, into: &mut [u8]) -> Result<usize, Failed>
        ensures fails { IsErr result ↔ Contains self.old.fails self.old.calls }
        ensures count { IfOk result (λ count.
            count ≡ min self.old.piece (min (length into.new) (length self.old.left))) }
        ensures taken { IfOk result (λ count. self.old.left ≡ take count into.new ++ self.new.left) }
        ensures end { IfOk result (λ count. count ≡ 0 → 0 < length into.new → self.new.left ≡ []) }
        ensures kept { OnErr result (self.new.left ≡ self.old.left) }
        ensures calls { self.new.calls ≡ next_count self.old.calls }
        ensures faults { RisesWhere self.old.faults self.new.faults (IsErr result) }
        ensures asked { self.new.asked ≡ max self.old.asked (length into.new) }
        ensures same { (self.new.piece ≡ self.old.piece) × (self.new.fails ≡ self.old.fails) }
    {
        let call = self.calls;
        self.calls = call.saturating_add(1);
        self.asked = self.asked.max(into.len());
        if self.fails.contains(&call) {
            self.faults = self.faults.saturating_add(1);
            return Err(Failed);
        }
        let rest = &self.bytes[self.at..];
        let count = self.piece.min(into.len()).min(rest.len());
        into[..count].copy_from_slice(&rest[..count]);
        self.at += count;
        Ok(count)
    }
}

/// A sink in memory with room for a fixed number of bytes. It tells the bytes that it holds.
#[derive(Drop)]
pub struct MemSink {
    bytes: Vec<u8>,
    room: usize,
    piece: usize,
    fails: Vec<u64>,
    calls: u64,
    faults: u64,
}

impl Model for MemSink {
    ghost Value = { SinkState };

    ghost view = { λ s. record {
      held = s.bytes.items;
      room = s.room;
      piece = s.piece;
      fails = s.fails.items;
      calls = s.calls;
      faults = s.faults;
    } };

    ghost invariant = { λ s. (vec_len s.bytes ≤ s.room) × (s.room ≤ vec_capacity s.bytes) × (0 < s.piece) };
}

impl MemSink {
    /// An empty sink that takes at most `piece` bytes in a write and holds at most `room`. The calls whose
    /// numbers, counted from 0, are in `fails` answer `Failed`, and so does a write of a nonempty piece once
    /// `room` bytes are held.
    pub fn new(
        alloc: Global,
        room: usize,
        piece: usize,
        fails: Vec<u64>,
    ) -> Result<MemSink, AllocError>
        requires { 0 < piece }
        ensures { IfOk result (λ sink. sink ≡ record {
          held = [];
          room = room;
          piece = piece;
          fails = fails.items;
          calls = 0;
          faults = 0;
        }) }
    {
        Ok(MemSink {
            bytes: Vec::with_capacity(alloc, room)?,
            room,
            piece,
            fails,
            calls: 0,
            faults: 0,
        })
    }

    /// The bytes that it holds.
    pub fn bytes(&self) -> &[u8]
        ensures { result.now ≡ self.now.held }
    {
        &self.bytes
    }
}

impl Sink for MemSink {
    ghost held = { λ s. Some s.held };

    ghost faults = { λ s. s.faults };

    ghost calls = { λ s. Some s.calls };

    fn write(&mut self, piece: &[u8]) -> Result<usize, Failed>
        ensures fails { IsErr result
            ↔ (Contains self.old.fails self.old.calls
            ⊎ ((0 < length piece.now) × (self.old.room ≤ length self.old.held))) }
        ensures count { IfOk result (λ count.
            count ≡ min self.old.piece (min (length piece.now) (self.old.room - length self.old.held))) }
        ensures taken { IfOk result (λ count. self.new.held ≡ self.old.held ++ take count piece.now) }
        ensures stuck { IfOk result (λ count. count ≡ 0 → length piece.now ≡ 0) }
        ensures kept { OnErr result (self.new.held ≡ self.old.held) }
        ensures calls { self.new.calls ≡ next_count self.old.calls }
        ensures faults { RisesWhere self.old.faults self.new.faults (IsFailedWrite result piece.now) }
        ensures same { (self.new.room ≡ self.old.room)
            × (self.new.piece ≡ self.old.piece) × (self.new.fails ≡ self.old.fails) }
    {
        let call = self.calls;
        self.calls = call.saturating_add(1);
        let left = self.room - self.bytes.len();
        if self.fails.contains(&call) || (left == 0 && !piece.is_empty()) {
            self.faults = self.faults.saturating_add(1);
            return Err(Failed);
        }
        let count = self.piece.min(piece.len()).min(left);
        let Ok(()) = self.bytes.extend_from_slice(&piece[..count]) else {
            unreachable!()
        };
        Ok(count)
    }
}
