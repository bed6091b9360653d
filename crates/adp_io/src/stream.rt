//! Where bytes come from and where they go, as a call above sees it.
ghost use Rattle.std.specs.Prelude.{◌≡◌, ◌<◌, List, ℕ, Option, None, length, take, IfOk, OnErr, IsErr};
ghost use Rattle.std.specs.Io.{ReadsAtMost, WritesAtMost};
ghost use Rattle.std.specs.Io.KnownBytes.{Appends, Consumes, IsAtEnd, Keeps};
ghost use Rattle.adp_io.specs.Causes.{IsFailedWrite, RisesWhere};
ghost use Rattle.adp_io.specs.Streams.{AsksFor, CountsCall, SameTold};

/// A read or a write failed.
#[derive(Clone, Copy, Debug, PartialEq, Eq)]
pub struct Failed;

/// What bytes are read from.
pub trait Source {
    /// The bytes still to come, where the source tells them.
    ghost left: { Self → Option (List ℕ) };

    /// How often a read has failed, up to 2^64 - 1.
    ghost faults: { Self → ℕ };

    /// The most bytes that it was asked for in one read, where the source tells it.
    ghost asked: { Self → Option ℕ } = { λ _. None };

    /// How often it was read, up to 2^64 - 1, where the source tells it.
    ghost calls: { Self → Option ℕ } = { λ _. None };

    /// Reads some bytes into the front of `into` and answers how many. `Ok(0)` on a nonempty slice is the
    /// end of the input. What stands in `into` behind the bytes that were read is left open.
    fn read(&mut self, into: &mut [u8]) -> Result<usize, Failed>
        ensures bound { ReadsAtMost result into.new }
        ensures told { SameTold (left self.old) (left self.new) }
        ensures taken { IfOk result (λ count.
            Consumes (left self.old) (left self.new) (take count into.new)) }
        ensures end { IfOk result (λ count. count ≡ 0 → 0 < length into.new → IsAtEnd (left self.new)) }
        ensures kept { OnErr result (Keeps (left self.old) (left self.new)) }
        ensures faults { RisesWhere (faults self.old) (faults self.new) (IsErr result) }
        ensures asked { AsksFor (asked self.old) (asked self.new) (length into.new) }
        ensures calls { CountsCall (calls self.old) (calls self.new) };
}

/// What bytes are written to.
pub trait Sink {
    /// The bytes taken so far, where the sink tells them.
    ghost held: { Self → Option (List ℕ) };

    /// How often a write has failed, or has taken nothing of a nonempty piece, up to 2^64 - 1.
    ghost faults: { Self → ℕ };

    /// How often it was written to, up to 2^64 - 1, where the sink tells it.
    ghost calls: { Self → Option ℕ } = { λ _. None };

    /// Takes some bytes from the front of `piece` and answers how many.
    fn write(&mut self, piece: &[u8]) -> Result<usize, Failed>
        ensures bound { WritesAtMost result piece.now }
        ensures told { SameTold (held self.old) (held self.new) }
        ensures taken { IfOk result (λ count.
            Appends (held self.old) (held self.new) (take count piece.now)) }
        ensures kept { OnErr result (Keeps (held self.old) (held self.new)) }
        ensures faults { RisesWhere (faults self.old) (faults self.new) (IsFailedWrite result piece.now) }
        ensures calls { CountsCall (calls self.old) (calls self.new) };
}
