//! A whole text to a sink, however few bytes the sink takes at a time.
ghost use Rattle.std.specs.Prelude.{IsErr, OnErr, OnOk, length};
ghost use Rattle.std.specs.Io.KnownBytes.{Appends};
ghost use Rattle.adp_io.specs.Causes.{RisesWhere};
ghost use Rattle.adp_io.specs.Streams.{AppendsProperPrefix, CallsAtMost, SameTold};

use crate::stream::{Failed, Sink};

/// A write failed, or took nothing, before all was written.
#[derive(Clone, Copy, Debug, PartialEq, Eq)]
pub struct WriteFault;

/// Writes all the bytes. After a fault the sink holds a part of them, and never the whole.
#[tactic(auto, using(crate::proofs::Told::appends_more))]
pub fn write_whole<K: Sink>(sink: &mut K, bytes: &[u8]) -> Result<(), WriteFault>
    ensures told { SameTold (K.held sink.old) (K.held sink.new) }
    ensures whole { OnOk result (Appends (K.held sink.old) (K.held sink.new) bytes.now) }
    ensures part { OnErr result (AppendsProperPrefix (K.held sink.old) (K.held sink.new) bytes.now) }
    ensures faults { RisesWhere (K.faults sink.old) (K.faults sink.new) (IsErr result) }

    // Each write but one that failed took a byte: no empty piece is written.
    ensures calls { CallsAtMost (K.calls sink.old) (K.calls sink.new) (length bytes.now) }
{
    let mut written = 0;
    while written < bytes.len() {
        match sink.write(&bytes[written..]) {
            Ok(0) | Err(Failed) => return Err(WriteFault),
            Ok(count) => written += count,
        }
    }
    Ok(())
}
