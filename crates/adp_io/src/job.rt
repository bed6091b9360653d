//! A whole job text from a source, up to the greatest length that a job may have.
ghost use Rattle.std.specs.Prelude.{◌≡◌, ◌+◌, ◌-◌, ◌<◌, ◌≤◌, length, vec_len, IfOk, IfSome, OnOk, OnErr, IsErrOf};
ghost use Rattle.std.specs.Io.KnownBytes.{IsAtEnd, Keeps};
ghost use Rattle.adp_io.specs.Causes.{RisesWhere};
ghost use Rattle.adp_io.specs.Streams.{AsksForAtMost, CallsAtMost, CountsCall, Loses, LosesAtMost, Moves, SameTold, job_limit, piece_limit};

use crate::stream::Source;
use std::alloc::{AllocError, Global};
use thiserror::Error;

/// The most bytes that a job text may have.
pub const JOB_LIMIT: usize = 4_194_304;

/// The most bytes that are read at a time.
pub const PIECE_LIMIT: usize = 65_536;

/// Why no job text was read.
#[derive(Debug, PartialEq, Eq, Drop, Error)]
pub enum JobFault {
    #[error("the input could not be read")]
    ReadFault,
    #[error("the input has more than {JOB_LIMIT} bytes")]
    TooLong,
    #[error("out of memory")]
    Memory,
}

/// Reads to the end of the source, or until one byte more than `JOB_LIMIT` has come, in pieces of at most
/// `PIECE_LIMIT` bytes. After a refusal the bytes read are gone.
pub fn read_job<S: Source>(alloc: Global, source: &mut S) -> Result<Vec<u8>, JobFault>
    ensures told { SameTold (S.left source.old) (S.left source.new) }
    ensures faults { RisesWhere (S.faults source.old) (S.faults source.new) (IsErrOf result JobFault.ReadFault) }
    ensures asked { AsksForAtMost (S.asked source.old) (S.asked source.new) piece_limit }

    // The bytes are all that came, and the source was read to its end.
    ensures whole { IfOk result (λ bytes. IfSome (S.left source.old) (λ left. bytes.items ≡ left)) }
    ensures end { OnOk result (IsAtEnd (S.left source.new)) }
    ensures fits { IfOk result (λ bytes. vec_len bytes ≤ job_limit) }

    // Each read but the last gave a byte, however the reads ended.
    ensures calls { IfOk result (λ bytes. CallsAtMost (S.calls source.old) (S.calls source.new) (vec_len bytes + 1)) }
    ensures most_calls { CallsAtMost (S.calls source.old) (S.calls source.new) (job_limit + 1) }
    ensures told_calls { IfSome (S.left source.old) (λ left.
        CallsAtMost (S.calls source.old) (S.calls source.new) (length left + 1)) }

    ensures read_fault { IsErrOf result JobFault.ReadFault
        → LosesAtMost (S.left source.old) (S.left source.new) job_limit }
    ensures too_long { IsErrOf result JobFault.TooLong
        → Loses (S.left source.old) (S.left source.new) (job_limit + 1) }
    ensures long { IsErrOf result JobFault.TooLong
        → IfSome (S.left source.old) (λ left. job_limit < length left) }
    ensures refused { OnErr result (LosesAtMost (S.left source.old) (S.left source.new) (job_limit + 1)) }
{
    let mut piece = zeros(alloc, PIECE_LIMIT).map_err(|_| JobFault::Memory)?;
    let mut bytes = Vec::new(alloc);
    while bytes.len() <= JOB_LIMIT {
        if read_piece(source, &mut piece, &mut bytes)? == 0 {
            return Ok(bytes);
        }
    }
    Err(JobFault::TooLong)
}

/// A buffer of this length.
fn zeros(alloc: Global, len: usize) -> Result<Vec<u8>, AllocError>
    ensures { IfOk result (λ buffer. vec_len buffer ≡ len) }
{
    vec![in alloc; 0; len]
}

/// Reads one piece, adds it to the bytes and answers how many there were: none only at the end.
fn read_piece<S: Source>(
    source: &mut S,
    piece: &mut [u8],
    bytes: &mut Vec<u8>,
) -> Result<usize, JobFault>
    requires piece { 0 < length piece.old }
    requires short { length piece.old ≤ piece_limit }
    requires room { vec_len bytes.old ≤ job_limit }
    ensures told { SameTold (S.left source.old) (S.left source.new) }
    ensures faults { RisesWhere (S.faults source.old) (S.faults source.new) (IsErrOf result JobFault.ReadFault) }
    ensures asked { AsksForAtMost (S.asked source.old) (S.asked source.new) piece_limit }
    ensures calls { CountsCall (S.calls source.old) (S.calls source.new) }
    ensures moved { IfOk result (λ count.
        Moves (S.left source.old) (S.left source.new) bytes.old.items bytes.new.items count) }
    ensures len { IfOk result (λ count. vec_len bytes.new ≡ vec_len bytes.old + count) }
    ensures fits { OnOk result (vec_len bytes.new ≤ job_limit + 1) }
    ensures end { IfOk result (λ count. count ≡ 0 → IsAtEnd (S.left source.new)) }
    ensures read_fault { IsErrOf result JobFault.ReadFault → Keeps (S.left source.old) (S.left source.new) }
    ensures too_long { IsErrOf result JobFault.TooLong → ⊥ }
    ensures refused { OnErr result
        (LosesAtMost (S.left source.old) (S.left source.new) (job_limit + 1 - vec_len bytes.old)) }
{
    let room = JOB_LIMIT + 1 - bytes.len();
    let most = piece.len().min(room);
    let count = source
        .read(&mut piece[..most])
        .map_err(|_| JobFault::ReadFault)?;
    bytes
        .extend_from_slice(&piece[..count])
        .map_err(|_| JobFault::Memory)?;
    Ok(count)
}
