//! The text of a schedule, and the machines that it names.
ghost use Rattle.std.specs.Prelude.{◌≡◌, IfOk};
ghost use Rattle.std.specs.List.{list_all};
ghost use Rattle.verdicts.specs.ScheduleText.{entry_of, is_entry_byte, is_schedule, machines_of};

use std::alloc::{AllocError, Global};
use verdicts::Command;

/// The most entries of a schedule.
const MOST_ENTRIES: usize = 4096;

/// Whether a word is a schedule: 1 to 4,096 characters, each `0` to `9` or `a` to `v`.
pub(crate) fn is_schedule(word: &str) -> bool
    ensures { result ≡ is_schedule word.now }
{
    let bytes = word.as_bytes();
    1 <= bytes.len() && bytes.len() <= MOST_ENTRIES && are_entries(bytes)
}

fn are_entries(bytes: &[u8]) -> bool
    ensures { result ≡ list_all is_entry_byte bytes.now }
{
    bytes.iter().all(|byte| is_entry(*byte))
}

fn is_entry(byte: u8) -> bool
    ensures { result ≡ is_entry_byte byte }
{
    byte.is_ascii_digit() || (b'a' <= byte && byte <= b'v')
}

/// The machines that the schedule of a command steps in turn; none where it has no schedule.
pub fn schedule_entries(alloc: Global, command: &Command<'_>) -> Result<Vec<u8>, AllocError>
    ensures { IfOk result (λ entries. entries.items ≡ command.now.schedule) }
{
    match command.schedule {
        Some(text) => entries(alloc, text.as_bytes()),
        None => Ok(Vec::new(alloc)),
    }
}

fn entries(alloc: Global, bytes: &[u8]) -> Result<Vec<u8>, AllocError>
    ensures { IfOk result (λ entries. entries.items ≡ machines_of bytes.now) }
{
    let mut entries = Vec::new(alloc);
    for byte in bytes {
        entries.push(entry(*byte))?;
    }
    Ok(entries)
}

/// The number of the machine that a character names.
fn entry(byte: u8) -> u8
    ensures { result ≡ entry_of byte }
{
    if byte <= b'9' {
        byte.saturating_sub(b'0')
    } else {
        byte.saturating_sub(b'a') + 10
    }
}
