//! Calls of `adp_io` over streams in memory and over readers and writers of std.

use crate::lines::{
    first_word, numbers, push_field, push_flag, push_list, push_no_call, push_text,
};
use adp_io::{
    CleanSink, CleanSource, Failed, JobFault, MemSink, MemSource, Sink, Source, StdSink, StdSource,
    read_job, write_whole,
};
use std::alloc::{AllocError, Global};
use std::io;
use std::io::{ErrorKind, Read, Write};

/// Appends what a call on a stream gave.
pub(crate) fn push_stream_call(
    alloc: Global,
    name: &str,
    rest: &str,
    out: &mut Vec<u8>,
) -> Result<(), AllocError> {
    let (stream, rest) = first_word(rest);
    let numbers = numbers(alloc, rest)?;
    match (name, stream) {
        ("read", "memory") => push_read_memory(alloc, &numbers, out),
        ("read", _) => push_read(alloc, stream, &numbers, out),
        ("write", "memory") => push_written_memory(alloc, &numbers, out),
        ("write", _) => push_written(alloc, stream, &numbers, out),
        (_, "reader") => push_flaky_reads(out),
        _ => push_flaky_writes(out),
    }
}

/// A text of this length.
fn text(alloc: Global, len: u64) -> Result<Vec<u8>, AllocError> {
    vec![in alloc; b'a'; len as usize]
}

/// Appends whether a job of so many bytes comes whole from memory, so many of them at most in a read.
fn push_read_memory(alloc: Global, numbers: &[u64], out: &mut Vec<u8>) -> Result<(), AllocError> {
    let [len @ 0..=MOST_BYTES, piece @ 1..=MOST_BYTES] = numbers else {
        return push_no_call(out);
    };
    let job = text(alloc, *len)?;
    let mut source = MemSource::new(job.clone()?, *piece as usize, Vec::new(alloc));
    push_job(alloc, &mut source, &job, out)
}

/// The most bytes of a job.
const MOST_BYTES: u64 = 5_000_000;

/// Appends whether a job of so many bytes comes whole from a stream of this name.
fn push_read(
    alloc: Global,
    stream: &str,
    numbers: &[u64],
    out: &mut Vec<u8>,
) -> Result<(), AllocError> {
    let [len @ 0..=MOST_BYTES] = numbers else {
        return push_no_call(out);
    };
    let job = text(alloc, *len)?;
    match stream {
        "standard" => push_job(alloc, &mut StdSource::new(job.as_slice()), &job, out),
        "clean" => push_job(alloc, &mut CleanSource::new(job.clone()?), &job, out),
        _ => push_no_call(out),
    }
}

fn push_job<S: Source>(
    alloc: Global,
    source: &mut S,
    job: &[u8],
    out: &mut Vec<u8>,
) -> Result<(), AllocError> {
    match read_job(alloc, source) {
        Ok(bytes) => push_flag(out, " the same", bytes.as_slice() == job),
        Err(JobFault::ReadFault) => push_text(out, " failed"),
        Err(JobFault::TooLong) => push_text(out, " too long"),
        Err(JobFault::Memory) => Err(AllocError),
    }
}

/// Appends whether a text of so many bytes is written whole into memory with that room, so many of them at most in a
/// write, where the write of the last number fails.
fn push_written_memory(
    alloc: Global,
    numbers: &[u64],
    out: &mut Vec<u8>,
) -> Result<(), AllocError> {
    let [len @ 0..=MOST_BYTES, piece @ 1..=MOST_BYTES, fails] = numbers else {
        return push_no_call(out);
    };
    let report = text(alloc, *len)?;
    let fails = vec![in alloc; *fails]?;
    let mut sink = MemSink::new(alloc, *len as usize, *piece as usize, fails)?;
    push_flag(out, " written", write_whole(&mut sink, &report).is_ok())?;
    push_flag(out, ", the same", sink.bytes() == report.as_slice())
}

/// Appends whether a text of so many bytes is written whole to a stream of this name.
fn push_written(
    alloc: Global,
    stream: &str,
    numbers: &[u64],
    out: &mut Vec<u8>,
) -> Result<(), AllocError> {
    let [len @ 0..=MOST_BYTES] = numbers else {
        return push_no_call(out);
    };
    let report = text(alloc, *len)?;
    match stream {
        "standard" => {
            let mut written = Vec::new(alloc);
            let whole = write_whole(&mut StdSink::new(&mut written), &report).is_ok();
            push_flag(out, " written", whole)?;
            push_flag(out, ", the same", written == report)
        }
        "clean" => {
            let mut sink = CleanSink::new();
            push_flag(out, " written", write_whole(&mut sink, &report).is_ok())?;
            push_field(out, ", taken ", sink.taken())
        }
        _ => push_no_call(out),
    }
}

/// A stream whose first call fails, and which is then at its end and takes all that it is given.
#[derive(Drop)]
struct Flaky {
    calls: u32,
}

impl Flaky {
    fn call(&mut self) -> io::Result<()> {
        self.calls = self.calls.saturating_add(1);
        if self.calls == 1 {
            return Err(io::Error::from(ErrorKind::Interrupted));
        }
        Ok(())
    }
}

impl Read for Flaky {
    fn read(&mut self, _buf: &mut [u8]) -> io::Result<usize> {
        self.call()?;
        Ok(0)
    }
}

impl Write for Flaky {
    fn write(&mut self, buf: &[u8]) -> io::Result<usize> {
        self.call()?;
        Ok(buf.len())
    }

    fn flush(&mut self) -> io::Result<()> {
        Ok(())
    }
}

/// Appends what two reads gave of which the reader fails at the first: each asks once, and nothing is tried again.
fn push_flaky_reads(out: &mut Vec<u8>) -> Result<(), AllocError> {
    let mut reader = Flaky { calls: 0 };
    let mut source = StdSource::new(&mut reader);
    push_count(source.read(&mut [0; 9]), out)?;
    push_count(source.read(&mut [0; 9]), out)?;
    push_field(out, ", calls ", u64::from(reader.calls))
}

/// The same of writes.
fn push_flaky_writes(out: &mut Vec<u8>) -> Result<(), AllocError> {
    let mut writer = Flaky { calls: 0 };
    let mut sink = StdSink::new(&mut writer);
    push_count(sink.write(b"ab"), out)?;
    push_count(sink.write(b"ab"), out)?;
    push_field(out, ", calls ", u64::from(writer.calls))
}

fn push_count(count: Result<usize, Failed>, out: &mut Vec<u8>) -> Result<(), AllocError> {
    match count {
        Ok(count) => push_field(out, " ", count as u64),
        Err(Failed) => push_text(out, " failed"),
    }
}
