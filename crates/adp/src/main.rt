//! The program `adp`: the top call over the standard streams, with a gate that is always open.
#![tactic(auto)]

use adp_io::{Sink, Source, StdSink, StdSource, write_whole};
use adp_main::{Status, run, words_behind_name};
use evaluators::OpenGate;
use std::alloc::Global;
use std::io;
use std::process::ExitCode;
use std::thread::Threads;

fn main(rt: HostRuntime) -> ExitCode {
    let mut input = StdSource::new(rt.stdin());
    let mut out = StdSink::new(rt.stdout());
    let mut err = StdSink::new(rt.stderr());
    let words = words_behind_name(&rt);
    let status = answer(&rt, rt.alloc(), words, &mut input, &mut out, &mut err);
    ExitCode::from(status.number())
}

/// Answers the words of the command line, if they are text, over these streams.
fn answer<R: Threads + Sync, S: Source, K: Sink, E: Sink>(
    rt: &R,
    alloc: Global,
    words: io::Result<Vec<String>>,
    input: &mut S,
    out: &mut K,
    err: &mut E,
) -> Status {
    match words {
        Ok(words) => run(rt, alloc, &words, input, out, err, &mut OpenGate),
        Err(error) if error.kind() == io::ErrorKind::OutOfMemory => {
            // The status tells it too.
            let _ = write_whole(err, b"fault memory\n");
            Status::Memory
        }
        // Words that are no text are no command.
        Err(_) => run(rt, alloc, &[], input, out, err, &mut OpenGate),
    }
}
