//! Lines of calls.

use crate::codes::push_code_call;
use crate::grammars::{push_grammar_call, push_spelling};
use crate::lines::{first_word, push_no_call, push_text};
use crate::made::push_made_call;
use crate::plain_texts::push_plain_text;
use crate::shares::push_shares;
use crate::streams::push_stream_call;
use crate::terms::push_term_call;
use std::alloc::{AllocError, Global};
use std::thread::Threads;

/// A job that calls name.
#[derive(Drop)]
pub(crate) struct JobText {
    pub(crate) name: &'static str,
    pub(crate) text: String,
}

/// Appends the line of a call with what the call gave. An empty line and one of a comment stay as they are.
pub(crate) fn push_line<R: Threads + Sync>(
    rt: &R,
    alloc: Global,
    jobs: &[JobText],
    line: &str,
    out: &mut Vec<u8>,
) -> Result<(), AllocError> {
    push_text(out, line)?;
    let (name, rest) = first_word(line);
    match name {
        "" | "#" => {}
        _ => {
            push_text(out, ":")?;
            push_call(rt, alloc, jobs, name, rest, out)?;
        }
    }
    push_text(out, "\n")
}

/// Appends what a call gave.
fn push_call<R: Threads + Sync>(
    rt: &R,
    alloc: Global,
    jobs: &[JobText],
    name: &str,
    rest: &str,
    out: &mut Vec<u8>,
) -> Result<(), AllocError> {
    match name {
        "term" | "tokens" => push_term_call(alloc, name, rest, out),
        "cell" | "score" | "choice" | "home" => push_code_call(alloc, name, rest, out),
        "made" | "pairs" => push_made_call(alloc, name, rest, out),
        "read" | "write" | "flaky" => push_stream_call(alloc, name, rest, out),
        "shares" => push_shares(rt, alloc, rest, out),
        _ => {
            let (file, rest) = first_word(rest);
            match text_of(jobs, file) {
                Some(text) => push_job_call(alloc, text, name, rest, out),
                None => push_no_call(out),
            }
        }
    }
}

/// The text of the job of this name.
fn text_of<'j>(jobs: &'j [JobText], name: &str) -> Option<&'j str> {
    for job in jobs {
        if job.name == name {
            return Some(job.text.as_str());
        }
    }
    None
}

/// Appends what a call on a job gave.
fn push_job_call(
    alloc: Global,
    text: &str,
    name: &str,
    rest: &str,
    out: &mut Vec<u8>,
) -> Result<(), AllocError> {
    match name {
        "spelling" => push_spelling(alloc, text, out),
        "plain-text" => push_plain_text(alloc, text, out),
        _ => push_grammar_call(alloc, text, name, rest, out),
    }
}
