// One case: what the top call is given, what it has to give, and how the two differ.

use crate::wins::without_wins;
use adp_io::{MemSink, MemSource};
use adp_main::run;
use evaluators::OpenGate;
use std::alloc::{AllocError, Global};
use std::thread::Threads;

/// How a sink takes what is written: the most bytes of a call, how many bytes it takes at all, and the calls that fail,
/// by their numbers from 0.
#[derive(Drop)]
pub(crate) struct Taking {
    pub(crate) piece: usize,
    pub(crate) room: usize,
    pub(crate) failing: Vec<u64>,
}

impl Taking {
    fn new(alloc: Global, piece: usize, room: usize) -> Taking {
        Taking {
            piece,
            room,
            failing: Vec::new(alloc),
        }
    }

    fn sink(&self, alloc: Global) -> Result<MemSink, AllocError> {
        MemSink::new(alloc, self.room, self.piece.max(1), self.failing.clone()?)
    }
}

/// What a run is given and what has to come of it, with each of some commands. Bytes are read and written in pieces;
/// calls that fail are told by their numbers from 0. Where `winners` is set, each report has a line of the wins of so
/// many evaluators, which `output` leaves out.
#[derive(Drop)]
pub(crate) struct Case {
    pub(crate) name: String,
    pub(crate) commands: Vec<Vec<String>>,
    pub(crate) input: Vec<u8>,
    pub(crate) read_piece: usize,
    pub(crate) failing_reads: Vec<u64>,
    pub(crate) writes: Taking,
    pub(crate) error_writes: Taking,
    pub(crate) output: Vec<u8>,
    pub(crate) error: Vec<u8>,
    pub(crate) status: u8,
    pub(crate) winners: Option<usize>,
}

// What a run gave.
#[derive(Clone, Copy)]
struct Came<'r> {
    status: u8,
    output: &'r [u8],
    error: &'r [u8],
}

/// The name of a case, and how its runs differed: not at all where that is empty.
#[derive(Drop)]
pub(crate) struct Outcome {
    pub(crate) name: String,
    pub(crate) difference: String,
}

impl Outcome {
    /// That each line of a file of cases is one that means something, where none of them is stray.
    pub(crate) fn of_stray_lines(alloc: Global, stray: u32) -> Result<Outcome, AllocError> {
        let mut difference = String::new(alloc);
        if stray > 0 {
            push_difference(
                &mut difference,
                "the number of stray lines",
                &format!(in alloc; "{stray}")?,
            )?;
        }
        Ok(Outcome {
            name: String::from_str(alloc, "each line of the file means something")?,
            difference,
        })
    }
}

impl Case {
    /// A case without commands and bytes, which gives nothing and ends with status 0.
    pub(crate) fn new(alloc: Global, name: &str) -> Result<Case, AllocError> {
        Ok(Case {
            name: String::from_str(alloc, name)?,
            commands: Vec::new(alloc),
            input: Vec::new(alloc),
            read_piece: 4096,
            failing_reads: Vec::new(alloc),
            writes: Taking::new(alloc, 4096, 16_777_216),
            error_writes: Taking::new(alloc, 100, 100),
            output: Vec::new(alloc),
            error: Vec::new(alloc),
            status: 0,
            winners: None,
        })
    }

    /// Runs the case with each command, or without words where there is none, and compares.
    pub(crate) fn outcome<R: Threads + Sync>(
        self,
        rt: &R,
        alloc: Global,
    ) -> Result<Outcome, AllocError> {
        let mut difference = String::new(alloc);
        if self.commands.is_empty() {
            self.compare(rt, alloc, &[], &mut difference)?;
        }
        for words in &self.commands {
            self.compare(rt, alloc, words, &mut difference)?;
        }
        Ok(Outcome {
            name: self.name,
            difference,
        })
    }

    // Runs the case with these words, and appends how what came differs from what has to come.
    fn compare<R: Threads + Sync>(
        &self,
        rt: &R,
        alloc: Global,
        words: &[String],
        difference: &mut String,
    ) -> Result<(), AllocError> {
        let reads = self.failing_reads.clone()?;
        let mut source = MemSource::new(self.input.clone()?, self.read_piece.max(1), reads);
        self.compare_on(rt, alloc, words, &mut source, difference)
    }

    fn compare_on<R: Threads + Sync>(
        &self,
        rt: &R,
        alloc: Global,
        words: &[String],
        source: &mut MemSource,
        difference: &mut String,
    ) -> Result<(), AllocError> {
        let mut out = self.writes.sink(alloc)?;
        let mut err = self.error_writes.sink(alloc)?;
        let status = run(rt, alloc, words, source, &mut out, &mut err, &mut OpenGate);
        let came = Came {
            status: status.number(),
            output: out.bytes(),
            error: err.bytes(),
        };
        self.tell_difference(alloc, words, &came, difference)
    }

    fn tell_difference(
        &self,
        alloc: Global,
        words: &[String],
        came: &Came<'_>,
        difference: &mut String,
    ) -> Result<(), AllocError> {
        if self.is_right(alloc, came)? {
            Ok(())
        } else {
            self.tell(alloc, words, came, difference)
        }
    }

    fn is_right(&self, alloc: Global, came: &Came<'_>) -> Result<bool, AllocError> {
        Ok(
            came.status == self.status
                && came.error == self.error.as_slice()
                && self.is_output(alloc, came.output)?,
        )
    }

    fn is_output(&self, alloc: Global, output: &[u8]) -> Result<bool, AllocError> {
        match self.winners {
            None => Ok(output == self.output.as_slice()),
            Some(winners) => match without_wins(alloc, output, winners)? {
                Some(rest) => Ok(rest.as_slice() == self.output.as_slice()),
                None => Ok(false),
            },
        }
    }

    // Appends the words, and each thing that came otherwise than it has to.
    fn tell(
        &self,
        alloc: Global,
        words: &[String],
        came: &Came<'_>,
        difference: &mut String,
    ) -> Result<(), AllocError> {
        for word in words {
            difference.push_str(word.as_str())?;
            difference.push_str(" ")?;
        }
        if came.status != self.status {
            let status = came.status;
            push_difference(difference, "status", &format!(in alloc; "{status}")?)?;
        }
        if !self.is_output(alloc, came.output)? {
            push_bytes(alloc, difference, "output", came.output)?;
        }
        if came.error != self.error.as_slice() {
            push_bytes(alloc, difference, "error", came.error)?;
        }
        Ok(())
    }
}

fn push_difference(difference: &mut String, what: &str, is: &String) -> Result<(), AllocError> {
    difference.push_str("(")?;
    difference.push_str(what)?;
    difference.push_str(" is ")?;
    difference.push_str(is.as_str())?;
    difference.push_str(") ")
}

fn push_bytes(
    alloc: Global,
    difference: &mut String,
    what: &str,
    bytes: &[u8],
) -> Result<(), AllocError> {
    push_difference(difference, what, &shown(alloc, bytes)?)
}

// The bytes up to the first 300, with ` / ` for the end of a line.
fn shown(alloc: Global, bytes: &[u8]) -> Result<String, AllocError> {
    let mut text = String::new(alloc);
    for byte in bytes.iter().take(300) {
        match *byte {
            b'\n' => text.push_str(" / ")?,
            32..=126 => text.push(char::from(*byte))?,
            other => text.push_str(format!(in alloc; "%{other:02X}")?.as_str())?,
        }
    }
    Ok(text)
}
