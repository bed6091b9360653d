ghost use Rattle.std.specs.Prelude.{◌≡◌, ◌≤◌, length};
ghost use Rattle.report.specs.Faults.{HasShortName, fault_line};

use crate::line::Line;
use adp_model::{GrammarFault, LimitFault, TextFault};
use std::alloc::AllocError;

/// Why a run wrote no report, or a part of them.
#[derive(Drop)]
pub enum Fault {
    /// The words are no command.
    Usage,
    /// The input could not be read.
    Read,
    /// The reports could not be written.
    Write,
    /// The input is too long.
    TooLong,
    /// The input is no accepted text.
    Text(TextFault),
    /// The grammar is refused.
    Grammar(GrammarFault),
    /// The word with this number, counted from 1, passes a limit.
    Limit { word: u32, fault: LimitFault },
    /// The certificate is not right: this line of it, counted from 1, is the first that is false.
    Rejected { line: u32 },
    /// There was not enough memory.
    Memory,
}

/// The line that names the fault, with its end. Takes no memory.
pub fn fault_line(fault: &Fault) -> Line
    requires { HasShortName fault.now }
    ensures { result ≡ fault_line fault.now }
{
    match fault {
        Fault::Usage => Line::new(b"fault usage\n"),
        Fault::Read => Line::new(b"fault read\n"),
        Fault::Write => Line::new(b"fault write\n"),
        Fault::TooLong => Line::new(b"fault text long\n"),
        Fault::Text(fault) => text_line(fault),
        Fault::Grammar(fault) => grammar_line(fault),
        Fault::Limit { word, fault } => limit_line(*word, fault),
        Fault::Rejected { line } => certificate_line(*line),
        Fault::Memory => Line::new(b"fault memory\n"),
    }
}

fn text_line(fault: &TextFault) -> Line
    ensures { result ≡ fault_line (Fault.Text fault.now) }
{
    let mut line = Line::new(b"fault text line ");
    line.push_number(u64::from(fault.line));
    line.push(b" kind ");
    line.push_number(u64::from(fault.kind));
    if fault.kind == 16 {
        line.push(b" count ");
        line.push_number(u64::from(fault.count));
    }
    line.push(b"\n");
    line
}

fn grammar_line(fault: &GrammarFault) -> Line
    requires { length fault.now.name ≤ 32 }
    ensures { result ≡ fault_line (Fault.Grammar fault.now) }
{
    let mut line = Line::new(b"fault grammar kind ");
    line.push_number(u64::from(fault.kind));
    line.push(b" name ");
    line.push(fault.name.bytes());
    line.push(b"\n");
    line
}

fn limit_line(word: u32, fault: &LimitFault) -> Line
    ensures { result ≡ fault_line (Fault.Limit word fault.now) }
{
    let mut line = Line::new(b"fault limit word ");
    line.push_number(u64::from(word));
    line.push(b" kind ");
    line.push_number(u64::from(fault.kind));
    line.push(b" number ");
    line.push_number(fault.number);
    line.push(b"\n");
    line
}

fn certificate_line(number: u32) -> Line
    ensures { result ≡ fault_line (Fault.Rejected number) }
{
    let mut line = Line::new(b"fault certificate line ");
    line.push_number(u64::from(number));
    line.push(b"\n");
    line
}

impl From<AllocError> for Fault {
    ghost use Rattle.std.specs.Prelude.{◌≡◌};
    ghost use Rattle.report.specs.declared.fault.Fault.TheVariants.{Memory};

    ghost from_gives = { λ _ result. result ≡ Memory };

    fn from(_: AllocError) -> Fault {
        Fault::Memory
    }
}
