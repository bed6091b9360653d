// Files of cases.

use crate::bytes::{push_numbered, push_text, push_times};
use crate::case::{Case, Outcome};
use std::alloc::{AllocError, Global};
use std::mem;
use std::thread::Threads;

// Bytes with a name, which several cases begin with.
#[derive(Drop)]
struct Block {
    name: String,
    bytes: Vec<u8>,
}

// Where the lines of a file lead to.
#[derive(Drop)]
enum Open {
    Nothing,
    Block(Block),
    Case(Case),
}

// What the lines of a file have come to.
#[derive(Drop)]
struct Script {
    outcomes: Vec<Outcome>,
    blocks: Vec<Block>,
    open: Open,
    stray: u32,
}

/// Runs the cases of a file, and tells how each ended.
pub(crate) fn outcomes<R: Threads + Sync>(
    rt: &R,
    alloc: Global,
    text: &str,
) -> Result<Vec<Outcome>, AllocError> {
    let mut script = Script::new(alloc);
    for line in text.lines() {
        script.read(rt, alloc, line)?;
    }
    script
        .outcomes
        .push(Outcome::of_stray_lines(alloc, script.stray)?)?;
    Ok(script.outcomes)
}

impl Script {
    fn new(alloc: Global) -> Script {
        Script {
            outcomes: Vec::new(alloc),
            blocks: Vec::new(alloc),
            open: Open::Nothing,
            stray: 0,
        }
    }

    fn read<R: Threads + Sync>(
        &mut self,
        rt: &R,
        alloc: Global,
        line: &str,
    ) -> Result<(), AllocError> {
        let (word, rest) = line.split_once(' ').unwrap_or((line, ""));
        match word {
            "" | "#" => {}
            "case" => self.open = Open::Case(Case::new(alloc, rest)?),
            "block" => self.open = Open::Block(Block::new(alloc, rest)?),
            "end" => self.end(rt, alloc)?,
            _ => {
                if !read_line(alloc, &mut self.open, &self.blocks, word, rest)? {
                    self.stray = self.stray.saturating_add(1);
                }
            }
        }
        Ok(())
    }

    // Keeps the block that is open, or runs the case.
    fn end<R: Threads + Sync>(&mut self, rt: &R, alloc: Global) -> Result<(), AllocError> {
        match mem::replace(&mut self.open, Open::Nothing) {
            Open::Nothing => {}
            Open::Block(block) => self.blocks.push(block)?,
            Open::Case(case) => self.outcomes.push(case.outcome(rt, alloc)?)?,
        }
        Ok(())
    }
}

impl Block {
    fn new(alloc: Global, name: &str) -> Result<Block, AllocError> {
        Ok(Block {
            name: String::from_str(alloc, name)?,
            bytes: Vec::new(alloc),
        })
    }
}

// Reads a line of a case or a block, and says whether it is one.
fn read_line(
    alloc: Global,
    open: &mut Open,
    blocks: &[Block],
    word: &str,
    rest: &str,
) -> Result<bool, AllocError> {
    match open {
        Open::Nothing => Ok(false),
        Open::Block(block) => match word.strip_prefix('|') {
            Some(form) => push_form(alloc, &mut block.bytes, blocks, form, rest),
            None => Ok(false),
        },
        Open::Case(case) => read_case_line(alloc, case, blocks, word, rest),
    }
}

fn read_case_line(
    alloc: Global,
    case: &mut Case,
    blocks: &[Block],
    word: &str,
    rest: &str,
) -> Result<bool, AllocError> {
    if let Some(form) = word.strip_prefix('|') {
        return push_form(alloc, &mut case.input, blocks, form, rest);
    }
    if let Some(form) = word.strip_prefix('>') {
        return push_form(alloc, &mut case.output, blocks, form, rest);
    }
    if let Some(form) = word.strip_prefix('!') {
        return push_form(alloc, &mut case.error, blocks, form, rest);
    }
    if read_commands(alloc, &mut case.commands, word, rest)? {
        return Ok(true);
    }
    match rest.parse::<u32>() {
        Ok(number) => read_number(case, word, number),
        Err(_) => Ok(false),
    }
}

// Reads a line that adds to the commands of a case.
fn read_commands(
    alloc: Global,
    commands: &mut Vec<Vec<String>>,
    word: &str,
    rest: &str,
) -> Result<bool, AllocError> {
    match word {
        "words" => commands.push(command(alloc, rest)?)?,
        "vary" => *commands = varied(alloc, commands, rest)?,
        "long" => add_long(alloc, commands, rest)?,
        _ => return Ok(false),
    }
    Ok(true)
}

// Reads a line whose value is a number.
fn read_number(case: &mut Case, word: &str, number: u32) -> Result<bool, AllocError> {
    match word {
        "status" => case.status = u8::try_from(number).unwrap_or(255),
        "read" => case.read_piece = number as usize,
        "read-fails" => case.failing_reads.push(u64::from(number))?,
        "write" => case.writes.piece = number as usize,
        "write-fails" => case.writes.failing.push(u64::from(number))?,
        "room" => case.writes.room = number as usize,
        "error-write" => case.error_writes.piece = number as usize,
        "error-write-fails" => case.error_writes.failing.push(u64::from(number))?,
        "winners" => case.winners = Some(number as usize),
        _ => return Ok(false),
    }
    Ok(true)
}

/// The words of a command, with one space between two.
pub(crate) fn command(alloc: Global, rest: &str) -> Result<Vec<String>, AllocError> {
    let mut words = Vec::new(alloc);
    for word in rest.split(' ') {
        words.push(String::from_str(alloc, word)?)?;
    }
    Ok(words)
}

// Each command with a further option, once for each of its values.
fn varied(
    alloc: Global,
    commands: &[Vec<String>],
    option_and_values: &str,
) -> Result<Vec<Vec<String>>, AllocError> {
    let (option, values) = option_and_values
        .split_once(' ')
        .unwrap_or((option_and_values, ""));
    let mut varied = Vec::new(alloc);
    for command in commands {
        for value in values.split(' ') {
            varied.push(with_option(alloc, command, option, value)?)?;
        }
    }
    Ok(varied)
}

fn with_option(
    alloc: Global,
    command: &Vec<String>,
    option: &str,
    value: &str,
) -> Result<Vec<String>, AllocError> {
    let mut words = command.clone()?;
    words.push(String::from_str(alloc, option)?)?;
    words.push(String::from_str(alloc, value)?)?;
    Ok(words)
}

// Each command with a further option, whose value is a text so many times.
fn add_long(alloc: Global, commands: &mut [Vec<String>], rest: &str) -> Result<(), AllocError> {
    let (option, value) = rest.split_once(' ').unwrap_or((rest, ""));
    let (count, text) = counted(value);
    for command in commands {
        let mut whole = String::new(alloc);
        for _time in 0..count {
            whole.push_str(text)?;
        }
        command.push(String::from_str(alloc, option)?)?;
        command.push(whole)?;
    }
    Ok(())
}

// Appends what a line spells: a text with its end, or in another form. Says whether there is such a form.
fn push_form(
    alloc: Global,
    out: &mut Vec<u8>,
    blocks: &[Block],
    form: &str,
    rest: &str,
) -> Result<bool, AllocError> {
    let (count, text) = counted(rest);
    match form {
        "" => {
            push_text(out, rest.as_bytes())?;
            out.push(b'\n')?;
        }
        "+" => push_text(out, rest.as_bytes())?,
        "*" => push_times(out, count, text.as_bytes(), alloc)?,
        "@" => push_numbered(out, 0, count, text.as_bytes(), alloc)?,
        "@1" => push_numbered(out, 1, count, text.as_bytes(), alloc)?,
        "$" => return push_block(out, blocks, rest),
        _ => return Ok(false),
    }
    Ok(true)
}

// A number and the text behind it.
fn counted(rest: &str) -> (u32, &str) {
    match rest.split_once(' ') {
        Some((number, text)) => (number.parse::<u32>().unwrap_or(0), text),
        None => (0, rest),
    }
}

// Appends the bytes of the block of this name. Says whether there is one.
fn push_block(out: &mut Vec<u8>, blocks: &[Block], name: &str) -> Result<bool, AllocError> {
    for block in blocks {
        if block.name.as_str() == name {
            out.extend_from_slice(&block.bytes)?;
            return Ok(true);
        }
    }
    Ok(false)
}
