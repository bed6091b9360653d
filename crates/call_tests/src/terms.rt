//! Calls of `algebra_terms`.

ghost use Rattle.std.specs.Prelude.{◌≤◌, length};

use crate::lines::{push_field, push_no_call, push_signed_field, push_text};
use adp_model::{Linear, Text};
use algebra_terms::{TermError, Token, TokenKind, is_term, line_tokens, read_term};
use std::alloc::{AllocError, Global};

/// The most bytes of a line that is read.
const MOST_BYTES: usize = 1000;

/// Appends what a call on a line of text gave.
pub(crate) fn push_term_call(
    alloc: Global,
    name: &str,
    rest: &str,
    out: &mut Vec<u8>,
) -> Result<(), AllocError> {
    let Some(line) = between_marks(rest) else {
        return push_no_call(out);
    };
    if line.len() > MOST_BYTES {
        return push_no_call(out);
    }
    match name {
        "term" => push_term(alloc, line, out),
        _ => push_tokens(alloc, line, out),
    }
}

/// What stands between `<` and `>`.
fn between_marks(text: &str) -> Option<&str> {
    text.strip_prefix('<')?.strip_suffix('>')
}

/// Appends the term that is spelled over the variables `x`, `y` and `x` again: its constant and its factors.
fn push_term(alloc: Global, spelling: &str, out: &mut Vec<u8>) -> Result<(), AllocError>
    requires { length spelling.now ≤ 1000 }
{
    let vars = variables(alloc)?;
    match read_term(alloc, spelling.as_bytes(), &vars) {
        Ok(term) => push_linear(&term, out),
        Err(fault) => push_term_fault(fault, out),
    }
}

fn variables(alloc: Global) -> Result<Vec<Text>, AllocError> {
    let mut vars = Vec::new(alloc);
    vars.push(Text::new(Vec::from_slice(alloc, b"x")?))?;
    vars.push(Text::new(Vec::from_slice(alloc, b"y")?))?;
    vars.push(Text::new(Vec::from_slice(alloc, b"x")?))?;
    Ok(vars)
}

fn push_linear(term: &Linear, out: &mut Vec<u8>) -> Result<(), AllocError> {
    push_signed_field(out, " ", term.constant)?;
    push_text(out, ", factors")?;
    for factor in term.factors.as_slice() {
        push_signed_field(out, " ", *factor)?;
    }
    Ok(())
}

fn push_term_fault(fault: TermError, out: &mut Vec<u8>) -> Result<(), AllocError> {
    match fault {
        TermError::Shape => push_text(out, " no shape"),
        TermError::Name => push_text(out, " no name"),
        TermError::Number => push_text(out, " no number"),
        TermError::Unknown => push_text(out, " unknown"),
        TermError::Memory => Err(AllocError),
    }
}

/// Appends the tokens of a line, each with its sort and where it stands, and whether they are a term.
fn push_tokens(alloc: Global, line: &str, out: &mut Vec<u8>) -> Result<(), AllocError>
    requires { length line.now ≤ 1000 }
{
    let bytes = line.as_bytes();
    match line_tokens(alloc, bytes)? {
        Some(tokens) => {
            for token in &tokens {
                push_token(token, out)?;
            }
            let verdict = is_term(bytes, &tokens);
            push_text(out, if verdict { " a term" } else { " no term" })
        }
        None => push_text(out, " a byte of no token"),
    }
}

fn push_token(token: &Token, out: &mut Vec<u8>) -> Result<(), AllocError> {
    let kind = match token.kind {
        TokenKind::Word => " word ",
        TokenKind::Quoted => " quoted ",
        TokenKind::Mark => " mark ",
        TokenKind::Dots => " dots ",
    };
    push_field(out, kind, u64::from(token.from))?;
    push_field(out, " to ", u64::from(token.to))?;
    push_text(out, ",")
}
