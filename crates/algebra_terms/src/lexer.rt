ghost use Rattle.std.specs.Prelude.{◌≡◌, ◌≤◌, ◌^◌, false, length, map, All, IfOk, IfSome, IsErr, MatchOption, MatchResult};
ghost use Rattle.std.specs.List.{prefix_len};
ghost use Rattle.job_texts.specs.LineTokens as lines;
ghost use Rattle.adp_model.specs.WellFormed as words;
ghost use Rattle.algebra_terms.specs.Tokens.{IsBeginning, IsIn, IsStopped, placed, quoted_bytes};

use crate::error::TokenError;
use adp_model::is_word_byte;
use std::alloc::{AllocError, Global};

/// What sort of token it is.
#[derive(Clone, Copy, Debug, PartialEq, Eq)]
pub enum TokenKind {
    /// A longest run of letters, digits and `_`.
    Word,
    /// A quoted text, with its quotes.
    Quoted,
    /// One of `=` `(` `)` `,` `[` `]` `|` `+` `-` `*`.
    Mark,
    /// `..`
    Dots,
}

/// A token of a line: the bytes from `from` to before `to`, counted from the first byte of the line as 0.
#[derive(Clone, Copy, Debug, PartialEq, Eq)]
pub struct Token {
    pub kind: TokenKind,
    pub from: u32,
    pub to: u32,
}

/// The number of bytes of the word that the text begins with.
fn word_len(text: &[u8]) -> usize
    ensures within { result ≤ length text.now }
    ensures len { result ≡ prefix_len words.is_word_byte text.now }
{
    for (i, byte) in text.iter().enumerate() {
        if !is_word_byte(*byte) {
            return i;
        }
    }
    text.len()
}

/// The number of bytes from behind the `"` that begins a quoted text up to and with the `"` that ends it; `None` where
/// none ends it, or where a `\` stands before another byte than `"` and `\`.
fn quoted_len(text: &[u8]) -> Option<usize>
    ensures within { IfSome result (λ len. len ≤ length text.now) }
    ensures len { result ≡ quoted_bytes (lines.quoted_rest false text.now) }
{
    let mut escaped = false;
    for (i, byte) in text.iter().enumerate() {
        match (*byte, escaped) {
            (b'"', false) => return Some(i + 1),
            (b'\\', false) => escaped = true,
            (b'"' | b'\\', true) => escaped = false,
            (_, false) => {}
            (_, true) => return None,
        }
    }
    None
}

/// The kind of the token that begins at this byte before the text, and how many bytes of the text belong to it; `None`
/// at a space.
fn begin(byte: u8, text: &[u8]) -> Result<Option<(TokenKind, usize)>, TokenError>
    ensures { IsBeginning byte text.now result }
{
    match byte {
        b' ' => Ok(None),
        b'"' => match quoted_len(text) {
            Some(further) => Ok(Some((TokenKind::Quoted, further))),
            None => Err(TokenError::OpenQuote),
        },
        b'.' => match text.first() {
            Some(b'.') => Ok(Some((TokenKind::Dots, 1))),
            _ => Err(TokenError::StrayByte),
        },
        b'=' | b'(' | b')' | b',' | b'[' | b']' | b'|' | b'+' | b'-' | b'*' => {
            Ok(Some((TokenKind::Mark, 0)))
        }
        _ if is_word_byte(byte) => Ok(Some((TokenKind::Word, word_len(text)))),
        _ => Err(TokenError::StrayByte),
    }
}

/// The tokens of a line, in order. Otherwise what stops their finding: a byte that begins no token, or a `"` that
/// begins no quoted text.
pub fn tokens(alloc: Global, line: &[u8]) -> Result<Vec<Token>, TokenError>
    requires { length line.now ≤ 2 ^ 31 }
    ensures tokens { MatchResult result
        (λ tokens. lines.line_tokens line.now ≡ Ok (map (placed line.now) tokens.items))
        (λ error. IsStopped (lines.line_tokens line.now) error) }
    ensures spans { IfOk result (λ tokens. All (IsIn line.now) tokens.items) }
{
    let mut tokens = Vec::with_capacity(alloc, line.len() / 2)?;
    let mut at = 0;
    while at < line.len() {
        let Some((kind, further)) = begin(line[at], &line[at + 1..])? else {
            at += 1;
            continue;
        };
        let to = at + 1 + further;
        tokens.push(Token {
            kind,
            from: at as u32,
            to: to as u32,
        })?;
        at = to;
    }
    Ok(tokens)
}

/// The tokens of a line, in order; `None` where a byte begins no token, or where a `"` begins no quoted text.
pub fn line_tokens(alloc: Global, line: &[u8]) -> Result<Option<Vec<Token>>, AllocError>
    requires { length line.now ≤ 2 ^ 31 }
    ensures tokens { IfOk result (λ found. MatchOption found
        (IsErr (lines.line_tokens line.now))
        (λ tokens. lines.line_tokens line.now ≡ Ok (map (placed line.now) tokens.items))) }
    ensures spans { IfOk result (λ found. IfSome found (λ tokens. All (IsIn line.now) tokens.items)) }
{
    match tokens(alloc, line) {
        Ok(tokens) => Ok(Some(tokens)),
        Err(TokenError::StrayByte | TokenError::OpenQuote) => Ok(None),
        Err(TokenError::Memory) => Err(AllocError),
    }
}
