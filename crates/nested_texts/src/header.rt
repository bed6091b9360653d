// A header line: the `words` line, or another one with the alternatives that stand as arguments in it.

ghost use Rattle.std.specs.Prelude.{◌≡◌, ◌≤◌, ◌^◌, map, All, IfOk};
ghost use Rattle.std.specs.Prelude.{length};
ghost use Rattle.algebra_terms.specs.Tokens.{IsIn, said};
ghost use Rattle.nested_texts.specs.Seen.{says_words, tokens_seen, IsHeaderLine};

use crate::nested::{Nested, nested_of};
use crate::shape::is_nested_rule;
use algebra_terms::{Symbol, Token, line_tokens, symbol_at};
use std::alloc::{AllocError, Global};

/// A header line.
#[derive(Drop)]
pub(crate) enum HeaderLine {
    Words,
    Other(Vec<Nested>),
}

/// What a header line is.
pub(crate) fn header_line(alloc: Global, line: &[u8]) -> Result<HeaderLine, AllocError>
    requires { length line.now ≤ 2 ^ 31 }
    ensures { IfOk result (λ found. IsHeaderLine line.now found) }
{
    let Some(tokens) = line_tokens(alloc, line)? else {
        return Ok(HeaderLine::Other(Vec::new(alloc)));
    };
    let said = symbols(alloc, line, &tokens)?;
    if says_words(&said) {
        return Ok(HeaderLine::Words);
    }
    if !is_nested_rule(&said) {
        return Ok(HeaderLine::Other(Vec::new(alloc)));
    }
    Ok(HeaderLine::Other(nested_of(alloc, line, &tokens)?))
}

// What the tokens of a line say, in order.
fn symbols<'a>(
    alloc: Global,
    line: &'a [u8],
    tokens: &[Token],
) -> Result<Vec<Symbol<'a>>, AllocError>
    requires { All (IsIn line.now) tokens.now }
    ensures { IfOk result (λ symbols. tokens_seen symbols.items ≡ map (said line.now) tokens.now) }
{
    let mut symbols = Vec::with_capacity(alloc, tokens.len())?;
    for token in tokens {
        symbols.push(symbol_at(line, token))?;
    }
    Ok(symbols)
}

// Whether the only token is the word `words`.
fn says_words(said: &[Symbol<'_>]) -> bool
    ensures { result ≡ says_words (tokens_seen said.now) }
{
    match said {
        [Symbol::Word(word)] => *word == b"words".as_slice(),
        _ => false,
    }
}
