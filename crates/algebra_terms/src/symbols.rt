ghost use Rattle.std.specs.Prelude.{◌≡◌, ◌∷◌, ◌<◌, [], length, map, unwrap_or, All, IfSome, MatchOption};
ghost use Rattle.job_texts.specs.LineTokens.{Dots, mark_of};
ghost use Rattle.algebra_terms.specs.Tokens.{IsClosed, IsIn, said, symbol_of};

use crate::lexer::{Token, TokenKind};

/// What a token says, and the bytes that it says it with.
#[derive(Clone, Copy, Debug)]
pub enum Symbol<'a> {
    /// A longest run of letters, digits and `_`.
    Word(&'a [u8]),
    /// A quoted text from behind its first `"` up to and with its last.
    Quoted(&'a [u8]),
    Equals,
    OpenBracket,
    CloseBracket,
    Comma,
    OpenSquare,
    CloseSquare,
    Bar,
    Plus,
    Minus,
    Times,
    Dots,
}

/// The mark that this byte is; `..` where it is none.
fn mark(byte: u8) -> Symbol<'static>
    ensures { symbol_of result ≡ unwrap_or (mark_of byte) Dots }
{
    match byte {
        b'=' => Symbol::Equals,
        b'(' => Symbol::OpenBracket,
        b')' => Symbol::CloseBracket,
        b',' => Symbol::Comma,
        b'[' => Symbol::OpenSquare,
        b']' => Symbol::CloseSquare,
        b'|' => Symbol::Bar,
        b'+' => Symbol::Plus,
        b'-' => Symbol::Minus,
        b'*' => Symbol::Times,
        _ => Symbol::Dots,
    }
}

/// What a token of this line says.
pub fn symbol_at<'a>(line: &'a [u8], token: &Token) -> Symbol<'a>
    requires { IsIn line.now token.now }
    ensures says { symbol_of result ≡ said line.now token.now }
    ensures closed { IsClosed result }
{
    let bytes = &line[token.from as usize..token.to as usize];
    match token.kind {
        TokenKind::Word => Symbol::Word(bytes),
        TokenKind::Quoted => Symbol::Quoted(&bytes[1..]),
        TokenKind::Mark => mark(bytes[0]),
        TokenKind::Dots => Symbol::Dots,
    }
}

/// What the first of these tokens of a line says, and the tokens after it.
pub fn split_symbol<'a, 'b>(
    line: &'a [u8],
    tokens: &'b [Token],
) -> Option<(Symbol<'a>, &'b [Token])>
    requires { All (IsIn line.now) tokens.now }
    ensures says { MatchOption result (tokens.now ≡ [])
        (λ found. map (said line.now) tokens.now ≡ symbol_of found.0 ∷ map (said line.now) found.1.now) }
    ensures within { IfSome result (λ found. All (IsIn line.now) found.1.now) }
    ensures shorter { IfSome result (λ found. length found.1.now < length tokens.now) }
{
    let (first, rest) = tokens.split_first()?;
    Some((symbol_at(line, first), rest))
}
