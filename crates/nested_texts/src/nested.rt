// The alternatives that stand as arguments in a rule.

ghost use Rattle.std.specs.Prelude.{◌≡◌, ◌∷◌, ◌≤◌, List, ℕ, drop, length, map, All, IfOk, OnOk};
ghost use Rattle.algebra_terms.specs.Tokens.{IsIn, placed, symbol_of};
ghost use Rattle.nested_texts.specs.NestedRules as rules;
ghost use Rattle.nested_texts.specs.Seen.{closes_seen, from_before, nested_seen, AreInside, IsScan, IsScanOf, IsWithin};

use crate::pile::Pile;
use algebra_terms::{Symbol, Token, symbol_at};
use std::alloc::{AllocError, Global};

/// An alternative that stands as an argument: the bytes of its line from `from` to before `to`, in how many
/// alternatives it lies, and how many of those that begin next lie in it.
#[derive(Clone, Copy, Debug)]
pub(crate) struct Nested {
    pub(crate) depth: usize,
    pub(crate) from: u32,
    pub(crate) to: u32,
    pub(crate) inside: usize,
}

/// Where an alternative ends that is open, and how many of those that stand as arguments begin behind that.
#[derive(Clone, Copy, Debug)]
pub(crate) struct Close {
    to: u32,
    behind: usize,
}

/// The alternatives that stand as arguments in a rule of the nested shape, in the order in which they begin. The
/// tokens are gone through from the last to the first, so that the end of an alternative is known when it is found.
pub(crate) fn nested_of(
    alloc: Global,
    line: &[u8],
    tokens: &[Token],
) -> Result<Vec<Nested>, AllocError>
    requires { All (IsIn line.now) tokens.now }
    ensures found { IfOk result (λ found. map nested_seen found.items
        ≡ rules.nested_behind 0 (map (placed line.now) tokens.now)) }
    ensures inside { IfOk result (λ found. AreInside found.items) }
    ensures within { IfOk result (λ found. All (IsWithin line.now) found.items) }
{
    let mut closes = Pile::new(alloc);
    let mut found = Pile::new(alloc);
    let mut at = tokens.len();
    while at > 0 {
        at -= 1;
        let token = &tokens[at];
        let from = from_before(tokens, at);
        take(
            &mut closes,
            &mut found,
            symbol_at(line, token),
            from,
            token.to,
        )?;
    }
    Ok(found.into_vec())
}

// Where the token before this place begins; 0 at the first one.
fn from_before(tokens: &[Token], at: usize) -> u32
    requires { at ≤ length tokens.now }
    ensures { result ≡ from_before tokens.now at }
{
    if at == 0 { 0 } else { tokens[at - 1].from }
}

// Takes a token that ends at `to`; the one before it begins at `from`.
fn take(
    closes: &mut Pile<Close>,
    found: &mut Pile<Nested>,
    symbol: Symbol<'_>,
    from: u32,
    to: u32,
) -> Result<(), AllocError>
    requires { IsScan closes.old found.old }
    ensures scan { OnOk result (IsScan closes.new found.new) }
    ensures within { OnOk result ((line : List ℕ) → from ≤ length line → to ≤ length line
        → IsScanOf line closes.old found.old → IsScanOf line closes.new found.new) }
    ensures closes { OnOk result (closes_seen closes.new
        ≡ rules.ends_at (symbol_of symbol.entry) to (closes_seen closes.old)) }
    ensures found { OnOk result (map nested_seen found.new
        ≡ rules.nested_at (symbol_of symbol.entry) from (closes_seen closes.old) (map nested_seen found.old)) }
{
    match symbol {
        Symbol::OpenBracket => at_open(closes, found, from),
        Symbol::CloseBracket => at_close(closes, found, to),
        _ => Ok(()),
    }
}

// An opening bracket: the alternative that is open behind it begins here.
fn at_open(closes: &mut Pile<Close>, found: &mut Pile<Nested>, from: u32) -> Result<(), AllocError>
    requires { IsScan closes.old found.old }
    ensures scan { OnOk result (IsScan closes.new found.new) }
    ensures within { OnOk result ((line : List ℕ) → from ≤ length line
        → IsScanOf line closes.old found.old → IsScanOf line closes.new found.new) }
    ensures closes { OnOk result (closes_seen closes.new ≡ drop 1 (closes_seen closes.old)) }
    ensures found { OnOk result (map nested_seen found.new
        ≡ rules.with_nested from (closes_seen closes.old) (map nested_seen found.old)) }
{
    let open = closes.len();
    match closes.pop() {
        Some(close) if open > 1 => {
            let inside = found.len() - close.behind;
            found.push(Nested {
                depth: open - 1,
                from,
                to: close.to,
                inside,
            })?;
            Ok(())
        }
        _ => Ok(()),
    }
}

// A closing bracket, which ends here: an alternative is open before it.
fn at_close(closes: &mut Pile<Close>, found: &Pile<Nested>, to: u32) -> Result<(), AllocError>
    requires { IsScan closes.old found.now }
    ensures scan { OnOk result (IsScan closes.new found.now) }
    ensures within { OnOk result ((line : List ℕ) → to ≤ length line
        → IsScanOf line closes.old found.now → IsScanOf line closes.new found.now) }
    ensures closes { OnOk result (closes_seen closes.new ≡ to ∷ closes_seen closes.old) }
{
    closes.push(Close {
        to,
        behind: found.len(),
    })
}
