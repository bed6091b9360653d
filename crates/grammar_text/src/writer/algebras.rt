//! Algebras with their terms.

ghost use Rattle.std.specs.Prelude.{◌≡◌, ◌+◌, ◌++◌, ◌∷◌, OnOk, codes};
ghost use Rattle.std.specs.Fmt.{decimal};
ghost use Rattle.std.specs.List.{flat_map, zip};
ghost use Rattle.adp_model.specs.Ascii.{small_x};
ghost use Rattle.adp_model.specs.WideTerms.{form_of};
ghost use Rattle.job_texts.specs.Spelling.{algebra_lines, factor_text, factors_text, goal_text, let_line, linear_text, part_text, separated, term_text, variables, wide_text};

use adp_model::{Algebra, Goal, Kind, Linear, Sign, Term, Wide, push_decimal, push_signed};
use std::alloc::AllocError;

pub(crate) fn push_algebras(
    out: &mut Vec<u8>,
    signs: &[Sign],
    algebras: &[Algebra],
) -> Result<(), AllocError>
    ensures { OnOk result (out.new.items ≡ out.old.items ++ flat_map (algebra_lines signs.now) algebras.now) }
{
    for algebra in algebras {
        push_algebra(out, signs, algebra)?;
    }
    Ok(())
}

fn push_algebra(out: &mut Vec<u8>, signs: &[Sign], algebra: &Algebra) -> Result<(), AllocError>
    ensures { OnOk result (out.new.items ≡ out.old.items ++ algebra_lines signs.now algebra.now) }
{
    out.extend_from_slice(b"algebra ")?;
    out.extend_from_slice(algebra.name.bytes())?;
    out.extend_from_slice(b" ")?;
    push_goal(out, algebra.goal)?;
    out.extend_from_slice(b"\n")?;
    push_lets(out, signs, algebra.terms.as_slice())
}

fn push_goal(out: &mut Vec<u8>, goal: Goal) -> Result<(), AllocError>
    ensures { OnOk result (out.new.items ≡ out.old.items ++ goal_text goal) }
{
    match goal {
        Goal::Least => out.extend_from_slice(b"min"),
        Goal::Greatest => out.extend_from_slice(b"max"),
    }
}

fn push_lets(out: &mut Vec<u8>, signs: &[Sign], terms: &[Term]) -> Result<(), AllocError>
    ensures { OnOk result (out.new.items ≡ out.old.items ++ flat_map let_line (zip signs.now terms.now)) }
{
    for (sign, term) in signs.iter().zip(terms) {
        push_let(out, sign, term)?;
    }
    Ok(())
}

fn push_let(out: &mut Vec<u8>, sign: &Sign, term: &Term) -> Result<(), AllocError>
    ensures { OnOk result (out.new.items ≡ out.old.items ++ let_line (sign.now, term.now)) }
{
    push_head(out, sign)?;
    push_term(out, term)?;
    out.extend_from_slice(b"\n")
}

/// `let NAME(x1, x2) = `
fn push_head(out: &mut Vec<u8>, sign: &Sign) -> Result<(), AllocError>
    ensures { OnOk result (out.new.items ≡ out.old.items ++ (codes "let " ++ sign.now.name
        ++ codes "(" ++ separated (λ name. name) (codes ", ") (variables 1 sign.now.kinds) ++ codes ") = ")) }
{
    out.extend_from_slice(b"let ")?;
    out.extend_from_slice(sign.name.bytes())?;
    out.extend_from_slice(b"(")?;
    push_variables(out, sign.kinds.as_slice())?;
    out.extend_from_slice(b") = ")
}

/// A variable for each kind: `x1, x2` and so on.
fn push_variables(out: &mut Vec<u8>, kinds: &[Kind]) -> Result<(), AllocError>
    ensures { OnOk result (out.new.items ≡ out.old.items
        ++ separated (λ name. name) (codes ", ") (variables 1 kinds.now)) }
{
    for index in 0..kinds.len() {
        let before = if index == 0 { "x" } else { ", x" };
        out.extend_from_slice(before.as_bytes())?;
        push_decimal(out, index as u64 + 1)?;
    }
    Ok(())
}

fn push_term(out: &mut Vec<u8>, term: &Term) -> Result<(), AllocError>
    ensures { OnOk result (out.new.items ≡ out.old.items ++ term_text term.now) }
{
    match term {
        Term::Linear(term) => push_linear(out, term),
        Term::Wide(term) => push_wide(out, term.root()),
    }
}

/// A wide term: its root goes without brackets.
fn push_wide(out: &mut Vec<u8>, term: &Wide) -> Result<(), AllocError>
    ensures { OnOk result (out.new.items ≡ out.old.items ++ wide_text (form_of term.now)) }
{
    match term {
        Wide::Sum(left, right) => push_between(out, left, b" + ", right),
        Wide::Difference(left, right) => push_between(out, left, b" - ", right),
        Wide::Product(left, right) => push_between(out, left, b" * ", right),
        _ => push_part(out, term),
    }
}

/// Two parts with a mark between them.
#[cycle(part)]
fn push_between(out: &mut Vec<u8>, left: &Wide, mark: &[u8], right: &Wide) -> Result<(), AllocError>
    ensures { OnOk result (out.new.items ≡ out.old.items
        ++ (part_text (form_of left.now) ++ mark.now ++ part_text (form_of right.now))) }
{
    push_part(out, left)?;
    out.extend_from_slice(mark)?;
    push_part(out, right)
}

/// A wide term as a part of another: `x1`, `(1 + x1)` or `max(x1, x2)`.
#[cycle(part)]
fn push_part(out: &mut Vec<u8>, term: &Wide) -> Result<(), AllocError>
    ensures { OnOk result (out.new.items ≡ out.old.items ++ part_text (form_of term.now)) }
{
    match term {
        Wide::Number(number) => push_signed(out, *number),
        Wide::Value(place) => push_value(out, *place),
        Wide::Sum(left, right) => push_pair(out, b"(", left, b" + ", right),
        Wide::Difference(left, right) => push_pair(out, b"(", left, b" - ", right),
        Wide::Product(left, right) => push_pair(out, b"(", left, b" * ", right),
        Wide::Greater(left, right) => push_pair(out, b"max(", left, b", ", right),
        Wide::Lesser(left, right) => push_pair(out, b"min(", left, b", ", right),
    }
}

fn push_value(out: &mut Vec<u8>, place: u32) -> Result<(), AllocError>
    ensures { OnOk result (out.new.items ≡ out.old.items ++ small_x ∷ decimal (place + 1)) }
{
    out.extend_from_slice(b"x")?;
    push_decimal(out, u64::from(place) + 1)
}

/// Two parts with a mark between them, from an opening bracket to the closing one.
#[cycle(part)]
fn push_pair(
    out: &mut Vec<u8>,
    open: &[u8],
    left: &Wide,
    mark: &[u8],
    right: &Wide,
) -> Result<(), AllocError>
    ensures { OnOk result (out.new.items ≡ out.old.items
        ++ (open.now ++ part_text (form_of left.now) ++ mark.now ++ part_text (form_of right.now) ++ codes ")")) }
{
    out.extend_from_slice(open)?;
    push_between(out, left, mark, right)?;
    out.extend_from_slice(b")")
}

fn push_linear(out: &mut Vec<u8>, term: &Linear) -> Result<(), AllocError>
    ensures { OnOk result (out.new.items ≡ out.old.items ++ linear_text term.now) }
{
    push_signed(out, term.constant)?;
    push_factors(out, term.factors.as_slice())
}

fn push_factors(out: &mut Vec<u8>, factors: &[i64]) -> Result<(), AllocError>
    ensures { OnOk result (out.new.items ≡ out.old.items ++ factors_text 1 factors.now) }
{
    for (index, factor) in factors.iter().enumerate() {
        push_factor(out, index as u64 + 1, *factor)?;
    }
    Ok(())
}

/// ` + 3*x2` or ` - 3*x2`, and nothing for the factor 0.
fn push_factor(out: &mut Vec<u8>, number: u64, factor: i64) -> Result<(), AllocError>
    ensures { OnOk result (out.new.items ≡ out.old.items ++ factor_text number factor) }
{
    if factor == 0 {
        return Ok(());
    }
    out.extend_from_slice(if factor < 0 { b" - " } else { b" + " })?;
    push_decimal(out, factor.unsigned_abs())?;
    out.extend_from_slice(b"*x")?;
    push_decimal(out, number)
}
