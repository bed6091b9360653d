//! Rules with their alternatives, and the axiom.

ghost use Rattle.std.specs.Prelude.{◌≡◌, ◌++◌, OnOk, codes};
ghost use Rattle.std.specs.Fmt.{decimal};
ghost use Rattle.std.specs.List.{flat_map};
ghost use Rattle.adp_model.specs.Parts.{sign_at};
ghost use Rattle.adp_model.specs.Report.{line};
ghost use Rattle.job_texts.specs.Spelling.{alternative_text, argument_text, class_name, high_text, rule_line, rule_name, separated, size_text};

use adp_model::{Alt, Arg, Grammar, Rule, Size, push_decimal, push_quoted};
use std::alloc::AllocError;

pub(crate) fn push_rules(out: &mut Vec<u8>, grammar: &Grammar) -> Result<(), AllocError>
    ensures { OnOk result (out.new.items ≡ out.old.items ++ flat_map (rule_line grammar.now) grammar.now.rules) }
{
    for rule in grammar.rules.as_slice() {
        push_rule(out, grammar, rule)?;
    }
    Ok(())
}

pub(crate) fn push_axiom(out: &mut Vec<u8>, grammar: &Grammar) -> Result<(), AllocError>
    ensures { OnOk result (out.new.items ≡ out.old.items
        ++ line (codes "grammar " ++ rule_name grammar.now grammar.now.axiom)) }
{
    out.extend_from_slice(b"grammar ")?;
    out.extend_from_slice(rule_name(grammar, grammar.axiom))?;
    out.extend_from_slice(b"\n")
}

fn push_rule(out: &mut Vec<u8>, grammar: &Grammar, rule: &Rule) -> Result<(), AllocError>
    ensures { OnOk result (out.new.items ≡ out.old.items ++ rule_line grammar.now rule.now) }
{
    out.extend_from_slice(b"rule ")?;
    out.extend_from_slice(rule.name.bytes())?;
    out.extend_from_slice(b" = ")?;
    push_alternatives(out, grammar, rule.alts.as_slice())?;
    out.extend_from_slice(b"\n")
}

fn push_alternatives(
    out: &mut Vec<u8>,
    grammar: &Grammar,
    alternatives: &[Alt],
) -> Result<(), AllocError>
    ensures { OnOk result (out.new.items ≡ out.old.items
        ++ separated (alternative_text grammar.now) (codes " | ") alternatives.now) }
{
    if let Some((first, others)) = alternatives.split_first() {
        push_alternative(out, grammar, first)?;
        for alternative in others {
            out.extend_from_slice(b" | ")?;
            push_alternative(out, grammar, alternative)?;
        }
    }
    Ok(())
}

fn push_alternative(
    out: &mut Vec<u8>,
    grammar: &Grammar,
    alternative: &Alt,
) -> Result<(), AllocError>
    ensures { OnOk result (out.new.items ≡ out.old.items ++ alternative_text grammar.now alternative.now) }
{
    out.extend_from_slice(sign_name(grammar, alternative.sign))?;
    out.extend_from_slice(b"(")?;
    push_arguments(out, grammar, alternative.args.as_slice())?;
    out.extend_from_slice(b")")?;
    push_size(out, alternative.size)
}

/// ` with size 2..5`, ` with size 2..`, or nothing where no size is given.
fn push_size(out: &mut Vec<u8>, size: Option<Size>) -> Result<(), AllocError>
    ensures { OnOk result (out.new.items ≡ out.old.items ++ size_text size) }
{
    let Some(size) = size else {
        return Ok(());
    };
    out.extend_from_slice(b" with size ")?;
    push_decimal(out, u64::from(size.low))?;
    out.extend_from_slice(b"..")?;
    match size.high {
        Some(high) => push_decimal(out, u64::from(high)),
        None => Ok(()),
    }
}

fn push_arguments(out: &mut Vec<u8>, grammar: &Grammar, arguments: &[Arg]) -> Result<(), AllocError>
    ensures { OnOk result (out.new.items ≡ out.old.items
        ++ separated (argument_text grammar.now) (codes ", ") arguments.now) }
{
    if let Some((first, others)) = arguments.split_first() {
        push_argument(out, grammar, first)?;
        for argument in others {
            out.extend_from_slice(b", ")?;
            push_argument(out, grammar, argument)?;
        }
    }
    Ok(())
}

fn push_argument(out: &mut Vec<u8>, grammar: &Grammar, argument: &Arg) -> Result<(), AllocError>
    ensures { OnOk result (out.new.items ≡ out.old.items ++ argument_text grammar.now argument.now) }
{
    match argument {
        Arg::Rule(rule) => out.extend_from_slice(rule_name(grammar, *rule)),
        Arg::Literal(text) => push_quoted(out, text.bytes()),
        Arg::Letter(class) => {
            out.extend_from_slice(b"[")?;
            out.extend_from_slice(class_name(grammar, *class))?;
            out.extend_from_slice(b"]")
        }
        Arg::Run { class, low, high } => {
            out.extend_from_slice(b"[")?;
            out.extend_from_slice(class_name(grammar, *class))?;
            push_bounds(out, *low, *high)
        }
    }
}

/// ` LOW..HIGH]`, or ` LOW..]` where there is no upper bound.
fn push_bounds(out: &mut Vec<u8>, low: u32, high: Option<u32>) -> Result<(), AllocError>
    ensures { OnOk result (out.new.items ≡ out.old.items
        ++ (codes " " ++ decimal low ++ codes ".." ++ high_text high ++ codes "]")) }
{
    out.extend_from_slice(b" ")?;
    push_decimal(out, u64::from(low))?;
    out.extend_from_slice(b"..")?;
    if let Some(high) = high {
        push_decimal(out, u64::from(high))?;
    }
    out.extend_from_slice(b"]")
}

fn class_name(grammar: &Grammar, class: u32) -> &[u8]
    ensures { result.now ≡ class_name grammar.now class }
{
    match grammar.classes.as_slice().get(class as usize) {
        Some(class) => class.name.bytes(),
        None => &[],
    }
}

fn rule_name(grammar: &Grammar, rule: u32) -> &[u8]
    ensures { result.now ≡ rule_name grammar.now rule }
{
    match grammar.rules.as_slice().get(rule as usize) {
        Some(rule) => rule.name.bytes(),
        None => &[],
    }
}

fn sign_name(grammar: &Grammar, sign: u32) -> &[u8]
    ensures { result.now ≡ (sign_at grammar.now sign).name }
{
    match grammar.signs.as_slice().get(sign as usize) {
        Some(sign) => sign.name.bytes(),
        None => &[],
    }
}
