// The rules that declarations declare.

ghost use Rattle.std.specs.Prelude.{◌≡◌, true, List, map, IfOk};
ghost use Rattle.std.specs.List.{filter_map, list_all};
ghost use Rattle.job_texts.specs.Declarations as forms;
ghost use Rattle.job_texts.specs.JobText as texts;
ghost use Rattle.adp_model.specs.Printable.{IsPrintable};
ghost use Rattle.algebra_terms.specs.Tokens.{letters_behind};
ghost use Rattle.grammar_text.specs.Building.{are_buildable, is_buildable, is_printable_alternative, is_printable_argument};
ghost use Rattle.grammar_text.specs.Names.{AreNames};
ghost use Rattle.grammar_text.specs.Seen.{alternative_seen, argument_seen, declaration_seen, kept_size_seen};
ghost use Rattle.std.specs.Option.{option_and_then, option_copied, option_map};
ghost use Rattle.job_texts.specs.TextFaults.{bound_of};

use crate::reader::declaration::{Alternative, Argument, Declaration, SizeWords};
use crate::reader::judge::{bound_of, text_of};
use crate::reader::letters::push_letters;
use crate::reader::names::Names;
use adp_model::{Alt, Arg, Rule, Sequence, Size, Text};
use std::alloc::{AllocError, Global};

/// The rules that these, whose names these are, declare.
pub(crate) fn rules(
    alloc: Global,
    declared: &[Declaration<'_>],
    names: &Names<'_>,
) -> Result<Vec<Rule>, AllocError>
    requires { are_buildable (map declaration_seen declared.now) ≡ true }
    ensures { IfOk result (λ rules. (all : List forms.Declaration) → AreNames names.now all
        → rules.items ≡ filter_map (texts.declared_rule all) (map declaration_seen declared.now)) }
{
    let mut rules = Vec::new(alloc);
    for declaration in declared {
        if let Some(rule) = rule_of(alloc, declaration, names)? {
            rules.push(rule)?;
        }
    }
    Ok(rules)
}

fn rule_of(
    alloc: Global,
    declaration: &Declaration<'_>,
    names: &Names<'_>,
) -> Result<Option<Rule>, AllocError>
    requires { is_buildable (declaration_seen declaration.now) ≡ true }
    ensures { IfOk result (λ rule. (all : List forms.Declaration) → AreNames names.now all
        → rule ≡ texts.declared_rule all (declaration_seen declaration.now)) }
{
    let Declaration::Rule { name, alternatives } = declaration else {
        return Ok(None);
    };
    let name = text_of(alloc, name)?;
    let alts = alternatives_of(alloc, alternatives, names)?;
    Ok(Some(Rule {
        name,
        alts: Sequence::new(alts),
    }))
}

fn alternatives_of(
    alloc: Global,
    alternatives: &[Alternative<'_>],
    names: &Names<'_>,
) -> Result<Vec<Alt>, AllocError>
    requires { list_all is_printable_alternative (map alternative_seen alternatives.now) ≡ true }
    ensures { IfOk result (λ alts. (all : List forms.Declaration) → AreNames names.now all
        → alts.items ≡ map (texts.alternative_of all) (map alternative_seen alternatives.now)) }
{
    let mut alts = Vec::with_capacity(alloc, alternatives.len())?;
    for alternative in alternatives {
        alts.push(alternative_of(alloc, alternative, names)?)?;
    }
    Ok(alts)
}

fn alternative_of(
    alloc: Global,
    alternative: &Alternative<'_>,
    names: &Names<'_>,
) -> Result<Alt, AllocError>
    requires { is_printable_alternative (alternative_seen alternative.now) ≡ true }
    ensures { IfOk result (λ alt. (all : List forms.Declaration) → AreNames names.now all
        → alt ≡ texts.alternative_of all (alternative_seen alternative.now)) }
{
    let args = arguments_of(alloc, &alternative.arguments, names)?;
    Ok(Alt {
        sign: names.sign_number(alternative.sign),
        args: Sequence::new(args),
        size: size_of(&alternative.size),
    })
}

fn size_of(size: &Option<Box<SizeWords<'_>>>) -> Option<Size>
    ensures { result ≡ option_map texts.size_of (kept_size_seen size.now) }
{
    match size {
        None => None,
        Some(size) => Some(Size {
            low: bound_of(size.low).unwrap_or(0),
            high: high_bound(size.high),
        }),
    }
}

fn high_bound(word: Option<&[u8]>) -> Option<u32>
    ensures { result ≡ option_and_then bound_of (option_copied word.entry) }
{
    match word {
        Some(word) => bound_of(word),
        None => None,
    }
}

fn arguments_of(
    alloc: Global,
    arguments: &[Argument<'_>],
    names: &Names<'_>,
) -> Result<Vec<Arg>, AllocError>
    requires { list_all is_printable_argument (map argument_seen arguments.now) ≡ true }
    ensures { IfOk result (λ args. (all : List forms.Declaration) → AreNames names.now all
        → args.items ≡ map (texts.argument_of all) (map argument_seen arguments.now)) }
{
    let mut args = Vec::with_capacity(alloc, arguments.len())?;
    for argument in arguments {
        args.push(argument_of(alloc, argument, names)?)?;
    }
    Ok(args)
}

fn argument_of(alloc: Global, argument: &Argument<'_>, names: &Names<'_>) -> Result<Arg, AllocError>
    requires { is_printable_argument (argument_seen argument.now) ≡ true }
    ensures { IfOk result (λ arg. (all : List forms.Declaration) → AreNames names.now all
        → arg ≡ texts.argument_of all (argument_seen argument.now)) }
{
    match argument {
        Argument::Named(rule) => Ok(Arg::Rule(names.rule_number(rule))),
        Argument::Spelled(letters) => Ok(Arg::Literal(literal(alloc, letters)?)),
        Argument::OneOf(class) => Ok(Arg::Letter(names.class_number(class))),
        Argument::RunOf { class, low, high } => Ok(Arg::Run {
            class: names.class_number(class),
            low: bound_of(low).unwrap_or(0),
            high: bound_of(high),
        }),
        Argument::RunFrom { class, low } => Ok(Arg::Run {
            class: names.class_number(class),
            low: bound_of(low).unwrap_or(0),
            high: None,
        }),
    }
}

fn literal(alloc: Global, spelled: &[u8]) -> Result<Text, AllocError>
    requires { IsPrintable (letters_behind spelled.now) }
    ensures { IfOk result (λ text. text ≡ letters_behind spelled.now) }
{
    let mut letters = Vec::new(alloc);
    push_letters(&mut letters, spelled)?;
    Ok(Text::new(letters))
}
