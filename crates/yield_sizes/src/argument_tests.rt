ghost use Rattle.std.specs.Prelude.{◌≡◌};
ghost use Rattle.std.specs.List.{list_all, list_any};
ghost use Rattle.yield_sizes.specs.ArgumentTests.{can_be_empty, can_be_nonempty, has_rule, is_empty_but, is_named_before, is_named_behind, is_rule};

use adp_model::{Alt, Arg};

fn is_rule(rule: usize, argument: &Arg) -> bool
    ensures { result ≡ is_rule rule argument.now }
{
    match argument {
        Arg::Rule(other) => *other as usize == rule,
        _ => false,
    }
}

fn are_with_rule(rule: usize, arguments: &[Arg]) -> bool
    ensures { result ≡ list_any (is_rule rule) arguments.now }
{
    arguments.iter().any(|argument| is_rule(rule, argument))
}

/// Whether an argument of the alternative is this rule.
pub fn has_rule(rule: usize, alternative: &Alt) -> bool
    ensures { result ≡ has_rule rule alternative.now }
{
    are_with_rule(rule, alternative.args.as_slice())
}

fn can_be_empty(least: &[u32], argument: &Arg) -> bool
    ensures { result ≡ can_be_empty least.now argument.now }
{
    match argument {
        Arg::Rule(rule) => least.get(*rule as usize).copied() == Some(0),
        Arg::Literal(text) => text.bytes().is_empty(),
        Arg::Letter(_) => false,
        Arg::Run { low, .. } => *low == 0,
    }
}

fn can_all_be_empty(least: &[u32], arguments: &[Arg]) -> bool
    ensures { result ≡ list_all (can_be_empty least.now) arguments.now }
{
    arguments
        .iter()
        .all(|argument| can_be_empty(least, argument))
}

/// Whether one of the arguments is this rule, and all others can be empty.
pub fn is_empty_but(least: &[u32], rule: usize, arguments: &[Arg]) -> bool
    ensures { result ≡ is_empty_but least.now rule arguments.now }
{
    let mut rest = arguments;
    while let Some((first, others)) = rest.split_first() {
        if is_rule(rule, first) && can_all_be_empty(least, others) {
            return true;
        }
        if !can_be_empty(least, first) {
            return false;
        }
        rest = others;
    }
    false
}

fn can_be_nonempty(greatest: &[Option<u32>], argument: &Arg) -> bool
    ensures { result ≡ can_be_nonempty greatest.now argument.now }
{
    match argument {
        Arg::Rule(rule) => greatest.get(*rule as usize).copied().flatten() != Some(0),
        Arg::Literal(text) => !text.bytes().is_empty(),
        Arg::Letter(_) => true,
        Arg::Run { high, .. } => *high != Some(0),
    }
}

fn can_some_be_nonempty(greatest: &[Option<u32>], arguments: &[Arg]) -> bool
    ensures { result ≡ list_any (can_be_nonempty greatest.now) arguments.now }
{
    arguments
        .iter()
        .any(|argument| can_be_nonempty(greatest, argument))
}

/// Whether one of the arguments is this rule, and one before it can be nonempty.
pub fn is_named_behind(greatest: &[Option<u32>], rule: usize, arguments: &[Arg]) -> bool
    ensures { result ≡ is_named_behind greatest.now rule arguments.now }
{
    let mut rest = arguments;
    while let Some((first, others)) = rest.split_first() {
        if can_be_nonempty(greatest, first) && are_with_rule(rule, others) {
            return true;
        }
        rest = others;
    }
    false
}

/// Whether one of the arguments is this rule, and one after it can be nonempty.
pub fn is_named_before(greatest: &[Option<u32>], rule: usize, arguments: &[Arg]) -> bool
    ensures { result ≡ is_named_before greatest.now rule arguments.now }
{
    let mut rest = arguments;
    while let Some((first, others)) = rest.split_first() {
        if is_rule(rule, first) && can_some_be_nonempty(greatest, others) {
            return true;
        }
        rest = others;
    }
    false
}
