ghost use Rattle.std.specs.Prelude.{◌≡◌, ◌==◌, List, ℕ, map, nat_eq};
ghost use Rattle.std.specs.List.{list_all, list_any, zip};
ghost use lib.Pointwise.{pointwise};
ghost use Rattle.adp_model.specs.Printable.{is_printable_byte};
ghost use Rattle.adp_model.specs.WellFormed.{is_alternative, is_argument, is_class, is_entry, is_high_bound, is_in_range, is_name, is_rule, is_sign, is_size, is_term, is_word_byte};
ghost use Rattle.adp_model.specs.WellFormed.{are_distinct, counts_fit, is_algebra, is_well_formed, letters_are_distinct, names_differ, parts_fit};

use crate::formed_terms::{is_in_range, is_term};
use crate::grammar::{Algebra, Alt, Arg, Class, Grammar, Kind, Rule, Sign, Size, Term};
use crate::sequence::Sequence;
use crate::text::{Text, is_printable, is_printable_byte};

/// The greatest bound of a run.
const GREATEST_BOUND: u32 = 1_000_000;

/// Whether these bytes are a name: a letter, then at most 31 letters, digits or `_`.
pub fn is_name(bytes: &[u8]) -> bool
    ensures { result ≡ is_name bytes.now }
{
    match bytes.split_first() {
        None => false,
        Some((first, others)) => {
            first.is_ascii_alphabetic() && are_word_bytes(others) && others.len() <= 31
        }
    }
}

fn are_word_bytes(bytes: &[u8]) -> bool
    ensures { result ≡ list_all is_word_byte bytes.now }
{
    bytes.iter().all(|byte| is_word_byte(*byte))
}

/// Whether the byte is a letter, a digit or `_`, as all bytes of a word are.
pub fn is_word_byte(byte: u8) -> bool
    ensures { result ≡ is_word_byte byte }
{
    byte.is_ascii_alphanumeric() || byte == b'_'
}

/// Something with a name.
trait Named {
    ghost name_of: { Self → List ℕ };

    fn name(&self) -> &Text
        ensures { result.now ≡ name_of self.now };
}

impl Named for Class {
    ghost name_of = { λ class. class.name };

    fn name(&self) -> &Text {
        &self.name
    }
}

impl Named for Sign {
    ghost name_of = { λ sign. sign.name };

    fn name(&self) -> &Text {
        &self.name
    }
}

impl Named for Algebra {
    ghost name_of = { λ algebra. algebra.name };

    fn name(&self) -> &Text {
        &self.name
    }
}

impl Named for Rule {
    ghost name_of = { λ rule. rule.name };

    fn name(&self) -> &Text {
        &self.name
    }
}

fn have_distinct_names<T: Named>(items: &Sequence<T>) -> bool
    ensures { result ≡ are_distinct (map T.name_of items.now) }
{
    let mut rest = items.as_slice();
    while let Some((first, others)) = rest.split_first() {
        if is_among(first.name(), others) {
            return false;
        }
        rest = others;
    }
    true
}

fn is_among<T: Named>(name: &Text, items: &[T]) -> bool
    ensures { result ≡ list_any (λ item. pointwise nat_eq name.now (T.name_of item)) items.now }
{
    items.iter().any(|item| name.bytes() == item.name().bytes())
}

fn have_distinct_letters(entries: &[(u8, i64)]) -> bool
    ensures { result ≡ letters_are_distinct entries.now }
{
    let mut rest = entries;
    while let Some((first, others)) = rest.split_first() {
        if is_letter_among(first.0, others) {
            return false;
        }
        rest = others;
    }
    true
}

fn is_letter_among(letter: u8, entries: &[(u8, i64)]) -> bool
    ensures { result ≡ list_any (λ entry. letter == entry.0) entries.now }
{
    entries.iter().any(|entry| letter == entry.0)
}

fn is_entry(entry: (u8, i64)) -> bool
    ensures { result ≡ is_entry entry }
{
    is_printable_byte(entry.0) && is_in_range(entry.1)
}

fn are_entries(entries: &[(u8, i64)]) -> bool
    ensures { result ≡ list_all is_entry entries.now }
{
    entries.iter().all(|entry| is_entry(*entry))
}

fn is_class(class: &Class) -> bool
    ensures { result ≡ is_class class.now }
{
    let letters = class.letters.as_slice();
    is_name(class.name.bytes())
        && !letters.is_empty()
        && are_entries(letters)
        && have_distinct_letters(letters)
}

fn is_sign(sign: &Sign) -> bool
    ensures { result ≡ is_sign sign.now }
{
    let kinds = sign.kinds.as_slice().len();
    is_name(sign.name.bytes()) && 1 <= kinds && kinds <= 4
}

fn are_terms(signs: &[Sign], terms: &[Term]) -> bool
    ensures { result ≡ list_all is_term (zip signs.now terms.now) }
{
    signs
        .iter()
        .zip(terms)
        .all(|(sign, term)| is_term(sign, term))
}

fn is_algebra(signs: &[Sign], algebra: &Algebra) -> bool
    ensures { result ≡ is_algebra signs.now algebra.now }
{
    let terms = algebra.terms.as_slice();
    is_name(algebra.name.bytes()) && terms.len() == signs.len() && are_terms(signs, terms)
}

fn is_high_bound(low: u32, high: Option<u32>) -> bool
    ensures { result ≡ is_high_bound low high }
{
    match high {
        None => true,
        Some(high) => low <= high && high <= GREATEST_BOUND,
    }
}

// A text has no other letters.
fn has_printable_letters(text: &Text) -> bool
    ensures { result ≡ list_all is_printable_byte text.now }
{
    is_printable(text.bytes())
}

fn is_argument(grammar: &Grammar, kind: Kind, argument: &Arg) -> bool
    ensures { result ≡ is_argument grammar.now (kind, argument.now) }
{
    let classes = grammar.classes.as_slice().len();
    match (kind, argument) {
        (Kind::Score, Arg::Rule(rule)) => (*rule as usize) < grammar.rules.as_slice().len(),
        (Kind::Score, _) | (Kind::Token, Arg::Rule(_)) => false,
        (Kind::Token, Arg::Literal(text)) => has_printable_letters(text),
        (Kind::Token, Arg::Letter(class)) => (*class as usize) < classes,
        (Kind::Token, Arg::Run { class, low, high }) => {
            (*class as usize) < classes && *low <= GREATEST_BOUND && is_high_bound(*low, *high)
        }
    }
}

fn are_arguments(grammar: &Grammar, kinds: &[Kind], arguments: &[Arg]) -> bool
    ensures { result ≡ list_all (is_argument grammar.now) (zip kinds.now arguments.now) }
{
    kinds
        .iter()
        .zip(arguments)
        .all(|(kind, argument)| is_argument(grammar, *kind, argument))
}

fn is_size(size: Option<Size>) -> bool
    ensures { result ≡ is_size size }
{
    match size {
        None => true,
        Some(size) => size.low <= GREATEST_BOUND && is_high_bound(size.low, size.high),
    }
}

fn is_alternative(grammar: &Grammar, alternative: &Alt) -> bool
    ensures { result ≡ is_alternative grammar.now alternative.now }
{
    let Some(sign) = grammar.signs.as_slice().get(alternative.sign as usize) else {
        return false;
    };
    let kinds = sign.kinds.as_slice();
    let arguments = alternative.args.as_slice();
    is_size(alternative.size)
        && arguments.len() == kinds.len()
        && are_arguments(grammar, kinds, arguments)
}

fn are_alternatives(grammar: &Grammar, alternatives: &[Alt]) -> bool
    ensures { result ≡ list_all (is_alternative grammar.now) alternatives.now }
{
    alternatives
        .iter()
        .all(|alternative| is_alternative(grammar, alternative))
}

fn is_rule(grammar: &Grammar, rule: &Rule) -> bool
    ensures { result ≡ is_rule grammar.now rule.now }
{
    let alternatives = rule.alts.as_slice();
    is_name(rule.name.bytes())
        && 1 <= alternatives.len()
        && alternatives.len() <= 64
        && are_alternatives(grammar, alternatives)
}

fn counts_fit(grammar: &Grammar) -> bool
    ensures { result ≡ counts_fit grammar.now }
{
    let algebras = grammar.algebras.as_slice().len();
    let rules = grammar.rules.as_slice().len();
    grammar.classes.as_slice().len() <= 64
        && grammar.signs.as_slice().len() <= 256
        && 1 <= algebras
        && algebras <= 16
        && rules <= 128
        && (grammar.axiom as usize) < rules
}

fn names_differ(grammar: &Grammar) -> bool
    ensures { result ≡ names_differ grammar.now }
{
    have_distinct_names(&grammar.classes)
        && have_distinct_names(&grammar.signs)
        && have_distinct_names(&grammar.algebras)
        && have_distinct_names(&grammar.rules)
}

fn are_classes(classes: &[Class]) -> bool
    ensures { result ≡ list_all is_class classes.now }
{
    classes.iter().all(is_class)
}

fn are_signs(signs: &[Sign]) -> bool
    ensures { result ≡ list_all is_sign signs.now }
{
    signs.iter().all(is_sign)
}

fn are_algebras(signs: &[Sign], algebras: &[Algebra]) -> bool
    ensures { result ≡ list_all (is_algebra signs.now) algebras.now }
{
    algebras.iter().all(|algebra| is_algebra(signs, algebra))
}

fn are_rules(grammar: &Grammar, rules: &[Rule]) -> bool
    ensures { result ≡ list_all (is_rule grammar.now) rules.now }
{
    rules.iter().all(|rule| is_rule(grammar, rule))
}

fn parts_fit(grammar: &Grammar) -> bool
    ensures { result ≡ parts_fit grammar.now }
{
    let signs = grammar.signs.as_slice();
    are_classes(grammar.classes.as_slice())
        && are_signs(signs)
        && are_algebras(signs, grammar.algebras.as_slice())
        && are_rules(grammar, grammar.rules.as_slice())
}

/// Whether the grammar is well-formed: names, numbers, indices and kinds fit together, and counts keep their limits.
pub fn is_well_formed(grammar: &Grammar) -> bool
    ensures { result ≡ is_well_formed grammar.now }
{
    counts_fit(grammar) && names_differ(grammar) && parts_fit(grammar)
}
