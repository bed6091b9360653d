// The names that the lines of a text declare, and the tests of names that a line uses.

ghost use Rattle.std.specs.Prelude.{◌≡◌, ◌<◌, ◌≤◌, ◌^◌, map, length, IfOk, OnOk, List};
ghost use Rattle.std.specs.List.{list_all, list_any};
ghost use Rattle.std.specs.Option.{option_copied};
ghost use Rattle.job_texts.specs.Declarations as forms;
ghost use Rattle.job_texts.specs.DeclaredNames.{class_names, sign_names, rule_names, kinds_of_sign};
ghost use Rattle.job_texts.specs.TermText.{is_among};
ghost use Rattle.job_texts.specs.TextFaults as faults;
ghost use Rattle.job_texts.specs.JobText.{number_among};
ghost use Rattle.grammar_text.specs.Seen.{alternative_seen, argument_seen, declaration_seen};
ghost use Rattle.grammar_text.specs.Names.{AreNames, AreNumbers, AreSignPlaces, HasFirst, declares_its_variables, fit_kinds, name_as, names_as};

use crate::reader::declaration::{Alternative, Argument, Declaration};
use adp_model::Kind;
use std::alloc::{AllocError, Global};
use std::collections::BTreeMap;

/// The names of classes, signs and rules that declarations give, each with the number of the first of its sort that has
/// it, and the places of the first declarations of signs.
#[derive(Drop)]
pub(crate) struct Names<'a> {
    classes: BTreeMap<&'a [u8], u32>,
    signs: BTreeMap<&'a [u8], u32>,
    rules: BTreeMap<&'a [u8], u32>,
    sign_places: BTreeMap<&'a [u8], u32>,
}

impl<'a> Names<'a> {
    /// The names that these declare.
    pub(crate) fn new(alloc: Global, declared: &[Declaration<'a>]) -> Result<Names<'a>, AllocError>
        requires { length declared.now < 2 ^ 32 }
        ensures { IfOk result (λ names. AreNames names (map declaration_seen declared.now)) }
    {
        Ok(Names {
            classes: numbered(alloc, declared, Sort::Class)?,
            signs: numbered(alloc, declared, Sort::Sign)?,
            rules: numbered(alloc, declared, Sort::Rule)?,
            sign_places: sign_places(alloc, declared)?,
        })
    }

    /// Whether a class has the name.
    pub(crate) fn has_class(&self, name: &[u8]) -> bool
        ensures { (all : List forms.Declaration) → AreNames self.now all →
            result ≡ is_among (class_names all) name.now }
    {
        self.classes.get(name).is_some()
    }

    /// Whether a sign has the name.
    pub(crate) fn has_sign(&self, name: &[u8]) -> bool
        ensures { (all : List forms.Declaration) → AreNames self.now all →
            result ≡ is_among (sign_names all) name.now }
    {
        self.signs.get(name).is_some()
    }

    /// Whether a rule has the name.
    pub(crate) fn has_rule(&self, name: &[u8]) -> bool
        ensures { (all : List forms.Declaration) → AreNames self.now all →
            result ≡ is_among (rule_names all) name.now }
    {
        self.rules.get(name).is_some()
    }

    /// The number of the class of this name; 0 where there is none.
    pub(crate) fn class_number(&self, name: &[u8]) -> u32
        ensures { (all : List forms.Declaration) → AreNames self.now all →
            result ≡ number_among (class_names all) name.now }
    {
        self.classes.get(name).copied().unwrap_or(0)
    }

    /// The number of the sign of this name; 0 where there is none.
    pub(crate) fn sign_number(&self, name: &[u8]) -> u32
        ensures { (all : List forms.Declaration) → AreNames self.now all →
            result ≡ number_among (sign_names all) name.now }
    {
        self.signs.get(name).copied().unwrap_or(0)
    }

    /// The number of the rule of this name; 0 where there is none.
    pub(crate) fn rule_number(&self, name: &[u8]) -> u32
        ensures { (all : List forms.Declaration) → AreNames self.now all →
            result ≡ number_among (rule_names all) name.now }
    {
        self.rules.get(name).copied().unwrap_or(0)
    }

    /// The kinds of a sign of these declarations, whose names these are.
    pub(crate) fn kinds_of<'d>(
        &self,
        declared: &'d [Declaration<'_>],
        sign: &[u8],
    ) -> Option<&'d [Kind]>
        requires { AreNames self.now (map declaration_seen declared.now) }
        ensures { option_copied result ≡ kinds_of_sign (map declaration_seen declared.now) sign.now }
    {
        let place = *self.sign_places.get(sign)? as usize;
        match &declared[place] {
            Declaration::Sign { kinds, .. } => Some(kinds),
            _ => None,
        }
    }
}

/// A sort of declarations that give names.
#[derive(Clone, Copy)]
pub(crate) enum Sort {
    Class,
    Sign,
    Algebra,
    Rule,
}

/// The name that a declaration gives, where it is of this sort.
pub(crate) fn name_as<'a>(sort: Sort, declaration: &Declaration<'a>) -> Option<&'a [u8]>
    ensures { option_copied result ≡ name_as sort (declaration_seen declaration.now) }
{
    match (sort, declaration) {
        (Sort::Class, Declaration::Class { name, .. })
        | (Sort::Sign, Declaration::Sign { name, .. })
        | (Sort::Algebra, Declaration::Algebra { name, .. })
        | (Sort::Rule, Declaration::Rule { name, .. }) => Some(name),
        _ => None,
    }
}

// The number of the first of each name among those that the declarations of a sort give.
fn numbered<'a>(
    alloc: Global,
    declared: &[Declaration<'a>],
    sort: Sort,
) -> Result<BTreeMap<&'a [u8], u32>, AllocError>
    requires { length declared.now < 2 ^ 32 }
    ensures { IfOk result (λ numbers. AreNumbers numbers (names_as sort (map declaration_seen declared.now))) }
{
    let mut numbers = BTreeMap::new(alloc);
    let mut count = 0;
    for declaration in declared {
        if let Some(name) = name_as(sort, declaration) {
            put_first(&mut numbers, name, count)?;
            count += 1;
        }
    }
    Ok(numbers)
}

// The place of the first declaration of each sign.
fn sign_places<'a>(
    alloc: Global,
    declared: &[Declaration<'a>],
) -> Result<BTreeMap<&'a [u8], u32>, AllocError>
    requires { length declared.now < 2 ^ 32 }
    ensures { IfOk result (λ places. AreSignPlaces places (map declaration_seen declared.now)) }
{
    let mut places = BTreeMap::new(alloc);
    for (i, declaration) in declared.iter().enumerate() {
        let Some(name) = name_as(Sort::Sign, declaration) else {
            continue;
        };
        put_first(&mut places, name, i as u32)?;
    }
    Ok(places)
}

// Gives a name this number, unless it has one. Most names are new, so they are put in without a look before.
fn put_first<'a>(
    numbers: &mut BTreeMap<&'a [u8], u32>,
    name: &'a [u8],
    number: u32,
) -> Result<(), AllocError>
    ensures { OnOk result (HasFirst numbers.old numbers.new name.now number) }
{
    match numbers.insert(name, number)? {
        Some(before) => {
            numbers.insert(name, before)?;
            Ok(())
        }
        None => Ok(()),
    }
}

/// Whether a line uses a sign, rule, class or variable that isn't declared, where it is known whether the variables of
/// its term are.
pub(crate) fn uses_unknown(
    names: &Names<'_>,
    declaration: &Declaration<'_>,
    term_is_known: bool,
) -> bool
    requires { term_is_known ≡ declares_its_variables (declaration_seen declaration.now) }
    ensures { (all : List forms.Declaration) → AreNames names.now all →
        result ≡ faults.uses_unknown all (declaration_seen declaration.now) }
{
    match declaration {
        Declaration::Let { sign, .. } => !(names.has_sign(sign) && term_is_known),
        Declaration::Rule { alternatives, .. } => uses_unknown_in_any(names, alternatives),
        Declaration::Axiom { rule } => !names.has_rule(rule),
        _ => false,
    }
}

fn uses_unknown_in_any(names: &Names<'_>, alternatives: &[Alternative<'_>]) -> bool
    ensures { (all : List forms.Declaration) → AreNames names.now all →
        result ≡ list_any (faults.is_unknown_alternative all) (map alternative_seen alternatives.now) }
{
    for alternative in alternatives {
        if uses_unknown_in(names, alternative) {
            return true;
        }
    }
    false
}

fn uses_unknown_in(names: &Names<'_>, alternative: &Alternative<'_>) -> bool
    ensures { (all : List forms.Declaration) → AreNames names.now all →
        result ≡ faults.is_unknown_alternative all (alternative_seen alternative.now) }
{
    !names.has_sign(alternative.sign) || has_unknown_argument(names, &alternative.arguments)
}

fn has_unknown_argument(names: &Names<'_>, arguments: &[Argument<'_>]) -> bool
    ensures { (all : List forms.Declaration) → AreNames names.now all →
        result ≡ list_any (faults.is_unknown_argument all) (map argument_seen arguments.now) }
{
    for argument in arguments {
        if is_unknown(names, argument) {
            return true;
        }
    }
    false
}

fn is_unknown(names: &Names<'_>, argument: &Argument<'_>) -> bool
    ensures { (all : List forms.Declaration) → AreNames names.now all →
        result ≡ faults.is_unknown_argument all (argument_seen argument.now) }
{
    match argument {
        Argument::Named(rule) => !names.has_rule(rule),
        Argument::Spelled(_) => false,
        Argument::OneOf(class) | Argument::RunOf { class, .. } | Argument::RunFrom { class, .. } =>
            !names.has_class(class),
    }
}

/// Whether the variables of a `let` or the arguments of an alternative don't fit the sign that these, whose names these
/// are, declare.
pub(crate) fn misfits(
    names: &Names<'_>,
    declared: &[Declaration<'_>],
    declaration: &Declaration<'_>,
) -> bool
    requires { AreNames names.now (map declaration_seen declared.now) }
    ensures { result ≡ faults.misfits (map declaration_seen declared.now) (declaration_seen declaration.now) }
{
    match declaration {
        Declaration::Let {
            sign,
            variables,
            ..
        } => match names.kinds_of(declared, sign) {
            Some(kinds) => kinds.len() != variables.len(),
            None => false,
        },
        Declaration::Rule { alternatives, .. } => !fit_signs(names, declared, alternatives),
        _ => false,
    }
}

fn fit_signs(
    names: &Names<'_>,
    declared: &[Declaration<'_>],
    alternatives: &[Alternative<'_>],
) -> bool
    requires { AreNames names.now (map declaration_seen declared.now) }
    ensures { result ≡ list_all (faults.fits_sign (map declaration_seen declared.now))
        (map alternative_seen alternatives.now) }
{
    for alternative in alternatives {
        if !fits_sign(names, declared, alternative) {
            return false;
        }
    }
    true
}

fn fits_sign(names: &Names<'_>, declared: &[Declaration<'_>], alternative: &Alternative<'_>) -> bool
    requires { AreNames names.now (map declaration_seen declared.now) }
    ensures { result ≡ faults.fits_sign (map declaration_seen declared.now) (alternative_seen alternative.now) }
{
    match names.kinds_of(declared, alternative.sign) {
        Some(kinds) => fit_kinds(kinds, &alternative.arguments),
        None => true,
    }
}

// Whether there is an argument for each kind and each fits its kind.
fn fit_kinds(kinds: &[Kind], arguments: &[Argument<'_>]) -> bool
    ensures { result ≡ fit_kinds kinds.now (map argument_seen arguments.now) }
{
    if kinds.len() != arguments.len() {
        return false;
    }
    for (i, kind) in kinds.iter().enumerate() {
        if !fits_kind(*kind, &arguments[i]) {
            return false;
        }
    }
    true
}

fn fits_kind(kind: Kind, argument: &Argument<'_>) -> bool
    ensures { result ≡ faults.fits_kind (kind, argument_seen argument.now) }
{
    match (kind, argument) {
        (Kind::Score, Argument::Named(_)) => true,
        (Kind::Score, _) | (Kind::Token, Argument::Named(_)) => false,
        (Kind::Token, _) => true,
    }
}
