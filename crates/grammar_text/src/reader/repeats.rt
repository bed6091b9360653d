// The tests of a line that look at the lines above or below it.

ghost use Rattle.std.specs.Prelude.{◌≡◌, ◌<◌, ◌≤◌, ◌^◌, ◌∷◌, [], not, map, length, IfOk};
ghost use Rattle.std.specs.List.{list_all, list_any};
ghost use Rattle.adp_model.specs.WellFormed as words;
ghost use Rattle.job_texts.specs.TermText.{is_among};
ghost use Rattle.job_texts.specs.DeclaredNames.{sign_names, is_algebra_line, section_of, let_signs};
ghost use Rattle.job_texts.specs.TextFaults as faults;
ghost use Rattle.grammar_text.specs.Names.{AreMembers, first_passing, has_no_place, has_no_place_behind, is_named, lacks_sign, line_counts, names_as, part_count};
ghost use Rattle.grammar_text.specs.Seen.{declaration_seen, words_seen};

use crate::reader::declaration::Declaration;
use crate::reader::names::{Sort, name_as};
use std::alloc::{AllocError, Global};
use std::collections::BTreeSet;

/// Whether a line above declares the name, or a `let` names a variable twice.
pub(crate) fn repeats(
    alloc: Global,
    above: &[Declaration<'_>],
    declaration: &Declaration<'_>,
) -> Result<bool, AllocError>
    ensures { IfOk result (λ found.
        found ≡ faults.repeats (map declaration_seen above.now) (declaration_seen declaration.now)) }
{
    match declaration {
        Declaration::Class { name, .. } => Ok(declares(above, Sort::Class, name)),
        Declaration::Sign { name, .. } => Ok(declares(above, Sort::Sign, name)),
        Declaration::Algebra { name, .. } => Ok(declares(above, Sort::Algebra, name)),
        Declaration::Rule { name, .. } => Ok(declares(above, Sort::Rule, name)),
        Declaration::Let { variables, .. } => Ok(!are_distinct(alloc, variables)?),
        _ => Ok(false),
    }
}

// Whether one of these declarations is of the sort and gives the name.
fn declares(declared: &[Declaration<'_>], sort: Sort, name: &[u8]) -> bool
    ensures { result ≡ is_among (names_as sort (map declaration_seen declared.now)) name.now }
{
    for declaration in declared {
        if is_named(declaration, sort, name) {
            return true;
        }
    }
    false
}

fn is_named(declaration: &Declaration<'_>, sort: Sort, name: &[u8]) -> bool
    ensures { result ≡ is_named sort name.now (declaration_seen declaration.now) }
{
    match name_as(sort, declaration) {
        Some(other) => other == name,
        None => false,
    }
}

// Whether no text stands twice.
fn are_distinct(alloc: Global, texts: &[&[u8]]) -> Result<bool, AllocError>
    ensures { IfOk result (λ distinct. distinct ≡ words.are_distinct (words_seen texts.now)) }
{
    let mut seen = BTreeSet::new(alloc);
    for text in texts {
        if seen.contains(*text) {
            return Ok(false);
        }
        seen.insert(*text)?;
    }
    Ok(true)
}

/// Whether a `let` has no algebra line above it, or another `let` of its sign above it in the same section.
pub(crate) fn is_misplaced(above: &[Declaration<'_>], declaration: &Declaration<'_>) -> bool
    ensures { result ≡ faults.is_misplaced (map declaration_seen above.now) (declaration_seen declaration.now) }
{
    match declaration {
        Declaration::Let { sign, .. } => has_no_place(above, sign),
        _ => false,
    }
}

// Whether a `let` of the sign would be misplaced below these.
fn has_no_place(above: &[Declaration<'_>], sign: &[u8]) -> bool
    ensures { result ≡ has_no_place (map declaration_seen above.now) sign.now }
{
    let mut misplaced = true;
    for declaration in above {
        misplaced = has_no_place_behind(misplaced, declaration, sign);
    }
    misplaced
}

// The same one line further down, from what it is above the line.
fn has_no_place_behind(misplaced: bool, declaration: &Declaration<'_>, sign: &[u8]) -> bool
    ensures { result ≡ has_no_place_behind misplaced (declaration_seen declaration.now) sign.now }
{
    match declaration {
        Declaration::Algebra { .. } => false,
        Declaration::Let { sign: other, .. } => misplaced || *other == sign,
        _ => misplaced,
    }
}

/// Whether a `grammar` line is among these.
pub(crate) fn has_axiom(declared: &[Declaration<'_>]) -> bool
    ensures { result ≡ list_any faults.is_axiom_line (map declaration_seen declared.now) }
{
    for declaration in declared {
        if is_axiom_line(declaration) {
            return true;
        }
    }
    false
}

fn is_axiom_line(declaration: &Declaration<'_>) -> bool
    ensures { result ≡ faults.is_axiom_line (declaration_seen declaration.now) }
{
    matches!(declaration, Declaration::Axiom { .. })
}

/// Whether an algebra line is among these.
pub(crate) fn has_algebra(declared: &[Declaration<'_>]) -> bool
    ensures { result ≡ list_any is_algebra_line (map declaration_seen declared.now) }
{
    for declaration in declared {
        if is_algebra_line(declaration) {
            return true;
        }
    }
    false
}

fn is_algebra_line(declaration: &Declaration<'_>) -> bool
    ensures { result ≡ is_algebra_line (declaration_seen declaration.now) }
{
    matches!(declaration, Declaration::Algebra { .. })
}

/// Whether the section of an algebra, of the declarations below its line, lacks a `let` for a sign that these declare.
pub(crate) fn lacks_let(
    alloc: Global,
    declared: &[Declaration<'_>],
    below: &[Declaration<'_>],
) -> Result<bool, AllocError>
    ensures { IfOk result (λ lacks. lacks
        ≡ not (list_all (is_among (let_signs (section_of (map declaration_seen below.now))))
        (sign_names (map declaration_seen declared.now)))) }
{
    let signs = section_signs(alloc, below)?;
    for declaration in declared {
        if lacks_sign(&signs, declaration) {
            return Ok(true);
        }
    }
    Ok(false)
}

// The signs that have a `let` in the section of an algebra, of the declarations below its line.
fn section_signs<'a>(
    alloc: Global,
    below: &[Declaration<'a>],
) -> Result<BTreeSet<&'a [u8]>, AllocError>
    ensures { IfOk result (λ signs. AreMembers signs (let_signs (section_of (map declaration_seen below.now)))) }
{
    let mut signs = BTreeSet::new(alloc);
    for declaration in below {
        match declaration {
            Declaration::Algebra { .. } => return Ok(signs),
            Declaration::Let { sign, .. } => {
                signs.insert(*sign)?;
            }
            _ => {}
        }
    }
    Ok(signs)
}

// Whether a sign is declared that is none of these.
fn lacks_sign(signs: &BTreeSet<&[u8]>, declaration: &Declaration<'_>) -> bool
    ensures { result ≡ lacks_sign signs.now (declaration_seen declaration.now) }
{
    match declaration {
        Declaration::Sign { name, .. } => !signs.contains(*name),
        _ => false,
    }
}

/// The first count of a line below these that passes its limit; the leaves of a term aside.
pub(crate) fn passing_count(above: &[Declaration<'_>], declaration: &Declaration<'_>) -> Option<u32>
    requires above { length above.now ≤ 2 ^ 31 }
    requires parts { part_count (declaration_seen declaration.now) < 2 ^ 32 }
    ensures { result ≡ first_passing
        (line_counts (map declaration_seen above.now) (declaration_seen declaration.now)) }
{
    match declaration {
        Declaration::Class { .. } => passing(count(above, Sort::Class) + 1, 64),
        Declaration::Sign { kinds, .. } => {
            passing(count(above, Sort::Sign) + 1, 256).or(passing(kinds.len() as u32, 4))
        }
        Declaration::Algebra { .. } => passing(count(above, Sort::Algebra) + 1, 16),
        Declaration::Rule { alternatives, .. } => {
            passing(count(above, Sort::Rule) + 1, 128).or(passing(alternatives.len() as u32, 64))
        }
        _ => None,
    }
}

fn passing(count: u32, limit: u32) -> Option<u32>
    ensures { result ≡ first_passing (faults.limited count limit ∷ []) }
{
    if count > limit { Some(count) } else { None }
}

// How many of these declarations are of the sort.
fn count(declared: &[Declaration<'_>], sort: Sort) -> u32
    requires { length declared.now ≤ 2 ^ 31 }
    ensures count { result ≡ length (names_as sort (map declaration_seen declared.now)) }
    ensures small { result ≤ length declared.now }
{
    let mut count = 0;
    for declaration in declared {
        if name_as(sort, declaration).is_some() {
            count += 1;
        }
    }
    count
}
