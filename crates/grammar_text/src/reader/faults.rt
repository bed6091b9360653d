// What stands wrong at a line by what it declares.

ghost use Rattle.std.specs.Prelude.{◌≤◌, ◌≡◌, ◌<◌, ◌+◌, ◌^◌, All, IfOk, get_or, map, length, drop};
ghost use Rattle.job_texts.specs.Declarations.{Words};
ghost use Rattle.grammar_text.specs.LineTests as tests;
ghost use Rattle.grammar_text.specs.Names.{AreNames, part_count};
ghost use Rattle.grammar_text.specs.Seen.{declaration_seen};

use crate::reader::declaration::Declaration;
use crate::reader::judge::{
    has_crossed_run, has_other_name, has_other_number, misletters, read_let,
};
use crate::reader::names::{Names, misfits, uses_unknown};
use crate::reader::repeats::{has_axiom, is_misplaced, lacks_let, passing_count, repeats};
use algebra_terms::WideError;
use std::alloc::{AllocError, Global};

/// What stands wrong at a line by what it declares, its own words aside.
#[derive(Clone, Copy)]
pub(crate) struct FormTests {
    pub(crate) repeats: bool,
    pub(crate) misletters: bool,
    pub(crate) is_misplaced: bool,
    pub(crate) is_second_axiom: bool,
    pub(crate) uses_unknown: bool,
    pub(crate) misfits: bool,
    pub(crate) has_crossed_run: bool,
    pub(crate) lacks_let: bool,
    pub(crate) passing_count: Option<u32>,
    pub(crate) twice: bool,
}

/// What a declaration shows by its own words.
#[derive(Clone, Copy)]
pub(crate) enum OwnWords {
    Misnamed,
    Misnumbered,
    /// A variable of the term is not declared.
    Unknown,
    /// The term has so many leaves, which are too many.
    Many(u32),
    /// A variable stands twice in the term.
    Twice,
    Right,
}

/// What the words of a declaration show: the first that is wrong with them.
pub(crate) fn own_words(
    alloc: Global,
    declaration: &Declaration<'_>,
) -> Result<OwnWords, AllocError>
    ensures { IfOk result (λ own. tests.AreOwnWords (declaration_seen declaration.now) own) }
{
    if has_other_name(declaration) {
        return Ok(OwnWords::Misnamed);
    }
    if has_other_number(declaration) {
        return Ok(OwnWords::Misnumbered);
    }
    let Declaration::Let {
        variables,
        term,
        ..
    } = declaration
    else {
        return Ok(OwnWords::Right);
    };
    match read_let(alloc, variables, term) {
        Ok(_) => Ok(OwnWords::Right),
        Err(WideError::Name) => Ok(OwnWords::Misnamed),
        Err(WideError::Number) => Ok(OwnWords::Misnumbered),
        Err(WideError::Unknown) => Ok(OwnWords::Unknown),
        Err(WideError::Count(leaves)) => Ok(OwnWords::Many(leaves)),
        Err(WideError::Twice) => Ok(OwnWords::Twice),
        Err(WideError::Shape | WideError::Memory) => Err(AllocError),
    }
}

/// The tests of the declaration at this place, whose words are names and numbers, that look at its letters and at other
/// lines.
pub(crate) fn form_tests(
    alloc: Global,
    names: &Names<'_>,
    declared: &[Declaration<'_>],
    place: usize,
    own: OwnWords,
) -> Result<FormTests, AllocError>
    requires inside { place < length declared.now }
    requires few { length declared.now ≤ 2 ^ 31 }
    requires parts { All (λ declaration. part_count (declaration_seen declaration) < 2 ^ 32) declared.now }
    requires names { AreNames names.now (map declaration_seen declared.now) }
    requires own { tests.AreRightWords (get_or (map declaration_seen declared.now) place Words) own }
    ensures { IfOk result (λ found. tests.AreFormTests (map declaration_seen declared.now) place found) }
{
    let declaration = &declared[place];
    let above = &declared[..place];
    Ok(FormTests {
        repeats: repeats(alloc, above, declaration)?,
        misletters: misletters(alloc, declaration)?,
        is_misplaced: is_misplaced(above, declaration),
        is_second_axiom: is_second_axiom(above, declaration),
        uses_unknown: uses_unknown(names, declaration, knows_variables(own)),
        misfits: misfits(names, declared, declaration),
        has_crossed_run: has_crossed_run(declaration),
        lacks_let: section_lacks_let(alloc, declared, behind(declared, place), declaration)?,
        passing_count: passing_leaves(own).or(passing_count(above, declaration)),
        twice: is_twice(own),
    })
}

fn knows_variables(own: OwnWords) -> bool
    ensures { result ≡ tests.knows_variables own }
{
    !matches!(own, OwnWords::Unknown)
}

fn passing_leaves(own: OwnWords) -> Option<u32>
    ensures { result ≡ tests.passing_leaves own }
{
    match own {
        OwnWords::Many(leaves) => Some(leaves),
        _ => None,
    }
}

fn is_twice(own: OwnWords) -> bool
    ensures { result ≡ tests.has_twice own }
{
    matches!(own, OwnWords::Twice)
}

fn is_second_axiom(above: &[Declaration<'_>], declaration: &Declaration<'_>) -> bool
    ensures { result ≡ tests.is_second_axiom (map declaration_seen above.now) (declaration_seen declaration.now) }
{
    match declaration {
        Declaration::Axiom { .. } => has_axiom(above),
        _ => false,
    }
}

fn section_lacks_let(
    alloc: Global,
    declared: &[Declaration<'_>],
    below: &[Declaration<'_>],
    declaration: &Declaration<'_>,
) -> Result<bool, AllocError>
    ensures { IfOk result (λ lacks. lacks ≡ tests.section_lacks_let (map declaration_seen declared.now)
        (map declaration_seen below.now) (declaration_seen declaration.now)) }
{
    match declaration {
        Declaration::Algebra { .. } => lacks_let(alloc, declared, below),
        _ => Ok(false),
    }
}

// The declarations behind the one at this place.
fn behind<'d, 'a>(declared: &'d [Declaration<'a>], place: usize) -> &'d [Declaration<'a>]
    requires { place < length declared.now }
    ensures { result.now ≡ drop (place + 1) declared.now }
{
    &declared[place + 1..]
}
