// The algebras that declarations declare.

ghost use Rattle.std.specs.Prelude.{◌≡◌, true, ℕ, List, map, IfOk};
ghost use Rattle.job_texts.specs.DeclaredNames as sections;
ghost use Rattle.job_texts.specs.JobText as texts;
ghost use Rattle.job_texts.specs.LetTerms.{term_of};
ghost use Rattle.job_texts.specs.Declarations as forms;
ghost use Rattle.grammar_text.specs.Building.{are_buildable, is_buildable, sign_names};
ghost use Rattle.grammar_text.specs.Seen.{declaration_seen, term_seen, words_seen};

use crate::reader::declaration::{self, Declaration};
use crate::reader::judge::{read_let, text_of};
use adp_model::{Algebra, Linear, Sequence, Sign, Term};
use std::alloc::{AllocError, Global};

/// The algebras that these declare, each with a term for each of these signs.
pub(crate) fn algebras(
    alloc: Global,
    declared: &[Declaration<'_>],
    signs: &[Sign],
) -> Result<Vec<Algebra>, AllocError>
    requires { are_buildable (map declaration_seen declared.now) ≡ true }
    ensures { IfOk result (λ algebras.
        algebras.items ≡ texts.declared_algebras (sign_names signs.now) (map declaration_seen declared.now)) }
{
    let mut algebras = Vec::new(alloc);
    let mut rest = declared;
    while let [first, below @ ..] = rest {
        if let Declaration::Algebra { name, goal } = first {
            let terms = terms(alloc, section_of(below), signs)?;
            algebras.push(Algebra {
                name: text_of(alloc, name)?,
                goal: *goal,
                terms: Sequence::new(terms),
            })?;
        }
        rest = below;
    }
    Ok(algebras)
}

// Those before the next algebra line.
fn section_of<'d, 'a>(below: &'d [Declaration<'a>]) -> &'d [Declaration<'a>]
    ensures { map declaration_seen result.now ≡ sections.section_of (map declaration_seen below.now) }
{
    for (i, declaration) in below.iter().enumerate() {
        if let Declaration::Algebra { .. } = declaration {
            return &below[..i];
        }
    }
    below
}

// The term of each sign in a section.
fn terms(
    alloc: Global,
    section: &[Declaration<'_>],
    signs: &[Sign],
) -> Result<Vec<Term>, AllocError>
    requires { are_buildable (map declaration_seen section.now) ≡ true }
    ensures { IfOk result (λ terms.
        terms.items ≡ map (texts.term_in (map declaration_seen section.now)) (sign_names signs.now)) }
{
    let mut terms = Vec::with_capacity(alloc, signs.len())?;
    for sign in signs {
        terms.push(term_in(alloc, section, sign.name.bytes())?)?;
    }
    Ok(terms)
}

// The term that the first `let` of a sign gives; the constant 0 where there is none.
fn term_in(alloc: Global, section: &[Declaration<'_>], sign: &[u8]) -> Result<Term, AllocError>
    requires { are_buildable (map declaration_seen section.now) ≡ true }
    ensures { IfOk result (λ term. term ≡ texts.term_in (map declaration_seen section.now) sign.now) }
{
    for declaration in section {
        if let Some(term) = term_given(alloc, declaration, sign)? {
            return Ok(term);
        }
    }
    Ok(Term::Linear(Linear {
        constant: 0,
        factors: Sequence::new(Vec::new(alloc)),
    }))
}

// The term that a line gives to a sign.
fn term_given(
    alloc: Global,
    declaration: &Declaration<'_>,
    sign: &[u8],
) -> Result<Option<Term>, AllocError>
    requires { is_buildable (declaration_seen declaration.now) ≡ true }
    ensures { IfOk result (λ term. term ≡ texts.term_given sign.now (declaration_seen declaration.now)) }
{
    let Declaration::Let {
        sign: other,
        variables,
        term,
    } = declaration
    else {
        return Ok(None);
    };
    if sign != *other {
        return Ok(None);
    }
    Ok(Some(term_of(alloc, variables, term)?))
}

// The term of a `let`.
fn term_of(
    alloc: Global,
    variables: &[&[u8]],
    term: &declaration::Term<'_>,
) -> Result<Term, AllocError>
    requires { (sign : List ℕ)
        → is_buildable (forms.Let sign (words_seen variables.now) (term_seen term.now.version term.now.bytes.now))
        ≡ true }
    ensures { IfOk result (λ found.
        found ≡ term_of (words_seen variables.now) (term_seen term.now.version term.now.bytes.now)) }
{
    match read_let(alloc, variables, term) {
        Ok(found) => Ok(found),
        Err(_) => Err(AllocError),
    }
}
