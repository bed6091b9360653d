// The grammar that declarations declare.

ghost use Rattle.std.specs.Prelude.{◌≡◌, true, [], map, unwrap_or, IfOk};
ghost use Rattle.std.specs.List.{filter_map};
ghost use Rattle.job_texts.specs.DeclaredNames.{rule_names, first_of_list};
ghost use Rattle.job_texts.specs.JobText.{axiom_name, declared_class, declared_grammar, declared_sign, number_among};
ghost use Rattle.grammar_text.specs.Building.{are_buildable, is_buildable};
ghost use Rattle.grammar_text.specs.Names.{AreNames};
ghost use Rattle.grammar_text.specs.Seen.{declaration_seen};

use crate::reader::algebras::algebras;
use crate::reader::declaration::Declaration;
use crate::reader::judge::text_of;
use crate::reader::letters::class_letters;
use crate::reader::names::Names;
use crate::reader::rules::rules;
use adp_model::{Class, Grammar, Kind, Sequence, Sign};
use std::alloc::{AllocError, Global};

/// The grammar that these, whose names these are, declare.
pub(crate) fn declared_grammar(
    alloc: Global,
    declared: &[Declaration<'_>],
    names: &Names<'_>,
) -> Result<Grammar, AllocError>
    requires buildable { are_buildable (map declaration_seen declared.now) ≡ true }
    requires names { AreNames names.now (map declaration_seen declared.now) }
    ensures { IfOk result (λ grammar. grammar ≡ declared_grammar (map declaration_seen declared.now)) }
{
    let classes = classes(alloc, declared)?;
    let signs = signs(alloc, declared)?;
    let algebras = algebras(alloc, declared, &signs)?;
    let rules = rules(alloc, declared, names)?;
    Ok(Grammar {
        classes: Sequence::new(classes),
        signs: Sequence::new(signs),
        algebras: Sequence::new(algebras),
        rules: Sequence::new(rules),
        axiom: axiom(declared, names),
    })
}

fn classes(alloc: Global, declared: &[Declaration<'_>]) -> Result<Vec<Class>, AllocError>
    requires { are_buildable (map declaration_seen declared.now) ≡ true }
    ensures { IfOk result (λ classes.
        classes.items ≡ filter_map declared_class (map declaration_seen declared.now)) }
{
    let mut classes = Vec::new(alloc);
    for declaration in declared {
        if let Some(class) = class_of(alloc, declaration)? {
            classes.push(class)?;
        }
    }
    Ok(classes)
}

fn class_of(alloc: Global, declaration: &Declaration<'_>) -> Result<Option<Class>, AllocError>
    requires { is_buildable (declaration_seen declaration.now) ≡ true }
    ensures { IfOk result (λ class. class ≡ declared_class (declaration_seen declaration.now)) }
{
    let Declaration::Class { name, items } = declaration else {
        return Ok(None);
    };
    let name = text_of(alloc, name)?;
    let letters = class_letters(alloc, items)?;
    Ok(Some(Class {
        name,
        letters: Sequence::new(letters),
    }))
}

fn signs(alloc: Global, declared: &[Declaration<'_>]) -> Result<Vec<Sign>, AllocError>
    requires { are_buildable (map declaration_seen declared.now) ≡ true }
    ensures { IfOk result (λ signs. signs.items ≡ filter_map declared_sign (map declaration_seen declared.now)) }
{
    let mut signs = Vec::new(alloc);
    for declaration in declared {
        if let Some(sign) = sign_of(alloc, declaration)? {
            signs.push(sign)?;
        }
    }
    Ok(signs)
}

fn sign_of(alloc: Global, declaration: &Declaration<'_>) -> Result<Option<Sign>, AllocError>
    requires { is_buildable (declaration_seen declaration.now) ≡ true }
    ensures { IfOk result (λ sign. sign ≡ declared_sign (declaration_seen declaration.now)) }
{
    let Declaration::Sign { name, kinds } = declaration else {
        return Ok(None);
    };
    let name = text_of(alloc, name)?;
    let kinds = copied(alloc, kinds)?;
    Ok(Some(Sign {
        name,
        kinds: Sequence::new(kinds),
    }))
}

fn copied(alloc: Global, kinds: &[Kind]) -> Result<Vec<Kind>, AllocError>
    ensures { IfOk result (λ copy. copy.items ≡ kinds.now) }
{
    let mut copy = Vec::with_capacity(alloc, kinds.len())?;
    for kind in kinds {
        copy.push(*kind)?;
    }
    Ok(copy)
}

// The number of the rule that a `grammar` line names.
fn axiom(declared: &[Declaration<'_>], names: &Names<'_>) -> u32
    requires { AreNames names.now (map declaration_seen declared.now) }
    ensures { let all = map declaration_seen declared.now in
        result ≡ number_among (rule_names all) (unwrap_or (first_of_list (filter_map axiom_name all)) []) }
{
    for declaration in declared {
        if let Declaration::Axiom { rule } = declaration {
            return names.rule_number(rule);
        }
    }
    names.rule_number(&[])
}
