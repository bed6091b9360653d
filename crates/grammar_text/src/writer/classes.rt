//! Letter classes, by runs of neighbours of equal weight.

ghost use Rattle.std.specs.Prelude.{◌≡◌, ◌<◌, ◌++◌, OnOk, length, map, pos, slice_index_or};
ghost use Rattle.std.specs.List.{flat_map, prefix_len};
ghost use Rattle.std.specs.Ordering.{int_eq};
ghost use Rattle.job_texts.specs.Spelling.{class_line, run_text, runs_of};

use adp_model::{Class, push_escaped, push_signed};
use std::alloc::AllocError;

pub(crate) fn push_classes(out: &mut Vec<u8>, classes: &[Class]) -> Result<(), AllocError>
    ensures { OnOk result (out.new.items ≡ out.old.items ++ flat_map class_line classes.now) }
{
    for class in classes {
        push_class(out, class)?;
    }
    Ok(())
}

fn push_class(out: &mut Vec<u8>, class: &Class) -> Result<(), AllocError>
    ensures { OnOk result (out.new.items ≡ out.old.items ++ class_line class.now) }
{
    out.extend_from_slice(b"class ")?;
    out.extend_from_slice(class.name.bytes())?;
    out.extend_from_slice(b" =")?;
    push_runs(out, class.letters.as_slice())?;
    out.extend_from_slice(b"\n")
}

fn push_runs(out: &mut Vec<u8>, letters: &[(u8, i64)]) -> Result<(), AllocError>
    ensures { OnOk result (out.new.items ≡ out.old.items ++ flat_map run_text (runs_of letters.now)) }
{
    let mut rest = letters;
    while !rest.is_empty() {
        let (run, others) = rest.split_at(run_length(rest));
        push_run(out, run)?;
        rest = others;
    }
    Ok(())
}

/// How many letters from the front on have the weight of the first.
fn run_length(letters: &[(u8, i64)]) -> usize
    requires { 0 < length letters.now }
    ensures { let weight = (slice_index_or letters.now 0 (0, pos 0)).1
        in result ≡ prefix_len (λ entry. int_eq entry.1 weight) letters.now }
{
    let weight = letters[0].1;
    letters.iter().take_while(|entry| entry.1 == weight).count()
}

/// ` "ab" 5`: the letters of a run, and the weight that they share.
fn push_run(out: &mut Vec<u8>, run: &[(u8, i64)]) -> Result<(), AllocError>
    requires { 0 < length run.now }
    ensures { OnOk result (out.new.items ≡ out.old.items
        ++ run_text (map (λ entry. entry.0) run.now, (slice_index_or run.now 0 (0, pos 0)).1)) }
{
    out.extend_from_slice(b" \"")?;
    for (letter, _) in run {
        push_escaped(out, *letter)?;
    }
    out.extend_from_slice(b"\" ")?;
    push_signed(out, run[0].1)
}
