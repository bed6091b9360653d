// The letters of quoted texts.

ghost use Rattle.std.specs.Prelude.{◌≡◌, ◌++◌, map, false, OnOk, IfOk, pos, unwrap_or};
ghost use Rattle.job_texts.specs.TextFaults as faults;
ghost use Rattle.job_texts.specs.LineTokens.{quoted_rest};
ghost use Rattle.algebra_terms.specs.Tokens.{letters_behind};
ghost use Rattle.grammar_text.specs.Seen.{item_seen, IsPushed};

use crate::reader::declaration::Item;
use crate::reader::judge::weight_of;
use std::alloc::{AllocError, Global};

/// Appends the letters of a quoted text, from behind its first `"`; none where no `"` ends it, or where a `\` stands
/// before another byte than `"` and `\`.
pub(crate) fn push_letters(letters: &mut Vec<u8>, spelled: &[u8]) -> Result<(), AllocError>
    ensures { OnOk result (letters.new.items ≡ letters.old.items ++ letters_behind spelled.now) }
{
    let before = letters.len();
    if !push_closed(letters, spelled)? {
        letters.truncate(before);
    }
    Ok(())
}

// Appends the letters of a quoted text up to its last `"`, or to where it is none; whether it is one.
fn push_closed(letters: &mut Vec<u8>, spelled: &[u8]) -> Result<bool, AllocError>
    ensures { IfOk result
        (λ closed. IsPushed letters.old.items letters.new.items (quoted_rest false spelled.now) closed) }
{
    let mut escaped = false;
    for byte in spelled {
        match (*byte, escaped) {
            (b'"', false) => return Ok(true),
            (b'\\', false) => escaped = true,
            (b'"' | b'\\', true) | (_, false) => {
                letters.push(*byte)?;
                escaped = false;
            }
            (_, true) => return Ok(false),
        }
    }
    Ok(false)
}

/// The letters of a class, each with the number of its item; with 0 where that is none.
pub(crate) fn class_letters(alloc: Global, items: &[Item<'_>]) -> Result<Vec<(u8, i64)>, AllocError>
    ensures { IfOk result (λ letters. letters.items ≡ faults.class_letters (map item_seen items.now)) }
{
    let mut class = Vec::new(alloc);
    let mut letters = Vec::new(alloc);
    for item in items {
        let weight = weight_of(item).unwrap_or(0);
        letters.clear();
        push_letters(&mut letters, item.letters)?;
        push_weighed(&mut class, &letters, weight)?;
    }
    Ok(class)
}

// Appends these letters, each with this weight.
fn push_weighed(class: &mut Vec<(u8, i64)>, letters: &[u8], weight: i64) -> Result<(), AllocError>
    ensures { OnOk result (class.new.items ≡ class.old.items ++ map (λ letter. (letter, weight)) letters.now) }
{
    for letter in letters {
        class.push((*letter, weight))?;
    }
    Ok(())
}
