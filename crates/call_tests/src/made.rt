//! Calls of `big_problems`.

use crate::lines::{numbers, push_flag, push_no_call, push_text};
use adp_model::{is_well_formed, push_quoted};
use big_problems::{made_word, pairs_grammar};
use std::alloc::{AllocError, Global};

/// Appends the word that is made from a seed and a size, or whether the grammar of pairs is well-formed.
pub(crate) fn push_made_call(
    alloc: Global,
    name: &str,
    rest: &str,
    out: &mut Vec<u8>,
) -> Result<(), AllocError> {
    if name == "pairs" {
        return push_flag(out, " well-formed", is_well_formed(&pairs_grammar(alloc)?));
    }
    match numbers(alloc, rest)?.as_slice() {
        [seed, size @ 0..=4000] => {
            push_text(out, " ")?;
            push_quoted(out, made_word(alloc, *seed, *size as u32)?.bytes())
        }
        _ => push_no_call(out),
    }
}
