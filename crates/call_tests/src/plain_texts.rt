//! Calls of `nested_texts`.

use crate::lines::{push_field, push_flag, push_no_call};
use nested_texts::plain_text;
use std::alloc::{AllocError, Global};

/// The most bytes of a text.
const MOST_BYTES: usize = 4_194_304;

/// Appends whether the plain text of a job's text is that text itself, and how many hidden rules it has.
pub(crate) fn push_plain_text(
    alloc: Global,
    text: &str,
    out: &mut Vec<u8>,
) -> Result<(), AllocError> {
    if text.len() > MOST_BYTES {
        return push_no_call(out);
    }
    let plain = plain_text(alloc, text.as_bytes())?;
    push_flag(out, " itself", plain.text.as_slice() == text.as_bytes())?;
    push_field(out, ", hidden ", u64::from(plain.hidden))
}
