//! What a call gave, appended to its line; and what a line says of a call.

use adp_model::{push_decimal, push_signed};
use std::alloc::{AllocError, Global};

/// Appends a text.
pub(crate) fn push_text(out: &mut Vec<u8>, text: &str) -> Result<(), AllocError> {
    out.extend_from_slice(text.as_bytes())
}

/// Appends that there is no such call.
pub(crate) fn push_no_call(out: &mut Vec<u8>) -> Result<(), AllocError> {
    push_text(out, " no call")
}

/// Appends a name and a number behind it.
pub(crate) fn push_field(out: &mut Vec<u8>, name: &str, number: u64) -> Result<(), AllocError> {
    push_text(out, name)?;
    push_decimal(out, number)
}

/// Appends a name and a number of either sign behind it.
pub(crate) fn push_signed_field(
    out: &mut Vec<u8>,
    name: &str,
    number: i64,
) -> Result<(), AllocError> {
    push_text(out, name)?;
    push_signed(out, number)
}

/// Appends a name and numbers behind it.
pub(crate) fn push_list(out: &mut Vec<u8>, name: &str, numbers: &[u64]) -> Result<(), AllocError> {
    push_text(out, name)?;
    for number in numbers {
        push_field(out, " ", *number)?;
    }
    Ok(())
}

/// Appends a name, and `yes` or `no`.
pub(crate) fn push_flag(out: &mut Vec<u8>, name: &str, flag: bool) -> Result<(), AllocError> {
    push_text(out, name)?;
    push_text(out, if flag { " yes" } else { " no" })
}

/// The first word of a line, and the rest.
pub(crate) fn first_word(line: &str) -> (&str, &str) {
    line.split_once(' ').unwrap_or((line, ""))
}

/// The numbers of a line, one space between two; none where a word of it is no number.
pub(crate) fn numbers(alloc: Global, line: &str) -> Result<Vec<u64>, AllocError> {
    let mut numbers = Vec::new(alloc);
    for word in line.split(' ') {
        match word.parse::<u64>() {
            Ok(number) => numbers.push(number)?,
            Err(_) => return Ok(Vec::new(alloc)),
        }
    }
    Ok(numbers)
}
