// Bytes as the lines of a file of cases spell them.

use std::alloc::{AllocError, Global};

fn hex_digit(byte: u8) -> Option<u8> {
    match byte {
        b'0'..=b'9' => Some(byte - b'0'),
        b'A'..=b'F' => Some(byte - b'A' + 10),
        _ => None,
    }
}

// The byte that `%` and these two digits stand for.
fn escaped_byte(digits: &[u8]) -> Option<u8> {
    match digits {
        [high, low] => {
            let high = hex_digit(*high)?;
            let low = hex_digit(*low)?;
            Some(high.wrapping_mul(16).wrapping_add(low))
        }
        _ => None,
    }
}

/// Appends a text in which `%` and two hexadecimal digits stand for a byte.
pub(crate) fn push_text(out: &mut Vec<u8>, text: &[u8]) -> Result<(), AllocError> {
    let mut skipped = 0u8;
    for (at, byte) in text.iter().enumerate() {
        if skipped > 0 {
            skipped -= 1;
        } else if let Some(special) = special_at(text, at) {
            out.push(special)?;
            skipped = 2;
        } else {
            out.push(*byte)?;
        }
    }
    Ok(())
}

// The byte that an escape at this place stands for.
fn special_at(text: &[u8], at: usize) -> Option<u8> {
    let rest = text.get(at..)?;
    match rest.split_first() {
        Some((b'%', digits)) => escaped_byte(digits.get(..2)?),
        _ => None,
    }
}

/// Appends the text so many times.
pub(crate) fn push_times(
    out: &mut Vec<u8>,
    count: u32,
    text: &[u8],
    alloc: Global,
) -> Result<(), AllocError> {
    let mut one = Vec::new(alloc);
    push_text(&mut one, text)?;
    for _time in 0..count {
        out.extend_from_slice(&one)?;
    }
    Ok(())
}

/// Appends the text so many times, with the numbers from `first` on in decimal digits in place of each `@`.
pub(crate) fn push_numbered(
    out: &mut Vec<u8>,
    first: u32,
    count: u32,
    text: &[u8],
    alloc: Global,
) -> Result<(), AllocError> {
    let mut one = Vec::new(alloc);
    push_text(&mut one, text)?;
    for number in 0..count {
        let digits = first.saturating_add(number).to_string(alloc)?;
        for byte in &one {
            if *byte == b'@' {
                out.extend_from_slice(digits.as_bytes())?;
            } else {
                out.push(*byte)?;
            }
        }
    }
    Ok(())
}
