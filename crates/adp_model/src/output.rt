//! Numbers and quoted letters as text. After an error, which only want of memory makes, what stood in `out` still
//! stands, and a part of the text may stand behind it.

ghost use Rattle.std.specs.Prelude.{◌≡◌, ◌++◌, List, ℕ, OnErr, OnOk};
ghost use Rattle.std.specs.Fmt.{decimal, signed_decimal};
ghost use Rattle.adp_model.specs.TreeText.{escaped, quoted};

use itoa::Buffer;
use std::alloc::AllocError;

/// Appends a number in decimal digits.
pub fn push_decimal(out: &mut Vec<u8>, number: u64) -> Result<(), AllocError>
    ensures appended { OnOk result (out.new.items ≡ out.old.items ++ decimal number) }
    ensures kept { OnErr result (out.new.items ≡ out.old.items) }
{
    let mut digits = Buffer::new();
    out.extend_from_slice(digits.format(number).as_bytes())
}

/// Appends a number in decimal digits, with `-` before a negative one.
pub fn push_signed(out: &mut Vec<u8>, number: i64) -> Result<(), AllocError>
    ensures appended { OnOk result (out.new.items ≡ out.old.items ++ signed_decimal number) }
    ensures kept { OnErr result (out.new.items ≡ out.old.items) }
{
    let mut buffer = Buffer::new();
    out.extend_from_slice(buffer.format(number).as_bytes())
}

/// Appends a letter as it stands between quotes: `"` and `\` have a `\` before them.
pub fn push_escaped(out: &mut Vec<u8>, letter: u8) -> Result<(), AllocError>
    ensures appended { OnOk result (out.new.items ≡ out.old.items ++ escaped letter) }
    ensures kept { OnErr result ((part : List ℕ) × (out.new.items ≡ out.old.items ++ part)) }
{
    if letter == b'"' || letter == b'\\' {
        out.push(b'\\')?;
    }
    out.push(letter)?;
    Ok(())
}

/// Appends letters in double quotes.
pub fn push_quoted(out: &mut Vec<u8>, letters: &[u8]) -> Result<(), AllocError>
    ensures appended { OnOk result (out.new.items ≡ out.old.items ++ quoted letters.now) }
    ensures kept { OnErr result ((part : List ℕ) × (out.new.items ≡ out.old.items ++ part)) }
{
    out.push(b'"')?;
    for letter in letters {
        push_escaped(out, *letter)?;
    }
    out.push(b'"')?;
    Ok(())
}
