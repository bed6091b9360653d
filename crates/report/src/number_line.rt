ghost use Rattle.std.specs.Prelude.{◌≡◌, ◌++◌, OnOk};
ghost use Rattle.std.specs.Fmt.{decimal};
ghost use Rattle.adp_model.specs.Report.{line};

use adp_model::push_decimal;
use std::alloc::AllocError;

// Appends a line with a word and a number.
pub fn push_number_line(out: &mut Vec<u8>, word: &[u8], number: u64) -> Result<(), AllocError>
    ensures { OnOk result (out.new.items ≡ out.old.items ++ line (word.now ++ decimal number)) }
{
    out.extend_from_slice(word)?;
    push_decimal(out, number)?;
    out.push(b'\n')?;
    Ok(())
}
