ghost use Rattle.std.specs.Prelude.{◌≡◌, ◌++◌, OnOk};
ghost use Rattle.adp_model.specs.Report.{wins_line};

use adp_model::push_decimal;
use std::alloc::AllocError;

/// Appends the line of the wins: how many answers each evaluator put into the table.
///
/// # Errors
///
/// Where there is no memory. A part of the line may then stand behind what stood in `out`.
pub fn push_wins(out: &mut Vec<u8>, wins: &[u64]) -> Result<(), AllocError>
    ensures { OnOk result (out.new.items ≡ out.old.items ++ wins_line wins.now) }
{
    out.extend_from_slice(b"wins")?;
    for number in wins {
        out.push(b' ')?;
        push_decimal(out, *number)?;
    }
    out.push(b'\n')?;
    Ok(())
}
