//! Signs and their kinds.

ghost use Rattle.std.specs.Prelude.{◌≡◌, ◌++◌, OnOk, codes};
ghost use Rattle.std.specs.List.{flat_map};
ghost use Rattle.job_texts.specs.Spelling.{kind_text, separated, sign_line};

use adp_model::{Kind, Sign};
use std::alloc::AllocError;

pub(crate) fn push_signs(out: &mut Vec<u8>, signs: &[Sign]) -> Result<(), AllocError>
    ensures { OnOk result (out.new.items ≡ out.old.items ++ flat_map sign_line signs.now) }
{
    for sign in signs {
        push_sign(out, sign)?;
    }
    Ok(())
}

fn push_sign(out: &mut Vec<u8>, sign: &Sign) -> Result<(), AllocError>
    ensures { OnOk result (out.new.items ≡ out.old.items ++ sign_line sign.now) }
{
    out.extend_from_slice(b"sign ")?;
    out.extend_from_slice(sign.name.bytes())?;
    out.extend_from_slice(b"(")?;
    push_kinds(out, sign.kinds.as_slice())?;
    out.extend_from_slice(b")\n")
}

fn push_kinds(out: &mut Vec<u8>, kinds: &[Kind]) -> Result<(), AllocError>
    ensures { OnOk result (out.new.items ≡ out.old.items ++ separated kind_text (codes ", ") kinds.now) }
{
    if let Some((first, others)) = kinds.split_first() {
        push_kind(out, *first)?;
        for kind in others {
            out.extend_from_slice(b", ")?;
            push_kind(out, *kind)?;
        }
    }
    Ok(())
}

fn push_kind(out: &mut Vec<u8>, kind: Kind) -> Result<(), AllocError>
    ensures { OnOk result (out.new.items ≡ out.old.items ++ kind_text kind) }
{
    match kind {
        Kind::Score => out.extend_from_slice(b"score"),
        Kind::Token => out.extend_from_slice(b"token"),
    }
}
