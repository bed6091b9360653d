ghost use Rattle.std.specs.Prelude.{◌≡◌, ℕ, ◌+◌, ◌^◌, ◌<◌, ◌≤◌, max, true, List, IfOk, vec_len};
ghost use mathlib.Core.Logic.{inl};
ghost use Rattle.adp_model.specs.LimitFaults.{told};
ghost use Rattle.grammar_check.specs.declared.part.Part.{Part};

use crate::letter_alternative::LetterAlternative;
use crate::linear_alternative::LinearAlternative;
use crate::part::{Part, are_letters, is_same_list};
use crate::table::Table;
use crate::wide_alternative::WideAlternative;
use std::alloc::{AllocError, Global};

/// An alternative of a rule, for the rows of a bound: its parts and its constant add up, where its parts are letters
/// alone or not, or a wide term says what they come to.
#[derive(Drop)]
pub enum Alternative<'a> {
    Letters(LetterAlternative),
    Linear(LinearAlternative),
    Wide(WideAlternative<'a>),
}

impl<'a> Alternative<'a> {
    ghost use Rattle.grammar_check.specs.RuleValues.{IsAllReadable, IsWide, IsReadFor, IsSpreadTo, kept_of, kept_value};

    /// An alternative whose parts add up, for lengths up to `most`.
    pub fn adding(
        alloc: Global,
        constant: u64,
        fixed: usize,
        parts: Vec<Part>,
        most: usize,
    ) -> Result<Alternative<'a>, AllocError>
        requires few { vec_len parts ≤ 4 }
        requires short { most ≤ 4000 }
        ensures kept { IfOk result (λ alternative. kept_of alternative ≡ (inl constant, fixed, parts.items)) }
        ensures columns { IfOk result (λ alternative. IsWide (most + 1) alternative) }
    {
        if are_letters(&parts) {
            let letters = LetterAlternative::new(alloc, constant, fixed, parts)?;
            return Ok(Alternative::Letters(letters));
        }
        let linear = LinearAlternative::new(alloc, constant, fixed, parts, most)?;
        Ok(Alternative::Linear(linear))
    }

    /// Whether its parts add up, and are these beside tokens of so many letters.
    pub fn has_parts(&self, fixed: usize, parts: &[Part]) -> bool
        ensures { result ≡ true → (constant : ℕ) × (kept_of self.now ≡ (inl constant, fixed, parts.now)) }
    {
        match self {
            Alternative::Letters(alternative) => {
                alternative.fixed == fixed && is_same_list(&alternative.parts, parts)
            }
            Alternative::Linear(alternative) => {
                alternative.fixed == fixed && is_same_list(&alternative.parts, parts)
            }
            Alternative::Wide(_) => false,
        }
    }

    /// Raises what it adds of its own to this number, where its parts add up and this is more.
    pub fn raise(&mut self, constant: u64)
        ensures kept { (old fixed : ℕ) (parts : List Part) → kept_of self.old ≡ (inl old, fixed, parts)
            → kept_of self.new ≡ (inl (max old constant), fixed, parts) }
        ensures columns { (width : ℕ) → IsWide width self.old → IsWide width self.new }
    {
        match self {
            Alternative::Letters(alternative) => {
                alternative.constant = alternative.constant.max(constant);
            }
            Alternative::Linear(alternative) => {
                alternative.constant = alternative.constant.max(constant);
            }
            Alternative::Wide(_) => {}
        }
    }

    /// The greatest value of the alternative over its ways to have this length, cut; 0 where there is no way. The
    /// values at all lesser lengths were asked for before, and the table has the bounds of rules that it needs.
    pub fn extend(&mut self, bounds: &Table, len: usize) -> u64
        requires readable { IsAllReadable bounds.now.rows self.old }
        requires within { len < bounds.now.width }
        requires columns { IsWide bounds.now.width self.old }
        requires short { len < 2 ^ 32 }
        ensures kept { kept_of self.new ≡ kept_of self.old }
        ensures readable { IsAllReadable bounds.now.rows self.new }
        ensures columns { IsWide bounds.now.width self.new }
        ensures value { (bound : ℕ → ℕ → ℕ) → IsReadFor bound bounds.now len (kept_of self.old)
            → IsSpreadTo bound len self.old → result ≡ told (kept_value bound (kept_of self.old) len) }
        ensures spread { (bound : ℕ → ℕ → ℕ) → IsReadFor bound bounds.now len (kept_of self.old)
            → IsSpreadTo bound len self.old → IsSpreadTo bound (len + 1) self.new }
    {
        match self {
            Alternative::Letters(alternative) => alternative.value(len),
            Alternative::Linear(alternative) => alternative.extend(bounds, len),
            Alternative::Wide(alternative) => alternative.extend(bounds, len),
        }
    }
}
