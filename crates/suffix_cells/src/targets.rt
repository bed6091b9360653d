//! Which rules a rule leads to, where all its alternatives that go on do so one letter later: where these are visited
//! there, nothing is left to be marked.

ghost use Rattle.std.specs.Prelude.{◌≡◌, ℕ, ◌<◌, IfOk, IfSome, Some, length, slice_get};
ghost use Rattle.std.specs.Int.{bit_at};
ghost use Rattle.adp_model.specs.Parts.{alternatives_of};
ghost use Rattle.split_lines.specs.Kept.{IsAlternative};
ghost use Rattle.suffix_cells.specs.Ranks.{AreRanked};
ghost use Rattle.suffix_cells.specs.Targets.{AreTargets, LeadsBy, LeadsTo};

use crate::visits::Visits;
use adp_model::Arg;
use adp_model::laws::well_formed::{alternatives_fit, arguments_are_few_and_known};
use split_lines::{KeptAlternative, Lines};
use std::alloc::{AllocError, Global};

/// From how many letters on it is found out to which rules others lead.
const LONG_WORD: usize = 100;

/// The bits of rules, and that of the rule to which an alternative leads one letter later; `None` where it leads to
/// another.
fn with_target(
    lines: &Lines<'_>,
    alternative: &KeptAlternative<'_>,
    rule: u32,
    alt: u8,
    visits: &Visits<'_>,
    bits: u128,
) -> Option<u128>
    requires same_problem { visits.now.marks.problem ≡ lines.now }
    requires alternative { IsAlternative lines.now rule alt alternative.now }
    ensures leads { IfSome result (LeadsBy lines.now visits.now.order rule alt) }
    ensures kept { IfSome result (λ more. (number : ℕ) → bit_at bits number ≡ 1 → bit_at more number ≡ 1) }
{
    let Some((argument, others)) = alternative.others.split_first() else {
        return Some(bits);
    };
    if let Arg::Rule(other) = argument {
        if others.is_empty() {
            if alternative.letters == 1 {
                return Some(bits | 1 << visits.number(*other));
            }
        }
    }
    None
}

/// The bits of the rules to which a rule leads one letter later; `None` where it leads to others.
fn target_bits(lines: &Lines<'_>, rule: u32, visits: &Visits<'_>) -> Option<u128>
    requires same_problem { visits.now.marks.problem ≡ lines.now }
    requires rule { rule < length lines.now.grammar.rules }
    ensures { IfSome result (LeadsTo lines.now visits.now.order rule) }
{
    lines.problem().admissible();
    arguments_are_few_and_known();
    alternatives_fit();
    let alternatives = lines.alternatives(rule);
    let mut bits = 0;
    for alt in 0..alternatives.len() {
        bits = with_target(lines, &alternatives[alt], rule, alt as u8, visits, bits)?;
    }
    Some(bits)
}

/// The bits of the rules to which the rules lead, by their numbers in the order; none where the word is short. Fails
/// for want of memory alone.
pub(crate) fn targets_of(
    alloc: Global,
    lines: &Lines<'_>,
    visits: &Visits<'_>,
) -> Result<Vec<Option<u128>>, AllocError>
    requires same_problem { visits.now.marks.problem ≡ lines.now }
    requires ranked { AreRanked lines.now visits.now.order }
    ensures { IfOk result (λ targets. AreTargets lines.now visits.now.order targets.items) }
{
    if lines.problem().letters().len() < LONG_WORD {
        return Ok(Vec::new(alloc));
    }
    let count = visits.rules();
    let mut targets = Vec::with_capacity(alloc, count as usize)?;
    for number in 0..count {
        targets.push(target_bits(lines, visits.rule(number), visits))?;
    }
    Ok(targets)
}

/// What is told of a number.
#[inline]
pub(crate) fn target_at(targets: &[Option<u128>], number: u16) -> Option<u128>
    ensures { IfSome result (λ bits. slice_get targets.now number ≡ Some (Some bits)) }
{
    targets.get(number as usize).copied().flatten()
}
