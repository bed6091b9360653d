//! Ends of arguments that lengths alone leave no choice of.

ghost use Rattle.std.specs.Prelude.{◌≡◌, ◌+◌, ◌<◌, ◌^◌, ℕ, IfSome};
ghost use Rattle.adp_model.specs.PosedProblem.{PosedProblem};
ghost use Rattle.adp_model.specs.Splits.{FitsSpan};
ghost use Rattle.viable_splits.specs.Placing.{on_span, Cover};

use adp_model::Arg;
use split_lines::{fixed_length, is_fixed};

/// How many letters the arguments have together, where all are tokens of fixed length.
fn fixed_letters(arguments: &[Arg]) -> Option<usize>
    ensures { IfSome result (λ letters. (p : PosedProblem) (from to : ℕ) → to < 2 ^ 64 → Cover p arguments.now from to
        → to ≡ from + letters) }
{
    let Some((argument, others)) = arguments.split_first() else {
        return Some(0);
    };
    if !is_fixed(argument) {
        return None;
    }
    let letters = fixed_letters(others)?;
    Some(letters.saturating_add(fixed_length(argument)))
}

/// Where an argument ends before others that end at `to`, if its own length or theirs leave it no choice.
pub fn only_end(argument: &Arg, others: &[Arg], from: u16, to: u16) -> Option<u16>
    requires laid { (p : PosedProblem) × (end : ℕ) × FitsSpan p (on_span argument.now from end)
        × Cover p others.now end to }
    ensures { IfSome result (λ only. (p : PosedProblem) (end : ℕ) → FitsSpan p (on_span argument.now from end)
        → Cover p others.now end to → end ≡ only) }
{
    if is_fixed(argument) {
        return Some(from + fixed_length(argument) as u16);
    }
    let letters = fixed_letters(others)?;
    Some(to - letters as u16)
}
