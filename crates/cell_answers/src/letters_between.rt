//! Lines of two rules with one letter between them: their totals are sums of the numbers on both sides of a boundary
//! and of what the letter weighs.

ghost use Rattle.std.specs.Prelude.{◌≡◌, [], ◌∷◌, IfSome};
ghost use Rattle.adp_model.specs.declared.grammar.Arg.TheVariants.{Letter};
ghost use Rattle.cell_answers.specs.LettersBetween.{IsWeighedLine};
ghost use Rattle.cell_answers.specs.Opened.{IsOpened};

use crate::along::rule_scales;
use crate::opened::OpenedLine;
use adp_model::Arg;
use score_numbers::{Scales, Weights};
use split_lines::Lines;

/// The factors of the numbers on both sides of a line's boundary, and what the letters at its positions weigh.
#[derive(Clone, Copy)]
pub struct WeighedLine<'l> {
    pub scales: Scales,
    pub weights: Weights<'l>,
}

/// The class of the one letter that these tokens are, with its factor.
fn one_letter(tokens: &[Arg], factors: &[i64]) -> Option<(u32, i64)>
    ensures { IfSome result (λ it. (tokens.now ≡ Letter it.0 ∷ []) × (factors.now ≡ it.1 ∷ [])) }
{
    match (tokens, factors) {
        ([Arg::Letter(class)], [factor]) => Some((*class, *factor)),
        _ => None,
    }
}

/// The line, where its two arguments of open length are rules, and one letter is all that stands between them.
#[inline(always)]
pub fn weighed_line<'l>(lines: &'l Lines<'_>, line: &OpenedLine<'_>) -> Option<WeighedLine<'l>>
    requires { IsOpened lines.now line.now }
    ensures { IfSome result (IsWeighedLine lines.now line.now) }
{
    let arguments = line.arguments;
    let Some(scales) = rule_scales(line) else {
        return None;
    };
    let Some((class, factor)) = one_letter(arguments.middle, arguments.middle_factors) else {
        return None;
    };
    lines.problem().admissible();
    let sums = lines.sums(class);
    let first = sums.len().min(line.row.first as usize);
    let weights = Weights {
        sums: &sums[first..],
        factor,
    };
    Some(WeighedLine { scales, weights })
}
