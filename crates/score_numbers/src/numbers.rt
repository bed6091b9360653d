ghost use Rattle.std.specs.Prelude.{◌≡◌, ℕ, ◌⊎◌, ◌<◌, ◌≤◌, pos, Some, nat_abs, length, take, map, slice_index_or};
ghost use Rattle.adp_model.specs.ProblemFields.{greatest_score};
ghost use Rattle.score_numbers.specs.Greatest.{IsGreatestOf};
ghost use Rattle.score_numbers.specs.Turned.{turned};

use adp_model::Goal;

/// The number with its sign turned where the least is best.
pub fn turned(goal: Goal, number: i64) -> i64
    requires { nat_abs number ≤ greatest_score }
    ensures { result ≡ turned goal number }
{
    match goal {
        Goal::Least => -number,
        Goal::Greatest => number,
    }
}

/// The factor of this number, turned; 0 where there is none.
fn turned_at(goal: Goal, factors: &[i64], number: usize) -> i64
    requires { number < length factors.now → nat_abs (slice_index_or factors.now number (pos 0)) ≤ greatest_score }
    ensures { number < length factors.now → result ≡ turned goal (slice_index_or factors.now number (pos 0)) }
{
    if number < factors.len() {
        turned(goal, factors[number])
    } else {
        0
    }
}

/// The factors of a term, each turned; behind them stands 0.
pub fn turned_factors(goal: Goal, factors: &[i64]) -> [i64; 4]
    requires few { length factors.now ≤ 4 }
    requires low { (k : ℕ) → k < length factors.now → nat_abs (slice_index_or factors.now k (pos 0)) ≤ greatest_score }
    ensures { take (length factors.now) result ≡ map (turned goal) factors.now }
{
    [
        turned_at(goal, factors, 0),
        turned_at(goal, factors, 1),
        turned_at(goal, factors, 2),
        turned_at(goal, factors, 3),
    ]
}

/// The greater of two numbers, where they are there.
pub fn greater(first: Option<i64>, second: Option<i64>) -> Option<i64>
    ensures { IsGreatestOf (λ number. (first ≡ Some number) ⊎ (second ≡ Some number)) result }
{
    match (first, second) {
        (Some(a), Some(b)) => Some(a.max(b)),
        (None, other) | (other, None) => other,
    }
}
