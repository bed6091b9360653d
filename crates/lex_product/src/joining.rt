//! Two numbers in one.

ghost use Rattle.std.specs.Prelude.{◌≡◌, ◌^◌, ◌≤◌, ℤ, Bool};
ghost use Rattle.lex_product.specs.CompiledTerms.{joined, is_same_goal, IsJoinedFrom};

use adp_model::Goal;

/// How two numbers are one: the first so many times, and the second added to it where `same`, else taken from it.
#[derive(Clone, Copy)]
pub struct Joining {
    pub multiplier: u64,
    pub same: bool,
}

impl Joining {
    /// Both numbers as one.
    pub fn join(&self, first: i64, second: i64) -> i128
        requires { self.now.multiplier ≤ 2 ^ 63 }
        ensures { result ≡ joined self.now.multiplier self.now.same (first, second) }
    {
        let whole = i128::from(first) * i128::from(self.multiplier);
        let part = i128::from(second);
        if self.same {
            whole + part
        } else {
            whole - part
        }
    }
}

/// Whether the goals are equal.
pub fn is_same_goal(first: Goal, second: Goal) -> bool
    ensures { result ≡ is_same_goal first second }
{
    match (first, second) {
        (Goal::Least, Goal::Least) | (Goal::Greatest, Goal::Greatest) => true,
        (Goal::Least, Goal::Greatest) | (Goal::Greatest, Goal::Least) => false,
    }
}

/// The number of times that the multiplier goes into the score, to the nearest whole number.
fn nearest(score: i64, multiplier: u64) -> i128
    requires { (same : Bool) × (pair : ℤ × ℤ) × IsJoinedFrom multiplier same score pair }
    ensures { (same : Bool) (pair : ℤ × ℤ) → IsJoinedFrom multiplier same score pair → result ≡ pair.0 }
{
    let whole = i128::from(multiplier);
    (2 * i128::from(score) + whole).div_euclid(2 * whole)
}

/// The pair that the score was joined from: the second number is less than half of the multiplier in absolute value,
/// and stands with its own sign where `same`, with the other one where not. Takes no memory.
pub fn pair_of(score: i64, m: u64, same: bool) -> (i64, i64)
    requires { (pair : ℤ × ℤ) × IsJoinedFrom m same score pair }
    ensures { (pair : ℤ × ℤ) → IsJoinedFrom m same score pair → result ≡ pair }
{
    let first = nearest(score, m);
    let rest = i128::from(score) - first * i128::from(m);
    let second = if same { rest } else { -rest };
    (first as i64, second as i64)
}
