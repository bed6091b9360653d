//! Numbers side by side, as many as a lane has, each of which goes through the same operations.

ghost use Rattle.std.specs.Prelude.{◌≡◌, ◌≤◌, ◌+ℤ◌, ◌-ℤ◌, ◌*ℤ◌, ℕ, ℤ, Some, map, nat_abs, replicate, slice_get};
ghost use Rattle.std.specs.Int.{int_max, int_min};
ghost use Rattle.score_numbers.specs.Lanes.{AreCombined, AreTurned};

use crate::width::Number;
use adp_model::Goal;

/// How many numbers a lane has.
pub const LANES: usize = 64;

/// How two numbers are combined.
pub trait Combination {
    ghost exact: { ℤ → ℤ → ℤ };

    /// What two numbers come to, where it is within the limit, and else any number.
    fn of<N: Number>(one: N, other: N) -> N
        ensures { nat_abs (exact (N.value one) (N.value other)) ≤ N.width.limit
            → N.value result ≡ exact (N.value one) (N.value other) };
}

/// One and the other.
pub struct Sum;

/// One without the other.
pub struct Difference;

/// One as often as the other.
pub struct Product;

/// The greater of both.
pub struct Greater;

/// The lesser of both.
pub struct Lesser;

impl Combination for Sum {
    ghost exact = { λ one other. one +ℤ other };

    fn of<N: Number>(one: N, other: N) -> N {
        one.sum_within(other)
    }
}

impl Combination for Difference {
    ghost exact = { λ one other. one -ℤ other };

    fn of<N: Number>(one: N, other: N) -> N {
        one.difference_within(other)
    }
}

impl Combination for Product {
    ghost exact = { λ one other. one *ℤ other };

    fn of<N: Number>(one: N, other: N) -> N {
        one.product_within(other)
    }
}

impl Combination for Greater {
    ghost exact = { λ one other. int_max one other };

    fn of<N: Number>(one: N, other: N) -> N {
        one.most(other)
    }
}

impl Combination for Lesser {
    ghost exact = { λ one other. int_min one other };

    fn of<N: Number>(one: N, other: N) -> N {
        one.least(other)
    }
}

/// Combines each number of a lane with the one in its place of another.
#[inline(always)]
pub fn combine<C: Combination, N: Number>(lane: &mut [N; LANES], other: &[N; LANES])
    ensures { AreCombined N.width.limit C.exact (map N.value lane.old) (map N.value other.now) (map N.value lane.new) }
{
    for k in 0..LANES {
        lane[k] = C::of(lane[k], other[k]);
    }
}

/// A lane that has this number everywhere.
#[inline(always)]
pub fn everywhere<N: Number>(number: i64) -> [N; LANES]
    ensures { nat_abs number ≤ N.width.limit → map N.value result ≡ replicate 64 number }
{
    [N::narrow(number); LANES]
}

/// Turns the sign of each number of a lane where the least is best.
#[inline(always)]
pub fn turn<N: Number>(goal: Goal, lane: &mut [N; LANES])
    ensures { AreTurned N.width.limit goal (map N.value lane.old) (map N.value lane.new) }
{
    match goal {
        Goal::Least => {
            let mut turned = everywhere(0);
            combine::<Difference, N>(&mut turned, lane);
            *lane = turned;
        }
        Goal::Greatest => {}
    }
}
