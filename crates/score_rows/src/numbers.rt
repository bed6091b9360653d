//! Numbers of a row, of 16, 32 and 64 bits.

ghost use Rattle.std.specs.Prelude.{◌≡◌, ◌↔◌, ◌≤◌, ◌≤ℤ◌, ◌<ℤ◌, ◌+ℤ◌, ◌*ℤ◌, ◌^◌, ◌<◌, IsTrue, ℤ, nat_abs};
ghost use Rattle.std.specs.Int.{int_max};
ghost use Rattle.score_numbers.specs.Packing.{Width, long, medium, short};
ghost use Rattle.score_numbers.specs.Turned.{turned};
ghost use Rattle.score_rows.specs.Numbers.{IsRaisedBy, least};

use adp_model::Goal;
use score_numbers::{
    LONG_LIMIT, LONG_MARK, MEDIUM_LIMIT, MEDIUM_MARK, SHORT_LIMIT, SHORT_MARK, turned,
};

/// A number of a row. One that is less than all scores stands for none.
pub trait RowNumber: Copy {
    ghost width: { Width };

    ghost value: { Self → ℤ };

    /// The mark, which is less than all scores.
    fn mark() -> Self
        ensures is { value result ≡ width.mark }
        ensures dead { width.mark <ℤ least width };

    /// Twice the limit fits into 63 bits. Does nothing when it runs.
    fn is_narrow()
        ensures { width.limit ≤ 2 ^ 60 };

    /// A number of 64 bits, where it is within the limit, and else any number.
    fn of(number: i64) -> Self
        ensures { nat_abs number ≤ width.limit → value result ≡ number };

    /// The number in 64 bits.
    fn wide(self) -> i64
        ensures { result ≡ value self };

    /// The score that a number within the limit stands for.
    fn score(self, goal: Goal) -> i64
        requires { nat_abs (value self) ≤ width.limit }
        ensures { result ≡ turned goal (value self) };

    /// The sum of two numbers, where it is within the limit; of the mark and a number within the limit, less than all
    /// scores.
    fn raised(self, add: Self) -> Self
        ensures { IsRaisedBy width (value self) (value add) (value result) };

    /// The greater of two numbers.
    fn most(self, other: Self) -> Self
        ensures { value result ≡ int_max (value self) (value other) };

    /// Whether it is the mark.
    fn is_mark(self) -> bool
        ensures { IsTrue result ↔ (value self ≡ width.mark) };

    /// Whether it stands for a score.
    fn is_live(self) -> bool
        ensures { IsTrue result ↔ (least width ≤ℤ value self) };
}

impl RowNumber for i16 {
    ghost width = { short };

    ghost value = { λ number. number };

    fn mark() -> i16 {
        SHORT_MARK
    }

    fn is_narrow() {}

    fn of(number: i64) -> i16 {
        i16::try_from(number).unwrap_or(SHORT_MARK)
    }

    fn wide(self) -> i64 {
        i64::from(self)
    }

    fn score(self, goal: Goal) -> i64 {
        turned(goal, i64::from(self))
    }

    fn raised(self, add: i16) -> i16 {
        self.wrapping_add(add)
    }

    fn most(self, other: i16) -> i16 {
        self.max(other)
    }

    fn is_mark(self) -> bool {
        self == SHORT_MARK
    }

    fn is_live(self) -> bool {
        self >= -SHORT_LIMIT
    }
}

impl RowNumber for i32 {
    ghost width = { medium };

    ghost value = { λ number. number };

    fn mark() -> i32 {
        MEDIUM_MARK
    }

    fn is_narrow() {}

    fn of(number: i64) -> i32 {
        i32::try_from(number).unwrap_or(MEDIUM_MARK)
    }

    fn wide(self) -> i64 {
        i64::from(self)
    }

    fn score(self, goal: Goal) -> i64 {
        turned(goal, i64::from(self))
    }

    fn raised(self, add: i32) -> i32 {
        self.wrapping_add(add)
    }

    fn most(self, other: i32) -> i32 {
        self.max(other)
    }

    fn is_mark(self) -> bool {
        self == MEDIUM_MARK
    }

    fn is_live(self) -> bool {
        self >= -MEDIUM_LIMIT
    }
}

impl RowNumber for i64 {
    ghost width = { long };

    ghost value = { λ number. number };

    fn mark() -> i64 {
        LONG_MARK
    }

    fn is_narrow() {}

    fn of(number: i64) -> i64 {
        number
    }

    fn wide(self) -> i64 {
        self
    }

    fn score(self, goal: Goal) -> i64 {
        turned(goal, self)
    }

    fn raised(self, add: i64) -> i64 {
        self.wrapping_add(add)
    }

    fn most(self, other: i64) -> i64 {
        self.max(other)
    }

    fn is_mark(self) -> bool {
        self == LONG_MARK
    }

    fn is_live(self) -> bool {
        self >= -LONG_LIMIT
    }
}

/// The sum of a number and one of 64 bits, where it is within the limit, and else any number.
#[inline(always)]
pub fn with<N: RowNumber>(number: N, add: i64) -> N
    ensures { nat_abs (N.value number +ℤ add) ≤ N.width.limit → N.value result ≡ (N.value number +ℤ add) }
{
    N::is_narrow();
    N::of(number.wide().wrapping_add(add))
}

/// The product of two numbers, where it fits into 63 bits, and else any number.
#[inline(always)]
pub fn product(first: i64, second: i64) -> i64
    ensures { nat_abs (first *ℤ second) < 2 ^ 63 → result ≡ (first *ℤ second) }
{
    first.wrapping_mul(second)
}

/// The sum of the score that a number stands for, times a factor, and another number, where both this one and the sum are
/// within the limit, and else any number.
#[inline(always)]
pub fn scaled<N: RowNumber>(number: N, goal: Goal, factor: i64, add: N) -> N
    requires { nat_abs (N.value number) ≤ N.width.limit }
    ensures { nat_abs (N.value add) ≤ N.width.limit
        → nat_abs ((factor *ℤ turned goal (N.value number)) +ℤ N.value add) ≤ N.width.limit
        → N.value result ≡ ((factor *ℤ turned goal (N.value number)) +ℤ N.value add) }
{
    N::is_narrow();
    with(add, product(factor, number.score(goal)))
}
