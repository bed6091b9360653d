//! Numbers of 16, of 32 and of 64 bits under one trait, so that their sums are written once.

ghost use Rattle.std.specs.Prelude.{◌≡◌, ◌↔◌, IsTrue, ◌≤◌, ◌+ℤ◌, ◌-ℤ◌, ◌*ℤ◌, ℤ, nat_abs};
ghost use Rattle.std.specs.Int.{int_max, int_min};
ghost use Rattle.score_numbers.specs.Packing.{IsProper, Width, long, medium, short};
ghost use Rattle.score_numbers.specs.Spaced.{IsSpaced, least_sum};

use crate::packing::{LONG_LIMIT, LONG_MARK, MEDIUM_LIMIT, MEDIUM_MARK, SHORT_LIMIT, SHORT_MARK};

/// A number of a width.
pub trait Number: Copy {
    ghost width: { Width };

    ghost value: { Self → ℤ };

    /// Sums with the mark are less than those of scores. Does nothing when it runs.
    fn is_spaced()
        ensures { IsSpaced width };

    /// The mark.
    fn mark() -> Self
        ensures { value result ≡ width.mark };

    /// The least sum of two scores.
    fn least_sum() -> i64
        ensures { result ≡ least_sum width };

    /// The sum of two numbers.
    fn plus(self, other: Self) -> Self
        requires first { IsProper width (value self) }
        requires second { IsProper width (value other) }
        ensures { value result ≡ (value self +ℤ value other) };

    /// The greater of two numbers.
    fn most(self, other: Self) -> Self
        ensures { value result ≡ int_max (value self) (value other) };

    /// The lesser of two numbers.
    fn least(self, other: Self) -> Self
        ensures { value result ≡ int_min (value self) (value other) };

    /// The sum of two numbers, where it is within the limit, and else any number.
    fn sum_within(self, other: Self) -> Self
        ensures { nat_abs (value self +ℤ value other) ≤ width.limit
            → value result ≡ (value self +ℤ value other) };

    /// The difference of two numbers, where it is within the limit, and else any number.
    fn difference_within(self, other: Self) -> Self
        ensures { nat_abs (value self -ℤ value other) ≤ width.limit
            → value result ≡ (value self -ℤ value other) };

    /// The product of two numbers, where it is within the limit, and else any number.
    fn product_within(self, other: Self) -> Self
        ensures { nat_abs (value self *ℤ value other) ≤ width.limit
            → value result ≡ (value self *ℤ value other) };

    /// Whether it is the mark.
    fn is_mark(self) -> bool
        ensures { IsTrue result ↔ (value self ≡ width.mark) };

    /// The number in 64 bits.
    fn wide(self) -> i64
        ensures { result ≡ value self };

    /// A number of 64 bits in this width, where it is within the limit, and else any number.
    fn narrow(number: i64) -> Self
        ensures { nat_abs number ≤ width.limit → value result ≡ number };
}

impl Number for i16 {
    ghost width = { short };

    ghost value = { λ number. number };

    fn is_spaced() {}

    fn mark() -> i16 {
        SHORT_MARK
    }

    fn least_sum() -> i64 {
        -2 * i64::from(SHORT_LIMIT)
    }

    fn plus(self, other: i16) -> i16 {
        self + other
    }

    fn most(self, other: i16) -> i16 {
        self.max(other)
    }

    fn least(self, other: i16) -> i16 {
        self.min(other)
    }

    fn sum_within(self, other: i16) -> i16 {
        self.wrapping_add(other)
    }

    fn difference_within(self, other: i16) -> i16 {
        self.wrapping_sub(other)
    }

    fn product_within(self, other: i16) -> i16 {
        self.wrapping_mul(other)
    }

    fn is_mark(self) -> bool {
        self == SHORT_MARK
    }

    fn wide(self) -> i64 {
        i64::from(self)
    }

    fn narrow(number: i64) -> i16 {
        i16::try_from(number).unwrap_or(0)
    }
}

impl Number for i32 {
    ghost width = { medium };

    ghost value = { λ number. number };

    fn is_spaced() {}

    fn mark() -> i32 {
        MEDIUM_MARK
    }

    fn least_sum() -> i64 {
        -2 * i64::from(MEDIUM_LIMIT)
    }

    fn plus(self, other: i32) -> i32 {
        self + other
    }

    fn most(self, other: i32) -> i32 {
        self.max(other)
    }

    fn least(self, other: i32) -> i32 {
        self.min(other)
    }

    fn sum_within(self, other: i32) -> i32 {
        self.wrapping_add(other)
    }

    fn difference_within(self, other: i32) -> i32 {
        self.wrapping_sub(other)
    }

    fn product_within(self, other: i32) -> i32 {
        self.wrapping_mul(other)
    }

    fn is_mark(self) -> bool {
        self == MEDIUM_MARK
    }

    fn wide(self) -> i64 {
        i64::from(self)
    }

    fn narrow(number: i64) -> i32 {
        i32::try_from(number).unwrap_or(0)
    }
}

impl Number for i64 {
    ghost width = { long };

    ghost value = { λ number. number };

    fn is_spaced() {}

    fn mark() -> i64 {
        LONG_MARK
    }

    fn least_sum() -> i64 {
        -2 * LONG_LIMIT
    }

    fn plus(self, other: i64) -> i64 {
        self + other
    }

    fn most(self, other: i64) -> i64 {
        self.max(other)
    }

    fn least(self, other: i64) -> i64 {
        self.min(other)
    }

    fn sum_within(self, other: i64) -> i64 {
        self.wrapping_add(other)
    }

    fn difference_within(self, other: i64) -> i64 {
        self.wrapping_sub(other)
    }

    fn product_within(self, other: i64) -> i64 {
        self.wrapping_mul(other)
    }

    fn is_mark(self) -> bool {
        self == LONG_MARK
    }

    fn wide(self) -> i64 {
        self
    }

    fn narrow(number: i64) -> i64 {
        number
    }
}
