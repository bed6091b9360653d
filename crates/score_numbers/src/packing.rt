//! Scores in few bits. A number of a width stands for a score that was turned, so that a better one is greater, or
//! marks that there is no candidate. Sums of two such numbers have the same bits, and are lowest where one of them is
//! the mark.

ghost use Rattle.std.specs.Prelude.{◌≡◌, ◌<◌, ◌≤◌, ◌^◌, IfSome, nat_abs, unwrap_or};
ghost use Rattle.score_numbers.specs.Entries.{no_candidate, score_of_entry};
ghost use Rattle.score_numbers.specs.Packing.{IsProper, long, medium, short, told};

use crate::numbers::turned;
use adp_model::Goal;

/// The entry of a cell that has no candidate: a number that no score is.
pub const NO_CANDIDATE: i64 = i64::MIN;

/// What marks in 16 bits that there is no candidate.
pub const SHORT_MARK: i16 = -0x4000;

/// A limit of sums of 16 bits that no sum passes.
pub const NO_LIMIT: i16 = i16::MAX;

/// The greatest absolute value of a score in 16 bits.
pub const SHORT_LIMIT: i16 = 0x1000;

/// What marks in 32 bits that there is no candidate.
pub const MEDIUM_MARK: i32 = -0x4000_0000;

/// The greatest absolute value of a score in 32 bits.
pub const MEDIUM_LIMIT: i32 = 0x1000_0000;

/// What marks in 64 bits that there is no candidate.
pub const LONG_MARK: i64 = -0x4000_0000_0000_0000;

/// The greatest absolute value of a score in 64 bits that was turned.
pub const LONG_LIMIT: i64 = 0x1000_0000_0000_0000;

/// The score that an entry tells.
pub fn score_of(entry: i64) -> Option<i64>
    ensures { result ≡ score_of_entry entry }
{
    if entry == NO_CANDIDATE {
        None
    } else {
        Some(entry)
    }
}

/// The number of 16 bits that stands for a score.
pub fn short_number(goal: Goal, score: Option<i64>) -> i16
    requires { IfSome score (λ score. nat_abs score ≤ 2 ^ 12) }
    ensures told { told short goal result ≡ unwrap_or score no_candidate }
    ensures proper { IsProper short result }
{
    match score {
        Some(score) => turned(goal, score) as i16,
        None => SHORT_MARK,
    }
}

/// The number of 32 bits that stands for a score.
pub fn medium_number(goal: Goal, score: Option<i64>) -> i32
    requires { IfSome score (λ score. nat_abs score ≤ 2 ^ 28) }
    ensures told { told medium goal result ≡ unwrap_or score no_candidate }
    ensures proper { IsProper medium result }
{
    match score {
        Some(score) => turned(goal, score) as i32,
        None => MEDIUM_MARK,
    }
}

/// The number of 64 bits that stands for a score, turned.
pub fn long_number(goal: Goal, score: Option<i64>) -> i64
    requires { IfSome score (λ score. nat_abs score ≤ 2 ^ 60) }
    ensures told { told long goal result ≡ unwrap_or score no_candidate }
    ensures proper { IsProper long result }
{
    match score {
        Some(score) => turned(goal, score),
        None => LONG_MARK,
    }
}

/// The entry that a number of 16 bits stands for.
pub fn short_entry(goal: Goal, number: i16) -> i64
    ensures { result ≡ told short goal number }
{
    if number == SHORT_MARK {
        NO_CANDIDATE
    } else {
        turned(goal, i64::from(number))
    }
}

/// The entry that a number of 32 bits stands for.
pub fn medium_entry(goal: Goal, number: i32) -> i64
    ensures { result ≡ told medium goal number }
{
    if number == MEDIUM_MARK {
        NO_CANDIDATE
    } else {
        turned(goal, i64::from(number))
    }
}

/// The entry that a number of 64 bits stands for, where it stands for a score that was turned.
pub fn long_entry(goal: Goal, number: i64) -> i64
    requires { IsProper long number }
    ensures { result ≡ told long goal number }
{
    if number == LONG_MARK {
        NO_CANDIDATE
    } else {
        turned(goal, number)
    }
}
