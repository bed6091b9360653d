ghost use Rattle.std.specs.Prelude.{◌≡◌, IfOk, None};
ghost use Rattle.job_texts.specs.TermText as terms;
ghost use Rattle.adp_model.specs.WellFormed as numbers;
ghost use Rattle.algebra_terms.specs.Reading.{part_of, parts_seen, AreTotals};

use crate::number::GREATEST;
use crate::part::Part;
use std::alloc::{AllocError, Global};
use std::collections::BTreeMap;

/// What the part adds to the constant.
fn plain_amount(part: &Part<'_>) -> i64
    ensures { result ≡ terms.amount_for None (part_of part.now) }
{
    match part.variable {
        None => part.amount.unwrap_or(0),
        Some(_) => 0,
    }
}

/// What the parts add to the constant.
pub fn constant_of(parts: &[Part<'_>]) -> i128
    ensures { result ≡ terms.total None (parts_seen parts.now) }
{
    let mut sum: i128 = 0;
    for part in parts {
        sum += i128::from(plain_amount(part));
    }
    sum
}

/// What the parts add to each of their variables.
pub fn factors_by_variable<'a>(
    alloc: Global,
    parts: &[Part<'a>],
) -> Result<BTreeMap<&'a [u8], i128>, AllocError>
    ensures { IfOk result (λ totals. AreTotals totals (parts_seen parts.now)) }
{
    let mut totals = BTreeMap::new(alloc);
    for part in parts {
        let Some(variable) = part.variable else {
            continue;
        };
        let before = totals.get(&variable).copied().unwrap_or(0);
        let amount = i128::from(part.amount.unwrap_or(0));
        totals.insert(variable, before + amount)?;
    }
    Ok(totals)
}

fn is_in_range(number: i128) -> bool
    ensures { result ≡ numbers.is_in_range number }
{
    number.unsigned_abs() <= GREATEST
}

/// Whether the constant and the factor of each variable are in range.
pub fn totals_fit<'a>(
    parts: &[Part<'a>],
    constant: i128,
    factors: &BTreeMap<&'a [u8], i128>,
) -> bool
    requires constant { constant ≡ terms.total None (parts_seen parts.now) }
    requires factors { AreTotals factors.now (parts_seen parts.now) }
    ensures { result ≡ terms.totals_fit (parts_seen parts.now) }
{
    for part in parts {
        let sum = match part.variable {
            None => constant,
            Some(variable) => factors.get(&variable).copied().unwrap_or(0),
        };
        if !is_in_range(sum) {
            return false;
        }
    }
    true
}
