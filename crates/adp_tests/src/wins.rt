// Lines `wins` of reports, whose numbers are others from run to run.

use std::alloc::{AllocError, Global};
use std::str::from_utf8;

/// The reports without their lines `wins`, where behind each line `cells` there is one, of so many numbers with the
/// number of cells for their sum.
pub(crate) fn without_wins(
    alloc: Global,
    reports: &[u8],
    winners: usize,
) -> Result<Option<Vec<u8>>, AllocError> {
    let mut rest = Vec::new(alloc);
    let mut cells: Option<u64> = None;
    for line in from_utf8(reports).unwrap_or("").lines() {
        match (cells, line.strip_prefix("wins ")) {
            (Some(count), Some(wins)) if are_wins(wins, winners, count) => cells = None,
            (None, None) => {
                rest.extend_from_slice(line.as_bytes())?;
                rest.push(b'\n')?;
                cells = line
                    .strip_prefix("cells ")
                    .and_then(|count| count.parse::<u64>().ok());
            }
            _ => return Ok(None),
        }
    }
    Ok(if cells.is_none() { Some(rest) } else { None })
}

// Whether these are so many numbers with this sum.
fn are_wins(wins: &str, winners: usize, cells: u64) -> bool {
    let mut count = 0usize;
    let mut sum = 0u64;
    for number in wins.split(' ') {
        let Ok(number) = number.parse::<u64>() else {
            return false;
        };
        count = count.saturating_add(1);
        sum = sum.saturating_add(number);
    }
    count == winners && sum == cells
}
