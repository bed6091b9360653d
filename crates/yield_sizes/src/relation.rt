ghost use Rattle.std.specs.Prelude.{◌≡◌, ◌<◌, IfOk, [], false, length, slice_index_or};
ghost use Rattle.yield_sizes.specs.Relations.{IsSquare, IsTableOf, Leads, row_through, rows_through};

use adp_model::Sequence;
use std::alloc::{AllocError, Global};

/// Whether the first rule is related to the second.
pub fn is_related(rows: &[Sequence<bool>], from: usize, to: usize) -> bool
    ensures { result ≡ slice_index_or (slice_index_or rows.now from []) to false }
{
    match rows.get(from) {
        Some(row) => row.as_slice().get(to).copied().unwrap_or(false),
        None => false,
    }
}

fn row_through(
    alloc: Global,
    row: &[bool],
    beyond: &[bool],
    between: usize,
) -> Result<Vec<bool>, AllocError>
    requires { between < length row.now }
    ensures { IfOk result (λ new. new.items ≡ row_through row.now beyond.now between) }
{
    let leads = row[between];
    row.iter()
        .zip(beyond)
        .map(|(mark, onward)| *mark || (leads && *onward))
        .collect(alloc)
}

fn rows_through(
    alloc: Global,
    rows: &[Sequence<bool>],
    between: usize,
) -> Result<Vec<Sequence<bool>>, AllocError>
    requires within { between < length rows.now }
    requires square { IsSquare (length rows.now) rows.now }
    ensures { IfOk result (λ new. new.items ≡ rows_through rows.now between) }
{
    let beyond = rows[between].as_slice();
    let mut new = Vec::new(alloc);
    for row in rows {
        let longer = row_through(alloc, row.as_slice(), beyond, between)?;
        new.push(Sequence::new(longer))?;
    }
    Ok(new)
}

/// The relation that holds where this one leads in one step or more. The method is that of Warshall, "A theorem on
/// Boolean matrices", 1962.
pub fn closure(
    alloc: Global,
    relation: Vec<Sequence<bool>>,
) -> Result<Vec<Sequence<bool>>, AllocError>
    requires { IsSquare (length relation.items) relation.items }
    ensures { IfOk result (λ closed. IsTableOf (length relation.items) (Leads relation.items) closed.items) }
{
    let mut rows = relation;
    for between in 0..rows.len() {
        rows = rows_through(alloc, &rows, between)?;
    }
    Ok(rows)
}
