ghost use Rattle.std.specs.Prelude.{◌≡◌, ◌≢◌, ℕ, ◌+◌, ◌^◌, ◌<◌, ◌≤◌, min, length, slice_index};
ghost use Rattle.adp_model.specs.LimitFaults.{told};
ghost use Rattle.adp_model.specs.WideTerms.{form_of};
ghost use Rattle.grammar_check.specs.Plans.{part_at};
ghost use Rattle.grammar_check.specs.Tables.{entry};
ghost use Rattle.grammar_check.specs.TermSpreads.{IsLeaf, joined, put, term_spread};
ghost use Rattle.grammar_check.specs.WideRows.{AreAllReadable, AreReadAt, AreTermRows, rows_of};

use crate::cut::CUT;
use crate::node::{Operation, node_of, part_at, term_room};
use crate::part::Part;
use crate::table::Table;
use adp_model::Wide;

/// How many rows the nodes of a term have.
pub fn rows_of(term: &Wide) -> usize
    requires { rows_of (form_of term.now) < 2 ^ 32 }
    ensures { result ≡ rows_of (form_of term.now) }
{
    match term {
        Wide::Number(_) | Wide::Value(_) => 0,
        Wide::Sum(left, right)
        | Wide::Difference(left, right)
        | Wide::Product(left, right)
        | Wide::Greater(left, right)
        | Wide::Lesser(left, right) => rows_of(left) + rows_of(right) + 2,
    }
}

/// What a term without sides comes to, cut.
fn leaf(term: &Wide, parts: &[Part], bounds: &Table, spare: usize) -> u64
    requires readable { AreAllReadable bounds.now.rows parts.now }
    requires within { (place : ℕ) → (part_at parts.now place).low + spare < bounds.now.width }
    ensures { (bound : ℕ → ℕ → ℕ) → IsLeaf (form_of term.now) → AreReadAt bound bounds.now parts.now spare
        → result ≡ told (term_spread bound parts.now (form_of term.now) spare) }
{
    match term {
        Wide::Number(number) => number.unsigned_abs().min(CUT),
        Wide::Value(place) => {
            let part = part_at(parts, *place as usize);
            part.worth.at(bounds, part.low + spare)
        }
        _ => 0,
    }
}

/// The greatest that two sides come to over all ways to share so many spare letters, cut, by their rows.
fn best_of_sides(
    operation: Operation,
    left: &[u64],
    left_room: usize,
    right: &[u64],
    right_room: usize,
    spare: usize,
) -> u64
    requires left { spare < length left.now }
    requires right { spare < length right.now }
    requires short { spare < 2 ^ 32 }
    ensures { (one other : ℕ → ℕ) → ((column : ℕ) → column ≤ spare → slice_index left.now column ≡ told (one column))
        → ((column : ℕ) → column ≤ spare → slice_index right.now column ≡ told (other column))
        → result ≡ told (joined operation one left_room other right_room spare) }
{
    let first = spare.saturating_sub(right_room);
    let last = spare.min(left_room);
    let mut best = 0;
    for more in first..last + 1 {
        best = best.max(operation.put(left[more], right[spare - more]));
    }
    best
}

/// The greatest that the term comes to over all ways to spread so many spare letters over the arguments that it names,
/// cut. It is written nowhere, but for what each side of each node comes to, whose rows begin at `first` and have what
/// they come to with fewer letters.
pub fn extend_term(
    term: &Wide,
    parts: &[Part],
    rows: &mut Table,
    first: usize,
    bounds: &Table,
    spare: usize,
) -> u64
    requires readable { AreAllReadable bounds.now.rows parts.now }
    requires within { (place : ℕ) → (part_at parts.now place).low + spare < bounds.now.width }
    requires rows { first + rows_of (form_of term.now) ≤ rows.old.rows }
    requires many { rows.old.rows < 2 ^ 32 }
    requires column { spare < rows.old.width }
    requires short { spare < 2 ^ 32 }
    ensures rows { rows.new.rows ≡ rows.old.rows }
    ensures width { rows.new.width ≡ rows.old.width }
    ensures other_columns { (row column : ℕ) → column ≢ spare → column < rows.old.width
        → entry rows.new row column ≡ entry rows.old row column }
    ensures lower_rows { (row : ℕ) → row < first → entry rows.new row spare ≡ entry rows.old row spare }
    ensures further_rows { (row : ℕ) → first + rows_of (form_of term.now) ≤ row
        → entry rows.new row spare ≡ entry rows.old row spare }
    ensures value { (bound : ℕ → ℕ → ℕ) → AreReadAt bound bounds.now parts.now spare
        → AreTermRows bound parts.now rows.old (form_of term.now) first spare
        → result ≡ told (term_spread bound parts.now (form_of term.now) spare) }
    ensures spread { (bound : ℕ → ℕ → ℕ) → AreReadAt bound bounds.now parts.now spare
        → AreTermRows bound parts.now rows.old (form_of term.now) first spare
        → AreTermRows bound parts.now rows.new (form_of term.now) first (spare + 1) }
{
    let Some(node) = node_of(term) else {
        return leaf(term, parts, bounds, spare);
    };
    let middle = first + rows_of(node.left);
    let own = middle + rows_of(node.right);
    let left = extend_term(node.left, parts, rows, first, bounds, spare);
    let right = extend_term(node.right, parts, rows, middle, bounds, spare);
    rows.set(own, spare, left);
    rows.set(own + 1, spare, right);
    best_of_sides(
        node.operation,
        rows.row(own),
        term_room(node.left, parts),
        rows.row(own + 1),
        term_room(node.right, parts),
        spare,
    )
}
