//! The table of words that are all 0.

ghost use Rattle.std.specs.Prelude.{◌≡◌, ◌≤◌, [], IfOk};
ghost use Rattle.atomic_table.specs.Table.{opening};
ghost use Rattle.history_table.specs.History.{first_marked, zeros};
ghost use Rattle.memo_words.specs.Kept.{Kept};
ghost use Rattle.memo_words.specs.Views.{first_view};

use crate::plan::Key;
use crate::rule::TableKept;
use crate::view::View;
use atomic_table::Seat;
use history_table::{HistoryTable, WithMarks};
use std::alloc::{AllocError, Global};

/// The table of a memo's words, with the seat that has all its parts.
pub(crate) type Seated = (
    HistoryTable<u8, View, Key, TableKept, Global>,
    Seat<u8, WithMarks<View>>,
);

/// Zeros that nobody writes: the system gives one page for all of them.
static ZEROS: [u64; 65_536] = [0; 65_536];

/// So many of the zeros that stand ready.
fn ready_zeros(count: usize) -> &'static [u64]
    requires { count ≤ 65536 }
    ensures { result.now ≡ zeros count }
{
    &ZEROS[..count]
}

/// A table of so many words, which are all 0. Those of a short word are copied from zeros that stand ready.
pub(crate) fn table_of_zeros(alloc: Global, count: usize, key: &Key) -> Result<Seated, AllocError>
    requires { Kept key.now (opening (zeros count) [] (first_view key.now)) }
    ensures table { IfOk result (λ made. (made.0.table.shared.table_id.words ≡ count)
        × (made.0.table.shared.table_id.slots ≡ 0) × (made.0.table.shared.key ≡ key.now)) }
    ensures seat { IfOk result (λ made. (made.1.table_id ≡ made.0.table.shared.table_id) × (made.1.id ≡ 0)
        × (made.1.me ≡ (first_marked key.now.seats (first_view key.now), []))) }
{
    if count <= ZEROS.len() {
        return HistoryTable::of_zeros(alloc, ready_zeros(count), key);
    }
    let words = Vec::from_elem(alloc, 0, count)?;
    HistoryTable::of_zeros(alloc, words.as_slice(), key)
}
