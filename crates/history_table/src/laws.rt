//! Laws of the history. These functions do nothing when they run.
ghost use Rattle.history_table.specs.History.{IsNewMarkTrue};

use crate::rule::Seats;
use atomic_table::TableRule;

/// A new mark is true: where the rule with its history holds before and after a step, and the view gained one mark, the
/// mark's word held the number of the mark before, and the words after differ by what the mark's deed leaves there, and
/// by nothing else. So no step that lies can keep the rule, whatever it tells.
pub fn marks_are_true<S, V, K, P: TableRule<S, V, K> + Seats<K>>(about: &K)
    ensures { IsNewMarkTrue (P.holds about.now) (P.seats about.now) }
{
    let _ = about;
}
