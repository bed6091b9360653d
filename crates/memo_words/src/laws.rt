//! What the rule says of the words between any two steps.

ghost use Rattle.std.specs.Prelude.{ℕ, ◌+◌, ◌*◌, ◌≤◌, min};
ghost use Rattle.atomic_table.specs.Table.{State};
ghost use Rattle.adp_model.specs.Demand.{IsDemandedCount};
ghost use Rattle.memo_words.specs.declared.view.View.{View};
ghost use Rattle.memo_words.specs.Layout.{Plan, IsPlanned, counter, key, slots_of, tally};
ghost use Rattle.memo_words.specs.Kept.{Kept};

use adp_model::laws::demand::demanded_cells_are_within_the_cell_bound;

/// Neither the positions nor the records can run out: there are at most as many keys as demanded cells, they fill at
/// most half of the positions, and the counter is at most the demanded cells and the seats.
pub fn table_has_room()
    ensures keys { (plan : Plan) (state : State ℕ View) (m : ℕ) → Kept plan state → IsDemandedCount plan.problem m
        → tally (λ position. min (key state.words position) 1) (slots_of plan) ≤ m }
    ensures half { (plan : Plan) (state : State ℕ View) (m : ℕ) → Kept plan state → IsPlanned plan
        → IsDemandedCount plan.problem m
        → 2 * tally (λ position. min (key state.words position) 1) (slots_of plan) ≤ slots_of plan }
    ensures records { (plan : Plan) (state : State ℕ View) (m : ℕ) → Kept plan state → IsDemandedCount plan.problem m
        → counter state.words ≤ m + plan.seats }
{
    demanded_cells_are_within_the_cell_bound();
}
