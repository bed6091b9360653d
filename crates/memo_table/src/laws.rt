//! What the definitions say of a table's cells and answers.

ghost use Rattle.std.specs.Prelude.{◌≡◌, ◌<◌, ◌≤◌, ◌^◌, ℕ};
ghost use Rattle.adp_model.specs.declared.cell.Answer.{Answer};
ghost use Rattle.adp_model.specs.declared.cell.Cell.{Cell};
ghost use Rattle.adp_model.specs.PosedProblem.{PosedProblem};
ghost use Rattle.adp_model.specs.ProblemFields.{IsAdmissible, most_cells};
ghost use Rattle.adp_model.specs.Answers.{IsAnswer};
ghost use Rattle.adp_model.specs.Demand.{IsDemanded, IsDemandedCount};
ghost use Rattle.memo_words.specs.declared.view.View.{View};
ghost use Rattle.memo_words.specs.Codes.{HasCellCode};
ghost use Rattle.memo_words.specs.Layout.{Plan, IsPlanned};
ghost use Rattle.memo_words.specs.Probes.{probed};
ghost use Rattle.memo_words.specs.Steps.{AreKeys};
ghost use Rattle.memo_table.specs.Probes.{AreOthers};
ghost use Rattle.memo_table.specs.AnswerWords.{HasAnswerWords};

use adp_model::laws::bellman::bellman;
use adp_model::laws::bounds::words_keep_their_score_bound;
use adp_model::laws::demand::{
    demanded_cells_are_counted, demanded_cells_are_within_the_cell_bound,
};
use adp_model::laws::existence::demanded_cells_are_listed;
use adp_model::laws::splits::viable_cuts_lie_within_the_cell;
use adp_model::laws::well_formed::{alternatives_fit, numbers_fit_together};
use memo_words::each_position_is_tried_once;

/// The key of each demanded cell fits a key word.
pub fn demanded_cells_have_codes()
    ensures { (p : PosedProblem) → IsAdmissible p → (cell : Cell) → IsDemanded p cell → HasCellCode cell }
{
    demanded_cells_are_counted();
    numbers_fit_together();
}

/// The words of the answer of each demanded cell fit.
pub fn answers_have_words()
    ensures { (p : PosedProblem) → IsAdmissible p → (cell : Cell) (answer : Answer) → IsDemanded p cell
        → IsAnswer p cell answer → HasAnswerWords answer }
{
    bellman();
    demanded_cells_are_counted();
    words_keep_their_score_bound();
    viable_cuts_lie_within_the_cell();
    alternatives_fit();
}

/// Where all positions before hold other cells, they are fewer than the demanded cells.
pub fn other_cells_are_fewer()
    ensures demanded { (plan : Plan) → IsPlanned plan → (v : View) (cell : Cell) (turn m : ℕ) → AreKeys plan v.keys
        → IsDemanded plan.problem cell → HasCellCode cell → IsDemandedCount plan.problem m
        → AreOthers plan v cell turn → turn < m }
    ensures limit { (plan : Plan) → IsPlanned plan → IsAdmissible plan.problem → (v : View) (cell : Cell) (turn : ℕ)
        → AreKeys plan v.keys → IsDemanded plan.problem cell → HasCellCode cell
        → AreOthers plan v cell turn → turn < most_cells }
{
    each_position_is_tried_once();
    demanded_cells_are_within_the_cell_bound();
    demanded_cells_are_listed();
}

/// The search for a key comes to each position.
#[tactic(auto, using(crate::proofs::Reaching::reached))]
pub fn each_position_is_reached()
    ensures { (code bits position : ℕ) → position < 2 ^ bits
        → (turn : ℕ) × (turn < 2 ^ bits) × (probed code bits turn ≡ position) }
{}
