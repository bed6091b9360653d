ghost use Rattle.std.specs.Prelude.{◌≡◌, ◌≤◌, MatchResult, length};
ghost use Rattle.adp_model.specs.Bounds.{IsScoreBound};
ghost use Rattle.adp_model.specs.LimitFaults.{HasFewNodes, IsLimitFault};
ghost use Rattle.adp_model.specs.ProblemFields.{KeepsLimits, greatest_score};
ghost use Rattle.grammar_check.specs.Admitted.{IsProblemOf, KeepsCells, MatchAdmission};
ghost use Rattle.grammar_check.specs.ToldRows.{AreRowsOf};

use crate::bounds::BoundRows;
use crate::checked::Checked;
use crate::cut::CUT;
use crate::error::AdmitError;
use adp_model::laws::bounds::words_have_one_bound;
use adp_model::laws::limits::limits_are_kept_or_passed;
use adp_model::{LimitFault, MOST_LETTERS, Problem, Text};
use cell_layouts::cell_bound;
use std::alloc::Global;

/// The greatest cell bound of a word.
const MOST_CELLS: u64 = 2_097_152;
/// The greatest node bound of a word.
const MOST_NODES: u64 = 1_048_576;
/// The greatest score bound of a word.
const GREATEST_SCORE: u64 = 4_611_686_018_427_387_903;

/// The cell bound of the word, where its length and its cell bound keep their limits; else the fault. Takes no memory.
pub fn cells_within_limits(checked: &Checked, word: &Text) -> Result<u64, LimitFault>
    ensures { MatchResult result (KeepsCells checked.now.grammar (length word.now))
        (IsLimitFault checked.now.grammar checked.now.algebra (length word.now)) }
{
    checked.passes();
    let letters = word.bytes().len();
    if letters > MOST_LETTERS {
        let number = (letters as u64).min(CUT);
        return Err(LimitFault { kind: 1, number });
    }
    let letters = letters as u32;
    let cells = cell_bound(&checked.grammar, &checked.sizes, &checked.anchors, letters);
    if cells > MOST_CELLS {
        let number = cells.min(CUT);
        return Err(LimitFault { kind: 2, number });
    }
    Ok(cells)
}

/// The problem of the word, whose length and cell bound keep their limits, where its node bound and its score bound
/// keep theirs; else the fault. The rows of the bounds are known up to the word's length. Takes no memory.
pub fn admit_within<'a>(
    checked: &'a Checked,
    rows: &BoundRows,
    word: &'a Text,
    cells: u64,
) -> Result<Problem<'a>, LimitFault>
    requires rows { AreRowsOf checked.now rows.now }
    requires known { length word.now ≤ rows.now.longest }
    requires cells { KeepsCells checked.now.grammar (length word.now) cells }
    ensures { MatchResult result (IsProblemOf checked.now word.now)
        (IsLimitFault checked.now.grammar checked.now.algebra (length word.now)) }
{
    checked.passes();
    let letters = word.bytes().len();
    let nodes = rows.nodes.as_slice()[letters];
    if nodes > MOST_NODES {
        return Err(LimitFault {
            kind: 3,
            number: nodes,
        });
    }
    let score_bound = rows.scores.as_slice()[letters];
    if score_bound > GREATEST_SCORE {
        return Err(LimitFault {
            kind: 4,
            number: score_bound,
        });
    }
    Ok(posed(checked, word, cells, score_bound))
}

/// The problem of the word, which keeps the limits and has these bounds.
fn posed<'a>(checked: &'a Checked, word: &'a Text, cells: u64, score_bound: u64) -> Problem<'a>
    requires cells { KeepsCells checked.now.grammar (length word.now) cells }
    requires nodes { HasFewNodes checked.now.grammar (length word.now) }
    requires scores { IsScoreBound checked.now.grammar checked.now.algebra (length word.now) score_bound }
    requires low { score_bound ≤ greatest_score }
    ensures { IsProblemOf checked.now word.now result }
{
    checked.passes();
    Problem {
        grammar: &checked.grammar,
        algebra: checked.algebra,
        word,
        least: &checked.sizes.least,
        greatest: &checked.sizes.greatest,
        ranks: &checked.ranks,
        left: &checked.anchors.left,
        right: &checked.anchors.right,
        cells,
        score_bound,
    }
}

/// The problem of the word, which keeps the limits and has this score bound: as rows would give it. Takes no memory.
pub fn admit_known<'a>(checked: &'a Checked, word: &'a Text, score_bound: u64) -> Problem<'a>
    requires limits { KeepsLimits checked.now.grammar checked.now.algebra (length word.now) }
    requires bound { IsScoreBound checked.now.grammar checked.now.algebra (length word.now) score_bound }
    ensures { IsProblemOf checked.now word.now result }
{
    checked.passes();
    limits_are_kept_or_passed();
    words_have_one_bound();
    match cells_within_limits(checked, word) {
        Ok(cells) => posed(checked, word, cells, score_bound),
        Err(_) => unreachable!(),
    }
}

/// The problem of the checked grammar, its algebra and the word, where the word keeps the limits; else the fault: the
/// first of its length, its cell bound, its node bound and its score bound that passes its limit.
pub fn admit<'a>(
    alloc: Global,
    checked: &'a Checked,
    word: &'a Text,
) -> Result<Problem<'a>, AdmitError>
    ensures { MatchAdmission checked.now word.now result }
{
    let cells = match cells_within_limits(checked, word) {
        Ok(cells) => cells,
        Err(fault) => return Err(AdmitError::Fault(fault)),
    };
    let rows = BoundRows::new(alloc, checked, word.bytes().len() as u32)?;
    match admit_within(checked, &rows, word, cells) {
        Ok(problem) => Ok(problem),
        Err(fault) => Err(AdmitError::Fault(fault)),
    }
}
