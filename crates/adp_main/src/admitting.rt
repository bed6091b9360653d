//! Words that keep the limits, admitted: each is so again when its report is written.
ghost use Rattle.std.specs.Prelude.{◌≡◌, ◌≤◌, MatchResult, None, length, slice_index_or};
ghost use Rattle.adp_model.specs.Bounds.{IsNodeBound, IsScoreBound};
ghost use Rattle.adp_model.specs.LimitFaults.{IsLimitFault};
ghost use Rattle.adp_model.specs.ProblemFields.{KeepsLimits, greatest_score, most_nodes};
ghost use Rattle.grammar_check.specs.Admitted.{IsProblemOf};
ghost use Rattle.grammar_check.specs.ToldRows.{AreRowsOf};
ghost use Rattle.verdicts.specs.declared.command.Mode.TheVariants.{Lex};
ghost use Rattle.adp_main.specs.KeptLengths.{HasKept, IsCompiledBound};

use crate::checking::CheckedJob;
use crate::limits::Judged;
use adp_model::laws::bounds::words_have_one_bound;
use adp_model::laws::limits::limits_are_kept_or_passed;
use adp_model::{LimitFault, Problem, Text};
use grammar_check::{BoundRows, Checked, admit_within, cells_within_limits};
use verdicts::Command;

/// The problem of the word, or the fault of the first limit that it passes.
pub(crate) fn admit_word<'a>(
    checked: &'a Checked,
    rows: &BoundRows,
    word: &'a Text,
) -> Result<Problem<'a>, LimitFault>
    requires rows { AreRowsOf checked.now rows.now }
    requires known { length word.now ≤ rows.now.longest }
    ensures { MatchResult result (IsProblemOf checked.now word.now)
        (IsLimitFault checked.now.grammar checked.now.algebra (length word.now)) }
{
    let cells = cells_within_limits(checked, word)?;
    admit_within(checked, rows, word, cells)
}

/// The word's score bound, which keeps the limits as it does.
pub(crate) fn bound_of(problem: &Problem<'_>) -> u64
    ensures bound { IsScoreBound problem.now.grammar problem.now.algebra (length problem.now.word) result }
    ensures low { result ≤ greatest_score }
    ensures kept { KeepsLimits problem.now.grammar problem.now.algebra (length problem.now.word) }
{
    problem.admissible();
    problem.score_bound
}

/// The node bound of a word that keeps the limits. Takes no memory.
pub(crate) fn nodes_of(checked: &Checked, rows: &BoundRows, word: &Text) -> u64
    requires rows { AreRowsOf checked.now rows.now }
    requires known { length word.now ≤ rows.now.longest }
    requires limits { KeepsLimits checked.now.grammar checked.now.algebra (length word.now) }
    ensures bound { IsNodeBound checked.now.grammar (length word.now) result }
    ensures few { result ≤ most_nodes }
{
    checked.passes();
    words_have_one_bound();
    rows.nodes.as_slice()[word.bytes().len()]
}

/// The problem of a word that keeps the limits. Takes no memory.
pub(crate) fn admitted<'a>(checked: &'a Checked, rows: &BoundRows, word: &'a Text) -> Problem<'a>
    requires rows { AreRowsOf checked.now rows.now }
    requires known { length word.now ≤ rows.now.longest }
    requires limits { KeepsLimits checked.now.grammar checked.now.algebra (length word.now) }
    ensures { IsProblemOf checked.now word.now result }
{
    checked.passes();
    limits_are_kept_or_passed();
    match admit_word(checked, rows, word) {
        Ok(problem) => problem,
        Err(_) => unreachable!(),
    }
}

/// The score bound of the word under the compiled algebra of a job's pair, which was found when its length was judged.
pub(crate) fn compiled_bound(
    command: &Command<'_>,
    job: &CheckedJob,
    judged: &Judged,
    word: &Text,
) -> u64
    requires mode { command.now.mode ≡ Lex }
    requires kept { HasKept command.now.second job.now.checked.grammar job.now.checked.algebra
        judged.now.compiled.items (length word.now) }
    ensures { IsCompiledBound command.now.second job.now.checked.grammar job.now.checked.algebra (length word.now)
        result }
{
    command.in_range();
    match bound_at(&judged.compiled, word) {
        Some(bound) => bound,
        None => unreachable!(),
    }
}

/// What is kept for words of this length.
pub(crate) fn bound_at(compiled: &[Option<u64>], word: &Text) -> Option<u64>
    ensures { result ≡ slice_index_or compiled.now (length word.now) None }
{
    compiled.get(word.bytes().len()).copied().unwrap_or(None)
}
