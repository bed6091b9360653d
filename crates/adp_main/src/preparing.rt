//! Problems prepared to be solved, over what the words of a job share where that is worked out for all of them.
ghost use Rattle.std.specs.Prelude.{◌≡◌, [], IfOk};
ghost use Rattle.std.specs.Option.{option_copied};
ghost use Rattle.split_lines.specs.Shared.{without_word};
ghost use Rattle.verdicts.specs.Posed.{posed_word};
ghost use Rattle.adp_main.specs.JudgedWords.{AreJudged};
ghost use Rattle.adp_main.specs.SharedWords.{IsSharedOf};

use crate::admitting::admitted;
use crate::checking::CheckedJob;
use crate::limits::Judged;
use crate::writing::is_admitted;
use adp_model::Problem;
use cell_layouts::Layout;
use split_lines::{Prepared, Shared, Sharing};
use std::alloc::{AllocError, Global};
use verdicts::{Command, Mode};

/// Whether words are prepared over what they share.
fn is_shared_in(mode: Mode) -> bool {
    matches!(mode, Mode::Best | Mode::Serial | Mode::Cert | Mode::KBest)
}

/// What the words of the job share, worked out from the first of them, in the modes that prepare their words over it.
/// Nothing where there is no word, or no memory for it: each word is then prepared anew.
pub(crate) fn shared_by_words<'a>(
    alloc: Global,
    command: &Command<'_>,
    job: &'a CheckedJob,
    judged: &Judged,
) -> Option<Shared<'a>>
    requires { AreJudged command.now job.now judged.now }
    ensures { IsSharedOf (posed_word job.now.checked.grammar job.now.checked.algebra []) result }
{
    let words = job.words.as_slice();
    if words.is_empty() || !is_shared_in(command.mode) {
        return None;
    }
    let word = &words[0];
    is_admitted(command, job, judged, words, 0, word);
    let problem = admitted(&job.checked, &judged.rows.first, word);
    Shared::new(alloc, &problem).ok()
}

/// The layout of the problem's cells, over what it shares with other words where there is something.
pub(crate) fn laid_out<'a>(
    alloc: Global,
    problem: &'a Problem<'a>,
    shared: Option<&'a Shared<'a>>,
) -> Result<Layout<'a>, AllocError>
    requires { IsSharedOf (without_word problem.now) (option_copied shared) }
    ensures { IfOk result (λ layout. layout ≡ problem.now) }
{
    let (_, layout) = prepare(alloc, problem, shared)?.into_parts();
    Ok(layout)
}

/// The problem prepared, over what it shares with other words where there is something.
pub(crate) fn prepare<'a>(
    alloc: Global,
    problem: &'a Problem<'a>,
    shared: Option<&'a Shared<'a>>,
) -> Result<Prepared<'a>, AllocError>
    requires { IsSharedOf (without_word problem.now) (option_copied shared) }
    ensures { IfOk result (λ prepared. prepared ≡ problem.now) }
{
    match shared {
        Some(shared) => Sharing::new(problem, shared).prepared(alloc),
        None => Prepared::new(alloc, problem),
    }
}
