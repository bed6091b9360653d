//! Runs of ends of an argument at which it is noted whether the others are laid behind it, gone through 64 at a time.

ghost use Rattle.std.specs.Prelude.{◌↔◌, ◌≡◌, ◌+◌, ◌<◌, ◌≤◌, ℕ, IfSome, IsTrue, length};
ghost use Rattle.adp_model.specs.declared.cell.Cell.{Cell};
ghost use Rattle.adp_model.specs.PosedProblem.{PosedProblem};
ghost use Rattle.adp_model.specs.Cells.{IsCounted};
ghost use Rattle.adp_model.specs.Splits.{FitsSpan};
ghost use Rattle.viable_splits.specs.Placing.{on_span};
ghost use Rattle.split_lines.specs.Laid.{IsCellOf};
ghost use Rattle.cell_tables.specs.Bits.{IsBitOf};
ghost use Rattle.cell_tables.specs.Marks.{AreInRows, AreMarkedFrom, AreMarkedToo, CellMarks};
ghost use Rattle.cell_demands.specs.Runs.{CoversBelow, DemandsBelow};
ghost use Rattle.cell_demands.specs.Tails.{IsOwner};
ghost use Rattle.cell_demands.specs.TailNotes.{AreToldOf, AreTrue};

use crate::bits::{first_clear, first_set, last_set};
use crate::tails::{EndNotes, Owner, Tails, tail_of};
use adp_model::Arg;
use cell_tables::Marks;
use split_lines::Lines;

/// Where a run of ends stops, and whether the others are laid behind one of them.
#[derive(Clone, Copy)]
pub struct Run {
    pub past: u16,
    pub is_laid: bool,
}

/// Marks the cells of the argument on the spans that begin at `from` and end from `first` on and before `past`, where
/// `bits` are set, if the argument is a rule. Whether one of the bits is set.
#[inline]
fn mark_ends(
    argument: &Arg,
    from: u16,
    first: u16,
    past: u16,
    bits: &[u64],
    marks: &mut Marks<'_>,
) -> bool
    requires few { past ≤ 4096 }
    requires counted { (cell : Cell) (end : ℕ) → IsBitOf bits.now first past end
        → IsCellOf argument.now from end cell
        → IsCounted marks.old.problem.grammar (length marks.old.problem.word) cell }
    ensures some { IsTrue result ↔ ((end : ℕ) × IsBitOf bits.now first past end) }
    ensures marked { AreMarkedToo marks.old marks.new
        (λ cell. (end : ℕ) × IsBitOf bits.now first past end × IsCellOf argument.now from end cell) }
    ensures in_row { AreInRows marks.new
        (λ cell. (end : ℕ) × IsBitOf bits.now first past end × IsCellOf argument.now from end cell) }
{
    let Some(last) = last_set(bits, first, past) else {
        return false;
    };
    if let Arg::Rule(rule) = argument {
        let least = first_set(bits, first, last);
        marks.mark_ends_of(*rule, from, least, last + 1, bits);
    }
    true
}

/// What is noted of the arguments up to an end, if anything is.
#[inline(always)]
fn notes_of<'t>(
    owner: Option<Owner>,
    arguments: &[Arg],
    to: u16,
    tails: &'t Tails,
) -> Option<&'t EndNotes>
    requires { length arguments.now ≤ 4 }
    ensures { IfSome result (λ notes. (p : PosedProblem) (marks : CellMarks) → IsOwner p owner arguments.now
        → AreTrue p marks tails.now → AreToldOf p marks arguments.now to notes.now) }
{
    let tail = tail_of(owner, arguments)?;
    tails.notes_to(tail, to)
}

/// Marks what an argument and the others behind it demand where they are laid from `from` to `to` and the argument ends
/// from `first` on and before `past`, up to the first end at which nothing is noted of the others. What is noted says
/// nothing of rows, so it is looked up behind `begin` alone.
#[inline]
pub fn mark_run(
    lines: &Lines<'_>,
    owner: Option<Owner>,
    argument: &Arg,
    others: &[Arg],
    begin: u16,
    from: u16,
    first: u16,
    past: u16,
    to: u16,
    tails: &Tails,
    marks: &mut Marks<'_>,
) -> Run
    requires owner { IsOwner lines.now owner others.now }
    requires few { length others.now ≤ 4 }
    requires within { past ≤ length lines.now.word + 1 }
    requires same_problem { marks.old.problem ≡ lines.now }
    requires noted { AreTrue lines.now marks.old tails.now }
    requires fit { (end : ℕ) → first ≤ end → end < past → FitsSpan lines.now (on_span argument.now from end) }
    requires counted { (cell : Cell) → DemandsBelow lines.now argument.now others.now from to first past cell
        → IsCounted lines.now.grammar (length lines.now.word) cell }
    ensures from_first { first ≤ result.past }
    ensures laid { IsTrue result.is_laid ↔ CoversBelow lines.now argument.now others.now from to first result.past }
    ensures marked { AreMarkedFrom begin marks.old marks.new
        (DemandsBelow lines.now argument.now others.now from to first result.past) }
{
    if begin < first && first < past {
        if let Some(notes) = notes_of(owner, others, to, tails) {
            lines.problem().admissible();
            let stop = first_clear(&notes.known, first, past);
            let is_laid = mark_ends(argument, from, first, stop, &notes.laid, marks);
            return Run {
                past: stop,
                is_laid,
            };
        }
    }
    Run {
        past: first,
        is_laid: false,
    }
}
