use adp_model::{Answer, Cell};
use memo_model::{Position, Visit};

/// What a machine has noted of cells: which, and their scores. A problem's; cells are noted by `note` alone.
pub(crate) trait Notes {
    ghost use Rattle.std.specs.Prelude.{◌≡◌, ◌↔◌, ◌⊎◌, MatchOption};
    ghost use Rattle.adp_model.specs.declared.cell.Cell.{Cell};
    ghost use Rattle.adp_model.specs.PosedProblem.{PosedProblem};
    ghost use Rattle.adp_model.specs.Answers.{IsAnswer};
    ghost use Rattle.adp_model.specs.Demand.{IsDemanded, IsDemandedChild};
    ghost use Rattle.adp_model.specs.SplitArguments.{IsSplitArgument};
    ghost use Rattle.memo_model.specs.Visits.{argument_at, IsWalk};
    ghost use Rattle.memo_model.specs.Memos.{IsScoreOf};
    ghost use Rattle.argument_search.specs.Seeking.{IsNextSought, IsNoneSought};

    ghost problem: { Self → PosedProblem };

    ghost noted: { Self → Cell → Type 0 };

    /// Notes the score of a cell's answer, `None` where it has no candidate.
    fn note(&mut self, cell: Cell, score: Option<i64>)
        requires demanded { IsDemanded (problem self.old) cell }
        requires score { IsScoreOf (problem self.old) cell score }
        ensures problem { problem self.new ≡ problem self.old }
        ensures noted { (other : Cell) → noted self.new other ↔ (noted self.old other ⊎ (other ≡ cell)) };

    /// The answer of a cell whose demanded children are all noted. No cell more is noted by it.
    fn answer(&mut self, cell: Cell) -> Answer
        requires demanded { IsDemanded (problem self.old) cell }
        requires noted { (child : Cell) → IsDemandedChild (problem self.old) cell child → noted self.old child }
        ensures problem { problem self.new ≡ problem self.old }
        ensures noted { (other : Cell) → noted self.new other ↔ noted self.old other }
        ensures answer { IsAnswer (problem self.old) cell result };

    /// The next rule argument of a visit that is to be looked up, with its cell: the first one that isn't noted.
    fn next_argument(&self, visit: Visit) -> Option<(Position, Cell)>
        requires demanded { IsDemanded (problem self.now) visit.cell }
        requires walk { IsWalk (problem self.now) visit }
        ensures { MatchOption result (IsNoneSought (problem self.now) (noted self.now) visit)
            (λ found. IsSplitArgument (problem self.now) (argument_at visit.cell found.0)
            × IsNextSought (problem self.now) (noted self.now) visit found.0 found.1) };
}
