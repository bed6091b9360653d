//! How walks move on.

ghost use Rattle.std.specs.Prelude.{◌≡◌, true, false};
ghost use Rattle.adp_model.specs.PosedProblem.{PosedProblem};
ghost use Rattle.memo_model.specs.declared.visit.Position.{Position};
ghost use Rattle.memo_model.specs.declared.visit.Visit.{Visit};
ghost use Rattle.adp_model.specs.SplitArguments.{SplitArgument};
ghost use Rattle.memo_model.specs.Visits.{argument_at, is_behind};
ghost use Rattle.argument_search.specs.Seeking.{moved_to};

/// Where a walk has moved on to a position, that one isn't behind it any more, and what is was behind it before.
pub fn walks_move_on()
    ensures before { (p : PosedProblem) (visit : Visit) (position : Position)
        → is_behind p visit (argument_at visit.cell position) ≡ true → (argument : SplitArgument)
        → is_behind p (moved_to visit position) argument ≡ true → is_behind p visit argument ≡ true }
    ensures itself { (p : PosedProblem) (visit : Visit) (position : Position)
        → is_behind p visit (argument_at visit.cell position) ≡ true
        → is_behind p (moved_to visit position) (argument_at visit.cell position) ≡ false }
{}
