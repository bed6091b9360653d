//! Lists and numbers that clauses speak of exist: the demanded cells of a problem, and the arguments of their splits.

ghost use Rattle.std.specs.Prelude.{ℕ, ◌^◌, ◌≤◌, List, length};
ghost use Rattle.adp_model.specs.declared.cell.Cell.{Cell};
ghost use Rattle.adp_model.specs.PosedProblem.{PosedProblem};
ghost use Rattle.adp_model.specs.Demand.{AreDemanded, IsDemandedCount};
ghost use Rattle.adp_model.specs.SplitArguments.{SplitArgument, AreRuleArguments};
ghost use Rattle.adp_model.specs.ProblemFields.{IsAdmissible, most_cells};

/// A problem has a list of all its demanded cells, and so a number of them, which is at most the limit of the cell
/// bound.
pub fn demanded_cells_are_listed()
    ensures cells { (p : PosedProblem) → IsAdmissible p → (cells : List Cell) × AreDemanded p cells }
    ensures count { (p : PosedProblem) → IsAdmissible p
        → (count : ℕ) × IsDemandedCount p count × (count ≤ most_cells) }
{}

/// A problem has a list of all rule arguments of all viable splits of its demanded cells.
pub fn rule_arguments_are_listed()
    ensures { (p : PosedProblem) → IsAdmissible p
        → (arguments : List SplitArgument) × AreRuleArguments p arguments }
{}

/// A problem has at most 2^75 rule arguments of viable splits of its demanded cells.
pub fn rule_arguments_are_few()
    ensures { (p : PosedProblem) → IsAdmissible p → (arguments : List SplitArgument) → AreRuleArguments p arguments
        → length arguments ≤ 2 ^ 75 }
{}
