//! Where the line of arguments begins, by what `line_here` tells.

ghost use Rattle.std.specs.Prelude.{◌≡◌, ℕ, ◌-◌, ◌==◌, Option, Some, None, IfSome, List, ◌∷◌, drop, if◌then◌else◌};
ghost use Rattle.adp_model.specs.declared.grammar.Arg.{Arg};
ghost use Rattle.adp_model.specs.PosedProblem.{PosedProblem};
ghost use Rattle.split_lines.specs.declared.lines.Line.{Line};
ghost use Rattle.split_lines.specs.Lines.{IsLine};

/// A line that none of the arguments comes before is the line of them all.
pub fn line_begins_here()
    ensures { (p : PosedProblem) (arguments : List Arg) (given here : Option Line) (ahead : ℕ) (line : Line)
        → here ≡ (if ahead == 0 then given else None) → here ≡ Some line
        → IfSome given (λ line. IsLine p (drop ahead arguments) line) → IsLine p arguments line }
{}

/// A line that does not begin with the first argument is the line of the others, with one less before it.
pub fn line_begins_later()
    ensures { (p : PosedProblem) (argument : Arg) (others : List Arg) (given here : Option Line) (ahead : ℕ)
        → here ≡ (if ahead == 0 then given else None) → here ≡ None
        → IfSome given (λ line. IsLine p (drop ahead (argument ∷ others)) line)
        → IfSome given (λ line. IsLine p (drop (ahead - 1) others) line) }
{}
