// The nested shape of a rule.

ghost use Rattle.std.specs.Prelude.{◌≡◌, ◌+◌, ◌<◌, ◌≤◌, ◌^◌, IsTrue, length};
ghost use Rattle.job_texts.specs.Declarations as forms;
ghost use Rattle.nested_texts.specs.NestedRules as rules;
ghost use Rattle.nested_texts.specs.Seen.{are_right, opens_alternative, tokens_seen, IsNext, IsShallow};

use algebra_terms::Symbol;

/// Where the reading of a rule stands.
#[derive(Clone, Copy, Debug)]
pub(crate) enum Place {
    Alternatives,
    Arguments,
    InSquare,
    BehindClass,
    BehindLow,
    BehindArgument,
    BehindAlternative,
    BehindWith,
    BehindClause,
    BehindSize,
}

/// What comes of the first symbols at a place: no rule has them there; the rule ends; or the reading goes on, at this
/// place, in an alternative that lies in so many others, behind so many of the symbols.
#[derive(Clone, Copy, Debug)]
pub(crate) enum Next {
    Wrong,
    End,
    Further(Place, usize, usize),
}

/// Whether these are a rule of the nested shape.
pub(crate) fn is_nested_rule(said: &[Symbol<'_>]) -> bool
    ensures { result ≡ rules.is_nested_rule (tokens_seen said.now) }
{
    match said {
        [
            Symbol::Word(word),
            Symbol::Word(_),
            Symbol::Equals,
            rest @ ..,
        ] => is_word(b"rule", word) && are_alternatives(rest),
        _ => false,
    }
}

fn is_word(keyword: &[u8], word: &[u8]) -> bool
    ensures { result ≡ forms.is_word keyword.now word.now }
{
    keyword == word
}

fn are_alternatives(said: &[Symbol<'_>]) -> bool
    ensures { result ≡ rules.are_alternatives (tokens_seen said.now) }
{
    let mut place = Place::Alternatives;
    let mut depth = 0;
    let mut at = 0;
    'reading: loop {
        match step(place, depth, &said[at..]) {
            Next::Wrong => return false,
            Next::End => return true,
            Next::Further(place_behind, depth_behind, used) => {
                place = place_behind;
                depth = depth_behind;
                at += used;
            }
        }
    }
}

fn step(place: Place, depth: usize, said: &[Symbol<'_>]) -> Next
    requires { depth + length said.now < 2 ^ 64 }
    ensures next { IsNext (are_right place depth) said.now result }
    ensures shallow { IsShallow depth result }
{
    match place {
        Place::Alternatives => first_sign(said),
        Place::Arguments => first_argument(depth, said),
        Place::InSquare => in_square(depth, said),
        Place::BehindClass => behind_class(depth, said),
        Place::BehindLow => behind_low(depth, said),
        Place::BehindArgument => behind_argument(depth, said),
        Place::BehindAlternative => behind_alternative(said),
        Place::BehindWith => behind_with(said),
        Place::BehindClause => behind_clause(said),
        Place::BehindSize => behind_size(said),
    }
}

// The sign of an alternative, and its bracket.
fn first_sign(said: &[Symbol<'_>]) -> Next
    ensures next { IsNext (λ tokens. rules.are_alternatives tokens) said.now result }
    ensures shallow { IsShallow 0 result }
{
    match said {
        [Symbol::Word(_sign), Symbol::OpenBracket, ..] => Next::Further(Place::Arguments, 0, 2),
        _ => Next::Wrong,
    }
}

// An argument that is an alternative, up to its bracket; or one that a plain rule has, a class up to the square bracket
// before it.
fn first_argument(depth: usize, said: &[Symbol<'_>]) -> Next
    requires { depth + length said.now < 2 ^ 64 }
    ensures next { IsNext (λ tokens. rules.are_arguments depth tokens) said.now result }
    ensures shallow { IsShallow depth result }
{
    if opens_alternative(said) {
        return Next::Further(Place::Arguments, depth + 1, 2);
    }
    match said {
        [Symbol::Word(_rule), ..] => Next::Further(Place::BehindArgument, depth, 1),
        [Symbol::Quoted(_), ..] => Next::Further(Place::BehindArgument, depth, 1),
        [Symbol::OpenSquare, ..] => Next::Further(Place::InSquare, depth, 1),
        _ => Next::Wrong,
    }
}

fn opens_alternative(said: &[Symbol<'_>]) -> bool
    ensures opens { result ≡ opens_alternative (tokens_seen said.now) }
    ensures long { IsTrue result → 2 ≤ length said.now }
{
    matches!(said, [Symbol::Word(_), Symbol::OpenBracket, ..])
}

fn in_square(depth: usize, said: &[Symbol<'_>]) -> Next
    ensures next { IsNext (λ tokens. rules.in_square depth tokens) said.now result }
    ensures shallow { IsShallow depth result }
{
    match said {
        [Symbol::Word(_class), ..] => Next::Further(Place::BehindClass, depth, 1),
        _ => Next::Wrong,
    }
}

fn behind_class(depth: usize, said: &[Symbol<'_>]) -> Next
    ensures next { IsNext (λ tokens. rules.behind_class depth tokens) said.now result }
    ensures shallow { IsShallow depth result }
{
    match said {
        [Symbol::CloseSquare, ..] => Next::Further(Place::BehindArgument, depth, 1),
        [Symbol::Word(_low), Symbol::Dots, ..] => Next::Further(Place::BehindLow, depth, 2),
        _ => Next::Wrong,
    }
}

fn behind_low(depth: usize, said: &[Symbol<'_>]) -> Next
    ensures next { IsNext (λ tokens. rules.behind_low depth tokens) said.now result }
    ensures shallow { IsShallow depth result }
{
    match said {
        [Symbol::CloseSquare, ..] => Next::Further(Place::BehindArgument, depth, 1),
        [Symbol::Word(_high), Symbol::CloseSquare, ..] => Next::Further(
            Place::BehindArgument,
            depth,
            2,
        ),
        _ => Next::Wrong,
    }
}

fn behind_argument(depth: usize, said: &[Symbol<'_>]) -> Next
    ensures next { IsNext (λ tokens. rules.behind_argument depth tokens) said.now result }
    ensures shallow { IsShallow depth result }
{
    match said {
        [Symbol::Comma, ..] => Next::Further(Place::Arguments, depth, 1),
        [Symbol::CloseBracket, ..] => {
            if depth == 0 {
                Next::Further(Place::BehindAlternative, 0, 1)
            } else {
                Next::Further(Place::BehindArgument, depth - 1, 1)
            }
        }
        _ => Next::Wrong,
    }
}

fn behind_alternative(said: &[Symbol<'_>]) -> Next
    ensures next { IsNext (λ tokens. rules.behind_alternative tokens) said.now result }
    ensures shallow { IsShallow 0 result }
{
    match said {
        [] => Next::End,
        [Symbol::Bar, ..] => Next::Further(Place::Alternatives, 0, 1),
        [Symbol::Word(word), ..] => {
            if is_word(b"with", word) {
                Next::Further(Place::BehindWith, 0, 1)
            } else {
                Next::Wrong
            }
        }
        _ => Next::Wrong,
    }
}

fn behind_with(said: &[Symbol<'_>]) -> Next
    ensures next { IsNext (λ tokens. rules.behind_with tokens) said.now result }
    ensures shallow { IsShallow 0 result }
{
    match said {
        [Symbol::Word(word), ..] => {
            if is_word(b"size", word) {
                Next::Further(Place::BehindClause, 0, 1)
            } else {
                Next::Wrong
            }
        }
        _ => Next::Wrong,
    }
}

fn behind_clause(said: &[Symbol<'_>]) -> Next
    ensures next { IsNext (λ tokens. rules.behind_clause tokens) said.now result }
    ensures shallow { IsShallow 0 result }
{
    match said {
        [Symbol::Word(_low), Symbol::Dots, ..] => Next::Further(Place::BehindSize, 0, 2),
        _ => Next::Wrong,
    }
}

fn behind_size(said: &[Symbol<'_>]) -> Next
    ensures next { IsNext (λ tokens. rules.behind_size tokens) said.now result }
    ensures shallow { IsShallow 0 result }
{
    match said {
        [] => Next::End,
        [Symbol::Bar, ..] => Next::Further(Place::Alternatives, 0, 1),
        [Symbol::Word(_)] => Next::End,
        [Symbol::Word(_high), Symbol::Bar, ..] => Next::Further(Place::Alternatives, 0, 2),
        _ => Next::Wrong,
    }
}
