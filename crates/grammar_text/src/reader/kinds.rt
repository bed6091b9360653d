// The least kind of fault at a line.

ghost use Rattle.std.specs.Prelude.{◌≡◌, Some};
ghost use Rattle.job_texts.specs.DeclaredNames.{TextLines};
ghost use Rattle.job_texts.specs.JobText.{fault_at};
ghost use Rattle.grammar_text.specs.LineKinds.{AreLineTests};

use adp_model::TextFault;

/// What stands wrong at a line, by the numbers of the kinds. Where a name is wrong, what follows it says nothing, and
/// so where a number is; so do the count of a line that uses an unknown name and what follows it, and `twice` where a
/// count passes its limit.
#[derive(Clone, Copy)]
pub(crate) struct LineTests {
    pub(crate) other_first_line: bool,
    pub(crate) unprintable: bool,
    pub(crate) no_shape: bool,
    pub(crate) no_name: bool,
    pub(crate) no_number: bool,
    pub(crate) unclosed: bool,
    pub(crate) repeated: bool,
    pub(crate) no_letters: bool,
    pub(crate) misplaced: bool,
    pub(crate) no_words_line: bool,
    pub(crate) not_one_axiom: bool,
    pub(crate) unknown: bool,
    pub(crate) misfit: bool,
    pub(crate) crossed: bool,
    pub(crate) lacks_let: bool,
    /// The first count that passes its limit.
    pub(crate) passing_count: Option<u32>,
    pub(crate) twice: bool,
}

/// The least kind that stands at a line, with its count.
pub(crate) fn least_kind(line: u32, tests: &LineTests) -> Option<TextFault>
    ensures { (text : TextLines) → AreLineTests text line tests.now → result ≡ fault_at text line }
{
    if tests.other_first_line {
        fault(line, 1, 0)
    } else if tests.unprintable {
        fault(line, 2, 0)
    } else if tests.no_shape {
        fault(line, 3, 0)
    } else if tests.no_name {
        fault(line, 4, 0)
    } else if tests.no_number {
        fault(line, 5, 0)
    } else if tests.unclosed {
        fault(line, 6, 0)
    } else if tests.repeated {
        fault(line, 7, 0)
    } else if tests.no_letters {
        fault(line, 8, 0)
    } else if tests.misplaced {
        fault(line, 9, 0)
    } else if tests.no_words_line {
        fault(line, 10, 0)
    } else if tests.not_one_axiom {
        fault(line, 11, 0)
    } else if tests.unknown {
        fault(line, 12, 0)
    } else if tests.misfit {
        fault(line, 13, 0)
    } else if tests.crossed {
        fault(line, 14, 0)
    } else if tests.lacks_let {
        fault(line, 15, 0)
    } else if let Some(count) = tests.passing_count {
        fault(line, 16, count)
    } else if tests.twice {
        fault(line, 17, 0)
    } else {
        None
    }
}

fn fault(line: u32, kind: u8, count: u32) -> Option<TextFault>
    ensures { result ≡ Some (record { line = line; kind = kind; count = count }) }
{
    Some(TextFault { line, kind, count })
}
