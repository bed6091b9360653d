//! The forms of a certificate's lines.

ghost use Rattle.std.specs.Prelude.{◌≡◌, ◌↔◌, ◌<◌, IsTrue, MatchOption, Option, ℕ, [], ◌∷◌, length};
ghost use Rattle.std.specs.Option.{option_map};
ghost use Rattle.adp_model.specs.Parts.{rule_at};
ghost use Rattle.adp_model.specs.WellFormed.{is_well_formed};
ghost use Rattle.table_certificate.specs.CertificateLines.{cell_line, form_of, is_text, rule_named, word_line, words_of};
ghost use Rattle.table_certificate.specs.KeptForms.{kept, kept_form};
ghost use Rattle.table_certificate.specs.NextForms.{IsHead, IsNextForm, IsNextLine};
ghost use Rattle.table_certificate.specs.BlockLines.{IsAtHead};

use crate::job_split::{line_end, without_return};
use crate::numbers::{natural, said_score};
use adp_model::Grammar;
use adp_model::laws::well_formed::numbers_fit_together;
use memchr::memchr;

/// A line of a certificate by its form. Numbers above 2^62 count as 2^62. The score of a cell without a candidate is
/// `None`.
#[derive(Clone, Copy)]
pub(crate) enum Form {
    Cert,
    Word {
        number: u64,
        cells: u64,
    },
    Cell {
        rule: u32,
        from: u64,
        to: u64,
        score: Option<i64>,
    },
    Formless,
}

/// The word before the first space, and what stands behind that space.
fn cut_word(line: &[u8]) -> (&[u8], Option<&[u8]>)
    ensures { MatchOption result.1 (words_of line.now ≡ result.0.now ∷ [])
        (λ rest. words_of line.now ≡ result.0.now ∷ words_of rest.now) }
{
    match memchr(b' ', line) {
        Some(end) => (&line[..end], Some(&line[end + 1..])),
        None => (line, None),
    }
}

fn is_named(grammar: &Grammar, rule: usize, name: &[u8]) -> bool
    requires { rule < length grammar.now.rules }
    ensures { result ≡ is_text (rule_at grammar.now rule).name name.now }
{
    grammar.rules.as_slice()[rule].name.bytes() == name
}

/// The number of the rule with this name.
fn rule_named(grammar: &Grammar, name: &[u8]) -> Option<u32>
    requires { IsTrue (is_well_formed grammar.now) }
    ensures { result ≡ rule_named grammar.now name.now }
{
    numbers_fit_together();
    for number in 0..grammar.rules.as_slice().len() {
        if is_named(grammar, number, name) {
            return Some(number as u32);
        }
    }
    None
}

fn word_form(number: Option<u64>, cells: Option<u64>) -> Form
    ensures { (exact_number exact_cells : Option ℕ) → number ≡ option_map kept exact_number
        → cells ≡ option_map kept exact_cells → result ≡ kept_form (word_line exact_number exact_cells) }
{
    match (number, cells) {
        (Some(number), Some(cells)) => Form::Word { number, cells },
        _ => Form::Formless,
    }
}

fn cell_form(
    rule: Option<u32>,
    from: Option<u64>,
    to: Option<u64>,
    score: Option<Option<i64>>,
) -> Form
    ensures { (exact_from exact_to : Option ℕ) → from ≡ option_map kept exact_from → to ≡ option_map kept exact_to
        → result ≡ kept_form (cell_line rule exact_from exact_to score) }
{
    match (rule, from, to, score) {
        (Some(rule), Some(from), Some(to), Some(score)) => Form::Cell {
            rule,
            from,
            to,
            score,
        },
        _ => Form::Formless,
    }
}

/// The form of a line that an LF ends.
fn form_of(grammar: &Grammar, line: &[u8]) -> Form
    requires { IsTrue (is_well_formed grammar.now) }
    ensures { result ≡ kept_form (form_of grammar.now line.now) }
{
    let (first, rest) = cut_word(line);
    let Some(rest) = rest else {
        if first == b"cert".as_slice() {
            return Form::Cert;
        }
        return Form::Formless;
    };
    let (second, rest) = cut_word(rest);
    let Some(rest) = rest else {
        return Form::Formless;
    };
    let (third, rest) = cut_word(rest);
    let Some(rest) = rest else {
        return Form::Formless;
    };
    let (fourth, rest) = cut_word(rest);
    if let Some(_) = rest {
        return Form::Formless;
    }
    if first == b"word".as_slice() && third == b"cells".as_slice() {
        return word_form(natural(second), natural(fourth));
    }
    let rule = rule_named(grammar, first);
    cell_form(rule, natural(second), natural(third), said_score(fourth))
}

/// The form of the first line of a text, and what stands behind that line; `None` where there is no line.
pub(crate) fn next_form<'t>(grammar: &Grammar, text: &'t [u8]) -> Option<(Form, &'t [u8])>
    requires { IsTrue (is_well_formed grammar.now) }
    ensures { MatchOption result (text.now ≡ []) (λ next. IsNextForm grammar.now text.now next.0 next.1.now) }
{
    if text.is_empty() {
        return None;
    }
    let end = line_end(text);
    if end == text.len() {
        return Some((Form::Formless, &text[end..]));
    }
    let line = without_return(&text[..end]);
    Some((form_of(grammar, line), &text[end + 1..]))
}

/// Whether the line begins a block.
fn is_head(form: Form) -> bool
    ensures { IsTrue result ↔ IsHead form }
{
    match form {
        Form::Word { .. } => true,
        Form::Cert | Form::Cell { .. } | Form::Formless => false,
    }
}

/// The same, where that line is no head of a block; `None` where no line stands before the next head.
pub(crate) fn next_line<'t>(grammar: &Grammar, text: &'t [u8]) -> Option<(Form, &'t [u8])>
    requires { IsTrue (is_well_formed grammar.now) }
    ensures { MatchOption result (IsAtHead grammar.now text.now)
        (λ next. IsNextLine grammar.now text.now next.0 next.1.now) }
{
    let (form, behind) = next_form(grammar, text)?;
    if is_head(form) {
        None
    } else {
        Some((form, behind))
    }
}
