//! Numbers in canonical spelling.

ghost use Rattle.std.specs.Prelude.{◌≡◌, ◌+◌, ◌-◌, ◌*◌, ◌≤◌, IsTrue, Option, ℕ};
ghost use Rattle.std.specs.Option.{option_map};
ghost use Rattle.std.specs.Str.{all_ascii_digits};
ghost use Rattle.std.specs.Str.Parse.{digits_value};
ghost use Rattle.table_certificate.specs.CertificateLines.{is_canonical, natural_of, negative_score, positive_score, said_score, score_of};
ghost use Rattle.table_certificate.specs.KeptForms.{greatest_kept, kept};

/// Numbers above this one, which is above all places, counts and scores, count as this one.
const GREATEST_KEPT: u64 = 1 << 62;

fn are_digits(word: &[u8]) -> bool
    ensures { result ≡ all_ascii_digits word.now }
{
    for byte in word {
        if !byte.is_ascii_digit() {
            return false;
        }
    }
    true
}

/// Digits, one at least, of which the first is 0 only where it stands alone.
fn is_canonical(word: &[u8]) -> bool
    ensures { result ≡ is_canonical word.now }
{
    let Some((first, others)) = word.split_first() else {
        return false;
    };
    if others.is_empty() {
        return first.is_ascii_digit();
    }
    are_digits(word) && *first != b'0'
}

/// The number with one digit more.
fn with_digit(value: u64, byte: u8) -> u64
    requires low { 48 ≤ byte }
    requires high { byte ≤ 57 }
    requires kept { value ≤ greatest_kept }
    ensures { result ≡ kept (value * 10 + (byte - 48)) }
{
    let more = u128::from(value) * 10 + u128::from(byte - b'0');
    if more <= u128::from(GREATEST_KEPT) {
        more as u64
    } else {
        GREATEST_KEPT
    }
}

/// The number that digits write.
fn value(digits: &[u8]) -> u64
    requires { IsTrue (all_ascii_digits digits.now) }
    ensures { result ≡ kept (digits_value 10 digits.now) }
{
    let mut value: u64 = 0;
    for byte in digits {
        value = with_digit(value, *byte);
    }
    value
}

/// The whole number from 0 on that a word is.
pub(crate) fn natural(word: &[u8]) -> Option<u64>
    ensures { result ≡ option_map kept (natural_of word.now) }
{
    if is_canonical(word) {
        Some(value(word))
    } else {
        None
    }
}

fn positive(number: Option<u64>) -> Option<i64>
    ensures { (exact : Option ℕ) → number ≡ option_map kept exact → result ≡ positive_score exact }
{
    let number = number?;
    if number < GREATEST_KEPT {
        Some(number as i64)
    } else {
        None
    }
}

fn negative(number: Option<u64>) -> Option<i64>
    ensures { (exact : Option ℕ) → number ≡ option_map kept exact → result ≡ negative_score exact }
{
    let number = number?;
    if 0 < number && number < GREATEST_KEPT {
        Some(-(number as i64))
    } else {
        None
    }
}

/// The score that a word is.
fn score(word: &[u8]) -> Option<i64>
    ensures { result ≡ score_of word.now }
{
    let (first, others) = word.split_first()?;
    if *first == b'-' {
        negative(natural(others))
    } else {
        positive(natural(word))
    }
}

/// The score that a word is, or `Some(None)` for the word `none`.
pub(crate) fn said_score(word: &[u8]) -> Option<Option<i64>>
    ensures { result ≡ said_score word.now }
{
    if word == b"none".as_slice() {
        return Some(None);
    }
    match score(word) {
        Some(score) => Some(Some(score)),
        None => None,
    }
}
