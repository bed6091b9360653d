ghost use Rattle.std.specs.Prelude.{◌≡◌};
ghost use Rattle.job_texts.specs.TermText as terms;

/// The greatest number of a job, 2^62 - 1.
pub const GREATEST: u128 = 4_611_686_018_427_387_903;

/// Whether a word begins with a digit.
pub fn begins_number(word: &[u8]) -> bool
    ensures { result ≡ terms.begins_number word.now }
{
    match word {
        [first, ..] => first.is_ascii_digit(),
        [] => false,
    }
}

/// The value of a word of digits, however long; `None` where it has another byte or passes the greatest number.
pub fn number_of(word: &[u8]) -> Option<u64>
    ensures { result ≡ terms.number_of word.now }
{
    let mut value: u128 = 0;
    for byte in word {
        if !byte.is_ascii_digit() {
            return None;
        }
        value = value * 10 + u128::from(*byte - b'0');
        if value > GREATEST {
            return None;
        }
    }
    Some(value as u64)
}
