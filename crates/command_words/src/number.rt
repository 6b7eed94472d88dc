//! Numbers that words write.
ghost use Rattle.std.specs.Prelude.{◌≡◌};
ghost use Rattle.std.specs.List.{list_all};
ghost use Rattle.printing_meaning.specs.Numbers.{is_digit, is_number};
ghost use Rattle.command_words_meaning.specs.WordLists.{number_between};

fn is_digit(byte: u8) -> bool
    ensures { result ≡ is_digit byte }
{
    byte.is_ascii_digit()
}

fn are_digits(bytes: &[u8]) -> bool
    ensures { result ≡ list_all is_digit bytes.now }
{
    bytes.iter().all(|byte| is_digit(*byte))
}

/// Whether the word is decimal digits, at least one, without a leading zero, `0` itself excepted.
fn is_number(word: &[u8]) -> bool
    ensures { result ≡ is_number word.now }
{
    match word {
        [] => false,
        [digit] => is_digit(*digit),
        [first, ..] => *first != b'0' && are_digits(word),
    }
}

/// The number that the word writes, where it is one from the first to the second. A number of any length is read: one that
/// does not fit is beyond every bound.
pub(crate) fn number_between(least: u32, greatest: u32, word: &str) -> Option<u32>
    ensures { result ≡ number_between least greatest word.now }
{
    if !is_number(word.as_bytes()) {
        return None;
    }
    let value = word.parse::<u32>().ok()?;
    (least <= value && value <= greatest).then_some(value)
}
