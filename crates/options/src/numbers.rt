// Words that are numbers.
ghost use Rattle.std.specs.Prelude.{◌≡◌};
ghost use Rattle.options.specs.Numbers.{is_number, number_of};
ghost use Rattle.std.specs.Str.{all_ascii_digits};

// Whether all bytes are digits.
fn only_digits(bytes: &[u8]) -> bool
    ensures { result ≡ all_ascii_digits bytes.now }
{
    bytes.iter().all(u8::is_ascii_digit)
}

/// Whether a word is a number: one digit or more, and nothing else.
pub fn is_number(word: &str) -> bool
    ensures { result ≡ is_number word.now }
{
    !word.is_empty() && only_digits(word.as_bytes())
}

/// The number that a word is, if it is one; the highest there is where it would be higher.
pub fn number_of(word: &str) -> Option<u64>
    ensures { result ≡ number_of word.now }
{
    if !is_number(word) {
        return None;
    }
    Some(word.parse().unwrap_or(u64::MAX))
}
