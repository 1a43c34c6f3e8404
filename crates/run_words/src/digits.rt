ghost use Rattle.std.specs.Prelude.{◌≡◌, ◌++◌, not, position};
ghost use Rattle.std.specs.Char.{is_ascii_digit};
ghost use Rattle.std.specs.List.{before_first};

/// The digits that the word begins with, and what stands behind them.
pub(crate) fn cut_digits(word: &[u8]) -> (&[u8], &[u8])
    ensures digits { result.0.now ≡ before_first (λ byte. not (is_ascii_digit byte)) word.now }
    ensures parts { word.now ≡ result.0.now ++ result.1.now }
{
    match first_letter(word) {
        Some(end) => word.split_at(end),
        None => (word, b"".as_slice()),
    }
}

/// The place of the first byte that is no digit.
fn first_letter(word: &[u8]) -> Option<usize>
    ensures { result ≡ position (λ byte. not (is_ascii_digit byte)) word.now }
{
    word.iter().position(|byte| !byte.is_ascii_digit())
}
