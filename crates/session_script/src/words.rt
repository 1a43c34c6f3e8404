ghost use Rattle.std.specs.Prelude.{◌≡◌, ◌≢◌, ◌==◌, true, false, ℕ, List, [], ◌∷◌, ◌++◌, position, MatchOption, MatchBool};
ghost use Rattle.std.specs.List.{All};
ghost use Rattle.session_script.specs.Words.{words_of, has_gap};

use std::marker::Model;

/// What stands before the first such byte of the text, and what stands after it, where there is
/// one.
pub(crate) fn cut(text: &[u8], byte: u8) -> (&[u8], Option<&[u8]>)
    ensures parts { MatchOption result.1 (text.now ≡ result.0.now)
        (λ rest. text.now ≡ result.0.now ++ byte ∷ rest.now) }
    ensures before { All (λ x. (x == byte) ≡ false) result.0.now }
{
    match text.iter().position(|x| *x == byte) {
        Some(i) => (&text[..i], Some(&text[i + 1..])),
        None => (text, None),
    }
}

/// What stands behind the prefix.
pub(crate) fn behind<'a>(word: &'a [u8], prefix: &[u8]) -> Option<&'a [u8]>
    ensures { MatchOption result ((rest : List ℕ) → word.now ≢ prefix.now ++ rest)
        (λ rest. word.now ≡ prefix.now ++ rest.now) }
{
    word.strip_prefix(prefix)
}

/// The words of a line that are still to be read. Contracts see the list of their texts.
#[derive(Drop)]
pub(crate) struct Words<'a> {
    rest: Option<&'a [u8]>,
}

impl<'a> Model for Words<'a> {
    ghost use Rattle.std.specs.Prelude.{ℕ, List};
    ghost use Rattle.session_script.specs.Words.{words_left};

    ghost Value = { List (List ℕ) };

    ghost view = { λ w. words_left w.rest };
}

impl<'a> Words<'a> {
    pub(crate) fn of(text: &'a [u8]) -> Words<'a>
        ensures { result ≡ words_of text.now }
    {
        Words { rest: Some(text) }
    }

    pub(crate) fn next(&mut self) -> Option<&'a [u8]>
        ensures { MatchOption result ((self.old ≡ []) × (self.new ≡ []))
            (λ word. self.old ≡ word.now ∷ self.new) }
    {
        let Some(text) = self.rest else {
            return None;
        };
        let (word, rest) = cut(text, b' ');
        self.rest = rest;
        Some(word)
    }

    /// Takes the next word where it is this one.
    pub(crate) fn take(&mut self, expected: &[u8]) -> bool
        ensures { MatchBool result (self.old ≡ expected.now ∷ self.new)
            ((self.new ≡ self.old) × ((rest : List (List ℕ)) → self.old ≢ expected.now ∷ rest)) }
    {
        let Some(text) = self.rest else {
            return false;
        };
        let (word, rest) = cut(text, b' ');
        if word != expected {
            return false;
        }
        self.rest = rest;
        true
    }
}

/// Two spaces stand together, or one at an end.
pub(crate) fn has_gap(text: &[u8]) -> bool
    ensures { result ≡ has_gap (words_of text.now) }
{
    let mut words = Words::of(text);
    while let Some(word) = words.next() {
        if word.is_empty() {
            return true;
        }
    }
    false
}
