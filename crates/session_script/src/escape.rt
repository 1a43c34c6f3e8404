ghost use Rattle.std.specs.Prelude.{◌≡◌, ◌≢◌, ℕ, ◌<◌, List, [], ◌∷◌, ◌++◌, length, IfOk, IfSome, IfNone};
ghost use Rattle.session_script.specs.Escape.{must_escape, upper_digit, escape_byte, escape};

use std::alloc::Global;
use vfs_names::NoMemory;

fn must_escape(byte: u8) -> bool
    ensures { result ≡ must_escape byte }
{
    byte < 33 || byte == 127 || byte == b'%' || byte == b','
}

/// The value of a hexadecimal digit in upper case.
fn value_of(digit: u8) -> Option<u8>
    ensures found { IfSome result (λ n. (n < 16) × (digit ≡ upper_digit n)) }
    ensures none { IfNone result ((n : ℕ) → n < 16 → digit ≢ upper_digit n) }
{
    match digit {
        b'0'..=b'9' => Some(digit - b'0'),
        b'A'..=b'F' => Some(digit - 55),
        _ => None,
    }
}

/// The byte that two digits stand for, where it must be escaped.
fn escaped_byte(high: u8, low: u8) -> Option<u8>
    ensures found { IfSome result (λ byte. escape_byte byte ≡ 37 ∷ high ∷ low ∷ []) }
    ensures none { IfNone result ((byte : ℕ) → escape_byte byte ≢ 37 ∷ high ∷ low ∷ []) }
{
    let Some(high) = value_of(high) else {
        return None;
    };
    let Some(low) = value_of(low) else {
        return None;
    };
    let byte = high * 16 + low;
    if must_escape(byte) { Some(byte) } else { None }
}

/// The first byte that the text spells, and what follows its spelling.
fn split_byte(text: &[u8]) -> Option<(u8, &[u8])>
    ensures found { IfSome result (λ r. text.now ≡ escape_byte r.0 ++ r.1.now) }
    ensures shorter { IfSome result (λ r. length r.1.now < length text.now) }
    ensures none { IfNone result ((byte : ℕ) (rest : List ℕ)
        → text.now ≢ escape_byte byte ++ rest) }
{
    match text {
        [b'%', high, low, rest @ ..] => match escaped_byte(*high, *low) {
            Some(byte) => Some((byte, rest)),
            None => None,
        },
        [byte, rest @ ..] => {
            if must_escape(*byte) {
                None
            } else {
                Some((*byte, rest))
            }
        }
        [] => None,
    }
}

/// The bytes that the word spells, where it is their one spelling.
pub(crate) fn unescape(alloc: Global, word: &[u8]) -> Result<Option<Vec<u8>>, NoMemory>
    ensures found { IfOk result (λ r. IfSome r (λ v. word.now ≡ escape v.items)) }
    ensures none { IfOk result (λ r. IfNone r ((bytes : List ℕ) → word.now ≢ escape bytes)) }
{
    let mut bytes = Vec::with_capacity(alloc, word.len())?;
    let mut rest = word;
    while let Some((byte, after)) = split_byte(rest) {
        bytes.push(byte)?;
        rest = after;
    }
    if rest.is_empty() {
        Ok(Some(bytes))
    } else {
        Ok(None)
    }
}
