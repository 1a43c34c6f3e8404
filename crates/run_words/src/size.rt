ghost use Rattle.std.specs.Prelude.{◌≡◌, ℕ, ◌^◌, ◌<◌, IfSome, IfNone};
ghost use Rattle.downloaders.specs.Rules.{HasChunk};
ghost use Rattle.run_words.specs.Sizes.{IsUnit, IsCounted, IsSize, IsAmount, chunk_of, limit_of};

use crate::digits::cut_digits;
use crate::number::number_of;
use downloaders::Limit;

/// The largest size, in bytes.
const MAX_SIZE: u64 = 1 << 40;

/// A size in bytes, or none.
#[derive(Clone, Copy, Debug, PartialEq, Eq)]
pub(crate) enum Amount {
    Off,
    Size(u64),
}

impl Amount {
    /// The size that the word spells, or `off`.
    pub(crate) fn of(word: &[u8]) -> Option<Amount>
        ensures found { IfSome result (λ amount. IsAmount word.now amount) }
        ensures none { IfNone result ((amount : Amount) → IsAmount word.now amount → ⊥) }
    {
        if word == b"off".as_slice() {
            return Some(Amount::Off);
        }
        match size_of(word) {
            Some(size) => Some(Amount::Size(size)),
            None => None,
        }
    }

    /// What it asks for as a chunk size.
    pub(crate) fn chunk(self) -> Option<u64>
        ensures value { result ≡ chunk_of self }
        ensures some { HasChunk result }
    {
        match self {
            Amount::Off | Amount::Size(0) => None,
            Amount::Size(size) => Some(size),
        }
    }

    /// What it asks for as a limit on chunk sizes.
    pub(crate) fn limit(self) -> Limit
        ensures { result ≡ limit_of self }
    {
        match self {
            Amount::Off => Limit::Off,
            Amount::Size(0) => Limit::Same,
            Amount::Size(size) => Limit::Most(size),
        }
    }
}

/// How many bytes the word spells: a number with its unit, or `0`.
fn size_of(word: &[u8]) -> Option<u64>
    ensures found { IfSome result (λ size. IsSize word.now size) }
    ensures none { IfNone result ((size : ℕ) → IsSize word.now size → ⊥) }
{
    if word == b"0".as_slice() {
        return Some(0);
    }
    match counted(word) {
        Some(size) if size <= MAX_SIZE => Some(size),
        _ => None,
    }
}

/// How many bytes a number and its unit spell, below 2^64.
fn counted(word: &[u8]) -> Option<u64>
    ensures found { IfSome result (λ size. (size < 2 ^ 64) × IsCounted word.now size) }
    ensures none { IfNone result ((size : ℕ) → size < 2 ^ 64 → IsCounted word.now size → ⊥) }
{
    let (digits, letters) = cut_digits(word);
    let Some(unit) = unit_of(letters) else {
        return None;
    };
    let Some(n) = number_of(digits) else {
        return None;
    };
    n.checked_mul(unit)
}

/// How many bytes the unit of these letters has.
fn unit_of(letters: &[u8]) -> Option<u64>
    ensures found { IfSome result (λ unit. IsUnit letters.now unit) }
    ensures none { IfNone result ((unit : ℕ) → IsUnit letters.now unit → ⊥) }
{
    match letters {
        b"B" => Some(1),
        b"K" => Some(1 << 10),
        b"Ki" => Some(1 << 10),
        b"M" => Some(1 << 20),
        b"Mi" => Some(1 << 20),
        b"G" => Some(1 << 30),
        b"Gi" => Some(1 << 30),
        b"T" => Some(1 << 40),
        b"Ti" => Some(1 << 40),
        _ => None,
    }
}
