ghost use Rattle.std.specs.Prelude.{◌≡◌, ◌≢◌, ◌↔◌, ℕ, ◌++◌, ◌^◌, ◌<◌, List, Some, IsTrue, IfSome, IfNone};
ghost use Rattle.run_words.specs.Times.{part, millis_of, IsShort, Spells, IsTime, IsLetters, IsAfterUnit};

use crate::digits::cut_digits;
use crate::number::number_of;

/// The longest time, in milliseconds.
const MAX_TIME: u64 = 1 << 40;

/// The least number of more than 12 digits.
const TOO_LONG: u64 = 1_000_000_000_000;

/// How many milliseconds the word spells.
pub(crate) fn time_of(word: &[u8]) -> Option<u64>
    ensures found { IfSome result (λ millis. IsTime word.now millis) }
    ensures none { IfNone result ((millis : ℕ) → IsTime word.now millis → ⊥) }
{
    let Some(time) = Time::of(word) else {
        return None;
    };
    let millis = time.to_millis();
    if millis <= MAX_TIME {
        Some(millis)
    } else {
        None
    }
}

/// A time by its units, with a number of each that is given.
#[derive(Clone, Copy)]
pub(crate) struct Time {
    pub(crate) hours: Option<u64>,
    pub(crate) minutes: Option<u64>,
    pub(crate) seconds: Option<u64>,
    pub(crate) millis: Option<u64>,
}

impl Time {
    /// The time that the word spells.
    fn of(word: &[u8]) -> Option<Time>
        ensures found { IfSome result (λ time. Spells word.now time) }
        ensures none { IfNone result ((time : Time) → Spells word.now time → ⊥) }
    {
        if word.is_empty() {
            return None;
        }
        let hours = Part::of(word, b"h");
        let minutes = Part::of(hours.rest, b"m");
        let seconds = Part::of(minutes.rest, b"s");
        let millis = Part::of(seconds.rest, b"ms");
        if !millis.rest.is_empty() {
            return None;
        }
        Some(Time {
            hours: hours.number,
            minutes: minutes.number,
            seconds: seconds.number,
            millis: millis.number,
        })
    }

    /// How many milliseconds it has.
    fn to_millis(self) -> u64
        requires hours { IsShort self.hours }
        requires minutes { IsShort self.minutes }
        requires seconds { IsShort self.seconds }
        requires millis { IsShort self.millis }
        ensures { result ≡ millis_of self }
    {
        self.hours.unwrap_or(0) * 3_600_000
            + self.minutes.unwrap_or(0) * 60_000
            + self.seconds.unwrap_or(0) * 1000
            + self.millis.unwrap_or(0)
    }
}

/// A number that stands at the front of a word, before its unit, where one does, and what stands
/// behind the two.
#[derive(Clone, Copy)]
struct Part<'a> {
    number: Option<u64>,
    rest: &'a [u8],
}

impl<'a> Part<'a> {
    /// What stands at the front of the word with this unit.
    fn of(word: &'a [u8], unit: &[u8]) -> Part<'a>
        requires { IsLetters unit.now }
        ensures parts { word.now ≡ part result.number unit.now ++ result.rest.now }
        ensures short { IsShort result.number }
        ensures after { IfSome result.number (λ n. IsAfterUnit result.rest.now) }
        ensures none { IfNone result.number ((n : ℕ) (later : List ℕ) → n < 10 ^ 12 →
            IsAfterUnit later → word.now ≢ part (Some n) unit.now ++ later) }
    {
        let none = Part {
            number: None,
            rest: word,
        };
        let (digits, letters) = cut_digits(word);
        let Some(rest) = letters.strip_prefix(unit) else {
            return none;
        };
        if !is_after_unit(rest) {
            return none;
        }
        match number_of(digits) {
            Some(n) if n < TOO_LONG => Part {
                number: Some(n),
                rest,
            },
            _ => none,
        }
    }
}

/// The bytes may stand behind a unit.
fn is_after_unit(bytes: &[u8]) -> bool
    ensures { IsTrue result ↔ IsAfterUnit bytes.now }
{
    match bytes.split_first() {
        Some((byte, _)) => byte.is_ascii_digit(),
        None => true,
    }
}
