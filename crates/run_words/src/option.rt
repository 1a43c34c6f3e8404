ghost use Rattle.std.specs.Prelude.{◌≡◌, ◌≢◌, ℕ, ◌<◌, Bool, List, [], ◌∷◌, ◌++◌, length, map, string_bytes, codes, All, IfSome, IfNone, MatchOption};
ghost use Rattle.run_words.specs.Options.{Given, spelled};

use crate::name::Name;

/// An option that stood at the front of some words, and the words behind it.
#[derive(Clone, Copy)]
pub(crate) struct Taken<'a> {
    pub(crate) name: Name,
    pub(crate) value: &'a str,
    pub(crate) rest: &'a [String],
}

/// Takes the option from the front of the words.
pub(crate) fn take_option<'a>(words: &'a [String]) -> Option<Taken<'a>>
    ensures found { IfSome result (λ taken. (joined : Bool) × (map string_bytes words.now
        ≡ spelled (record { name = taken.name; value = taken.value.now; joined = joined })
        ++ map string_bytes taken.rest.now)) }
    ensures none { IfNone result ((given : Given) (rest : List (List ℕ)) →
        map string_bytes words.now ≢ spelled given ++ rest) }
    ensures fewer { IfSome result (λ taken. length taken.rest.now < length words.now) }
{
    let Some((first, rest)) = words.split_first() else {
        return None;
    };
    let (word, joined) = cut(first);
    let Some(name) = Name::of(word) else {
        return None;
    };
    match joined {
        Some(value) => Some(Taken { name, value, rest }),
        None => with_next(name, rest),
    }
}

/// The option whose value is the first of the words.
fn with_next<'a>(name: Name, words: &'a [String]) -> Option<Taken<'a>>
    ensures found { IfSome result (λ taken. (taken.name ≡ name)
        × (map string_bytes words.now ≡ taken.value.now ∷ map string_bytes taken.rest.now)) }
    ensures none { IfNone result (words.now ≡ []) }
    ensures fewer { IfSome result (λ taken. length taken.rest.now < length words.now) }
{
    match words.split_first() {
        Some((value, rest)) => Some(Taken {
            name,
            value: value.as_str(),
            rest,
        }),
        None => None,
    }
}

/// What stands before the first equals sign of a word, and what stands after it, where there is
/// one.
fn cut(word: &str) -> (&str, Option<&str>)
    ensures parts { MatchOption result.1 (word.now ≡ result.0.now)
        (λ value. word.now ≡ result.0.now ++ codes "=" ++ value.now) }
    ensures before { All (λ byte. byte ≢ 61) result.0.now }
{
    match word.split_once('=') {
        Some((name, value)) => (name, Some(value)),
        None => (word, None),
    }
}
