ghost use Rattle.std.specs.Prelude.{◌≡◌, ◌≢◌, ◌↔◌, ℕ, ◌^◌, ◌≤◌, List, Option, Some, codes, map, string_bytes, unwrap_or, flat_map, AllPairs, IsTrue, IfOk, OnErr, IfSome, IfNone};
ghost use Rattle.downloaders.specs.Rules.{HasChunk};
ghost use Rattle.downloaders.specs.declared.Limit.{Limit};
ghost use Rattle.run_words.specs.Options.{Given, spelled};
ghost use Rattle.run_words.specs.Sizes.{IsChunk, IsLimit};
ghost use Rattle.run_words.specs.Values.{found_in, HaveFound};
ghost use Rattle.run_words.specs.Words.{IsDir, IsTransfers, Asked, Ask, AreGiven, AreWords, meaning};

use crate::dir::is_dir;
use crate::name::Name;
use crate::number::number_of;
use crate::option::take_option;
use crate::size::Amount;
use crate::time::time_of;
use crate::values::Values;
use downloaders::Plan;

/// The most files that may be uploaded at a time.
const MAX_TRANSFERS: u64 = 16;

/// The words aren't in the language.
#[derive(Clone, Copy, Debug, PartialEq, Eq)]
pub struct NotWords;

/// What the words ask for. The folders are parts of the words.
#[derive(Clone, Copy, Debug, PartialEq, Eq)]
pub struct RunWords<'a> {
    /// The folder of the remote.
    pub remote: &'a str,
    /// The folder of the cache.
    pub cache: &'a str,
    /// The sizes of requests.
    pub plan: Plan,
    /// The time in milliseconds between the last close of a changed file and its upload.
    pub write_back: u64,
    /// How many files are uploaded at a time, at most.
    pub transfers: u32,
}

/// Reads the words after the program's name: `run` and its options, in any order, each at most
/// once. It takes no memory, and stops at the first word that is out of place, so that it looks at
/// few words, however many there are.
pub fn read_words(words: &[String]) -> Result<RunWords<'_>, NotWords>
    ensures read { IfOk result (λ run. AreWords (map string_bytes words.now) (meaning run)) }

    // The words are in no way in the language.
    ensures refused { OnErr result ((asked : Asked) →
        AreWords (map string_bytes words.now) asked → ⊥) }

    // What a plan has to be for every call that takes one.
    ensures chunk { IfOk result (λ run. HasChunk run.plan.chunk) }

    // What a queue of uploads has to be told.
    ensures terms { IfOk result (λ run. (run.write_back ≤ 2 ^ 40)
        × (1 ≤ run.transfers) × (run.transfers ≤ 16)) }
{
    let Some(values) = values_of(words) else {
        return Err(NotWords);
    };
    match asked(&values) {
        Some(run) => Ok(run),
        None => Err(NotWords),
    }
}

/// The values of the options behind `run`.
fn values_of<'a>(words: &'a [String]) -> Option<Values<'a>>
    ensures found { IfSome result (λ values. (given : List Given)
        × AreGiven (map string_bytes words.now) given × HaveFound values given) }
    ensures none { IfNone result ((given : List Given) →
        AreGiven (map string_bytes words.now) given → ⊥) }
{
    let Some((first, rest)) = words.split_first() else {
        return None;
    };
    if first.as_str() == "run" {
        options_of(rest)
    } else {
        None
    }
}

/// The values of the options that the words are.
fn options_of<'a>(words: &'a [String]) -> Option<Values<'a>>
    ensures found { IfSome result (λ values. (given : List Given)
        × (map string_bytes words.now ≡ flat_map spelled given)
        × AllPairs (λ a b. a.name ≢ b.name) given × HaveFound values given) }
    ensures none { IfNone result ((given : List Given) →
        map string_bytes words.now ≡ flat_map spelled given →
        AllPairs (λ a b. a.name ≢ b.name) given → ⊥) }
{
    let mut values = Values::new();
    let mut rest = words;
    while !rest.is_empty() {
        let Some(taken) = take_option(rest) else {
            return None;
        };
        if values.get(taken.name).is_some() {
            return None;
        }
        values.put(taken.name, taken.value);
        rest = taken.rest;
    }
    Some(values)
}

/// What the values ask for.
fn asked<'a>(values: &Values<'a>) -> Option<RunWords<'a>>
    ensures found { IfSome result (λ run. Ask (found_in values.now) (meaning run)) }
    ensures none { IfNone result ((asked : Asked) → Ask (found_in values.now) asked → ⊥) }
    ensures chunk { IfSome result (λ run. HasChunk run.plan.chunk) }
    ensures terms { IfSome result (λ run. (run.write_back ≤ 2 ^ 40)
        × (1 ≤ run.transfers) × (run.transfers ≤ 16)) }
{
    let Some(remote) = dir(values, Name::Remote) else {
        return None;
    };
    let Some(cache) = dir(values, Name::Cache) else {
        return None;
    };
    if !has(values, Name::CacheMode, "full") || !has(values, Name::WorkerTurns, "0") {
        return None;
    }
    let Some(plan) = plan(values) else {
        return None;
    };
    let word = given_or(values, Name::WriteBack, "5s");
    let Some(write_back) = time_of(word) else {
        return None;
    };
    let word = given_or(values, Name::Transfers, "4");
    let Some(transfers) = transfers_of(word) else {
        return None;
    };
    Some(RunWords {
        remote,
        cache,
        plan,
        write_back,
        transfers,
    })
}

/// The sizes of requests that the values ask for.
fn plan(values: &Values) -> Option<Plan>
    ensures chunk { IfSome result (λ plan. IsChunk
        (unwrap_or (found_in values.now Name.ChunkSize) (codes "128M")) plan.chunk) }
    ensures limit { IfSome result (λ plan. IsLimit
        (unwrap_or (found_in values.now Name.ChunkLimit) (codes "off")) plan.limit) }
    ensures some { IfSome result (λ plan. HasChunk plan.chunk) }
    ensures none { IfNone result ((chunk : Option ℕ) (limit : Limit) →
        IsChunk (unwrap_or (found_in values.now Name.ChunkSize) (codes "128M")) chunk →
        IsLimit (unwrap_or (found_in values.now Name.ChunkLimit) (codes "off")) limit → ⊥) }
{
    let word = given_or(values, Name::ChunkSize, "128M");
    let Some(chunk) = Amount::of(word) else {
        return None;
    };
    let word = given_or(values, Name::ChunkLimit, "off");
    let Some(limit) = Amount::of(word) else {
        return None;
    };
    Some(Plan {
        chunk: chunk.chunk(),
        limit: limit.limit(),
    })
}

/// The directory that is given for the option.
fn dir<'a>(values: &Values<'a>, name: Name) -> Option<&'a str>
    ensures found { IfSome result (λ dir.
        (found_in values.now name ≡ Some dir.now) × IsDir dir.now) }
    ensures none { IfNone result ((dir : List ℕ) →
        found_in values.now name ≡ Some dir → IsDir dir → ⊥) }
{
    match values.get(name) {
        Some(word) if is_dir(word.as_bytes()) => Some(word),
        _ => None,
    }
}

/// This value is given for the option.
fn has(values: &Values, name: Name, value: &str) -> bool
    ensures { IsTrue result ↔ (found_in values.now name ≡ Some value.now) }
{
    match values.get(name) {
        Some(word) => word == value,
        None => false,
    }
}

/// The word that is given for the option, or this.
fn given_or<'a>(values: &Values<'a>, name: Name, otherwise: &'static str) -> &'a [u8]
    ensures { result.now ≡ unwrap_or (found_in values.now name) otherwise.now }
{
    match values.get(name) {
        Some(word) => word.as_bytes(),
        None => otherwise.as_bytes(),
    }
}

/// The number of transfers that the word is.
fn transfers_of(word: &[u8]) -> Option<u32>
    ensures found { IfSome result (λ transfers. IsTransfers word.now transfers) }
    ensures none { IfNone result ((transfers : ℕ) → IsTransfers word.now transfers → ⊥) }
{
    match number_of(word) {
        Some(n) if n >= 1 && n <= MAX_TRANSFERS => Some(n as u32),
        _ => None,
    }
}
