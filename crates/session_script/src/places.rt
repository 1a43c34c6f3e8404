ghost use Rattle.std.specs.Prelude.{◌≡◌, ◌≢◌, ℕ, ◌<◌, ◌≤◌, ◌^◌, List, [], ◌∷◌, decimal, IfOk, IfErr, IfSome, IfNone, OnOk};
ghost use Rattle.session_script.specs.Words.{IsPathWord, IsPayloadWord, access_word};
ghost use Rattle.vfs_names.specs.declared.calls.Access.{Access};
ghost use Rattle.session_script.specs.Calls.{IsFileWord};
ghost use Rattle.session_script.specs.Faults.{Place, IsMisfit, IsFault, By};
ghost use Rattle.session_script.specs.Faults as place;

use crate::Why;
use crate::fault::Fault;
use crate::number::number_of;
use crate::path::path_of;
use crate::payload::payload_of;
use crate::words::Words;
use std::alloc::Global;
use vfs_names::{Access, Payload, VPath};

/// The next word is a handle.
#[tactic(auto, using(std::proofs::lemmas::Fmt::decimal_injective))]
pub(crate) fn handle(words: &mut Words) -> Result<u8, Fault>
    ensures found { IfOk result (λ h. (h < 256) × (words.old ≡ decimal h ∷ words.new)) }
    ensures bad { IfErr result (λ fault. (rest : List Place) → By
        (λ why. IsMisfit (place.handle ∷ rest) words.old why) fault) }
{
    let Some(word) = words.next() else {
        return Err(Fault::Bad(Why::Words));
    };
    let Some(h) = number_of(word) else {
        return Err(Fault::Bad(Why::Handle));
    };
    if h < 256 {
        Ok(h as u8)
    } else {
        Err(Fault::Bad(Why::Handle))
    }
}

/// The next word is a number below 2^64.
pub(crate) fn number(words: &mut Words) -> Result<u64, Fault>
    ensures found { IfOk result (λ n. (n < 2 ^ 64) × (words.old ≡ decimal n ∷ words.new)) }
    ensures bad { IfErr result (λ fault. (rest : List Place) → By
        (λ why. IsMisfit (place.number ∷ rest) words.old why) fault) }
{
    let Some(word) = words.next() else {
        return Err(Fault::Bad(Why::Words));
    };
    match number_of(word) {
        Some(n) => Ok(n),
        None => Err(Fault::Bad(Why::Number)),
    }
}

/// The next word is a span of milliseconds, at most 2^40.
#[tactic(auto, using(std::proofs::lemmas::Fmt::decimal_injective))]
pub(crate) fn span(words: &mut Words) -> Result<u64, Fault>
    ensures found { IfOk result (λ ms. (ms ≤ 2 ^ 40) × (words.old ≡ decimal ms ∷ words.new)) }
    ensures bad { IfErr result (λ fault. (rest : List Place) → By
        (λ why. IsMisfit (place.span ∷ rest) words.old why) fault) }
{
    let Some(word) = words.next() else {
        return Err(Fault::Bad(Why::Words));
    };
    let Some(ms) = number_of(word) else {
        return Err(Fault::Bad(Why::Number));
    };
    if ms <= 1 << 40 {
        Ok(ms)
    } else {
        Err(Fault::Bad(Why::Number))
    }
}

/// The next word is a path.
pub(crate) fn path(alloc: Global, words: &mut Words) -> Result<VPath, Fault>
    ensures found { IfOk result (λ path. (word : List ℕ) × IsPathWord word path
        × (words.old ≡ word ∷ words.new)) }
    ensures bad { IfErr result (λ fault. (rest : List Place) → By
        (λ why. IsMisfit (place.path ∷ rest) words.old why) fault) }
{
    let Some(word) = words.next() else {
        return Err(Fault::Bad(Why::Words));
    };
    match path_of(alloc, word) {
        Ok(Some(path)) => Ok(path),
        Ok(None) => Err(Fault::Bad(Why::Path)),
        Err(_) => Err(Fault::NoMemory),
    }
}

/// The next word is a path other than the root.
pub(crate) fn file(alloc: Global, words: &mut Words) -> Result<VPath, Fault>
    ensures found { IfOk result (λ path. (word : List ℕ) × IsFileWord word path
        × (words.old ≡ word ∷ words.new)) }
    ensures bad { IfErr result (λ fault. (rest : List Place) → By
        (λ why. IsMisfit (place.file ∷ rest) words.old why) fault) }
{
    let Some(word) = words.next() else {
        return Err(Fault::Bad(Why::Words));
    };
    match path_of(alloc, word) {
        Ok(Some(path)) => {
            if path.is_root() {
                Err(Fault::Bad(Why::Path))
            } else {
                Ok(path)
            }
        }
        Ok(None) => Err(Fault::Bad(Why::Path)),
        Err(_) => Err(Fault::NoMemory),
    }
}

fn access_of(word: &[u8]) -> Option<Access>
    ensures found { IfSome result (λ access. word.now ≡ access_word access) }
    ensures none { IfNone result ((access : Access) → word.now ≢ access_word access) }
{
    if word == b"r".as_slice() {
        Some(Access::Read)
    } else if word == b"w".as_slice() {
        Some(Access::Write)
    } else if word == b"rw".as_slice() {
        Some(Access::Both)
    } else {
        None
    }
}

/// The next word says what a file is opened for.
pub(crate) fn access(words: &mut Words) -> Result<Access, Fault>
    ensures found { IfOk result (λ access. words.old ≡ access_word access ∷ words.new) }
    ensures bad { IfErr result (λ fault. (rest : List Place) → By
        (λ why. IsMisfit (place.access ∷ rest) words.old why) fault) }
{
    let Some(word) = words.next() else {
        return Err(Fault::Bad(Why::Words));
    };
    match access_of(word) {
        Some(access) => Ok(access),
        None => Err(Fault::Bad(Why::Access)),
    }
}

/// The next word is what a write carries.
pub(crate) fn payload(alloc: Global, words: &mut Words) -> Result<Payload, Fault>
    ensures found { IfOk result (λ payload. (word : List ℕ) × IsPayloadWord word payload
        × (words.old ≡ word ∷ words.new)) }
    ensures bad { IfErr result (λ fault. (rest : List Place) → By
        (λ why. IsMisfit (place.payload ∷ rest) words.old why) fault) }
{
    let Some(word) = words.next() else {
        return Err(Fault::Bad(Why::Words));
    };
    match payload_of(alloc, word) {
        Ok(Some(payload)) => Ok(payload),
        Ok(None) => Err(Fault::Bad(Why::Payload)),
        Err(_) => Err(Fault::NoMemory),
    }
}

/// No word is left.
pub(crate) fn end(words: &mut Words) -> Result<(), Fault>
    ensures found { OnOk result (words.old ≡ []) }
    ensures bad { IfErr result (λ fault. By (λ why. IsFault [] words.old why) fault) }
{
    match words.next() {
        None => Ok(()),
        Some(_) => Err(Fault::Bad(Why::Words)),
    }
}
