ghost use Rattle.std.specs.Prelude.{◌≡◌, ◌≢◌, ℕ, List, [], ◌∷◌, IfOk, IfErr, IfSome, IfNone};
ghost use Rattle.session_script.specs.declared.verb.Verb.{Verb};
ghost use Rattle.session_script.specs.declared.verb.Verb.TheVariants as verb;
ghost use Rattle.session_script.specs.Words.{IsPathWord};
ghost use Rattle.session_script.specs.Calls.{AreArguments, IsFileWord, verb_of, verb_word};
ghost use Rattle.session_script.specs.Faults.{IsFault, IsArgumentFault, IsCallFault, By};
ghost use Rattle.session_script.specs.Faults as place;

use crate::fault::Fault;
use crate::flags::flags;
use crate::places::{access, end, file, handle, number, path, payload};
use crate::verb::Verb;
use crate::words::Words;
use crate::{Call, Why};
use std::alloc::Global;
use vfs_names::VPath;

fn open_call(alloc: Global, words: &mut Words) -> Result<Call, Fault>
    ensures found { IfOk result (λ call. AreArguments words.old call × (verb_of call ≡ verb.Open)) }
    ensures bad { IfErr result (λ fault. By
        (λ why. IsArgumentFault verb.Open words.old why) fault) }
{
    let h = handle(words)?;
    let path = file(alloc, words)?;
    let access = access(words)?;
    let how = flags(access, words)?;
    Ok(Call::Open { h, path, how })
}

fn read(words: &mut Words) -> Result<Call, Fault>
    ensures found { IfOk result (λ call. AreArguments words.old call × (verb_of call ≡ verb.Read)) }
    ensures bad { IfErr result (λ fault. By
        (λ why. IsArgumentFault verb.Read words.old why) fault) }
{
    let h = handle(words)?;
    let pos = number(words)?;
    let len = number(words)?;
    end(words)?;
    Ok(Call::Read { h, pos, len })
}

fn write(alloc: Global, words: &mut Words) -> Result<Call, Fault>
    ensures found { IfOk result (λ call. AreArguments words.old call
        × (verb_of call ≡ verb.Write)) }
    ensures bad { IfErr result (λ fault. By
        (λ why. IsArgumentFault verb.Write words.old why) fault) }
{
    let h = handle(words)?;
    let pos = number(words)?;
    let payload = payload(alloc, words)?;
    end(words)?;
    Ok(Call::Write { h, pos, payload })
}

fn size_call(words: &mut Words) -> Result<Call, Fault>
    ensures found { IfOk result (λ call. AreArguments words.old call × (verb_of call ≡ verb.Size)) }
    ensures bad { IfErr result (λ fault. By
        (λ why. IsArgumentFault verb.Size words.old why) fault) }
{
    let h = handle(words)?;
    let size = number(words)?;
    end(words)?;
    Ok(Call::Size { h, size })
}

fn close(words: &mut Words) -> Result<Call, Fault>
    ensures found { IfOk result (λ call. AreArguments words.old call
        × (verb_of call ≡ verb.Close)) }
    ensures bad { IfErr result (λ fault. By
        (λ why. IsArgumentFault verb.Close words.old why) fault) }
{
    let h = handle(words)?;
    end(words)?;
    Ok(Call::Close { h })
}

fn rename(alloc: Global, words: &mut Words) -> Result<Call, Fault>
    ensures found { IfOk result (λ call. AreArguments words.old call
        × (verb_of call ≡ verb.Rename)) }
    ensures bad { IfErr result (λ fault. By
        (λ why. IsArgumentFault verb.Rename words.old why) fault) }
{
    let from = file(alloc, words)?;
    let to = file(alloc, words)?;
    end(words)?;
    Ok(Call::Rename { from, to })
}

/// One path, and no more words.
fn path_alone(alloc: Global, words: &mut Words) -> Result<VPath, Fault>
    ensures found { IfOk result (λ path. (word : List ℕ) × IsPathWord word path
        × (words.old ≡ word ∷ [])) }
    ensures bad { IfErr result (λ fault. By
        (λ why. IsFault (place.path ∷ []) words.old why) fault) }
{
    let path = path(alloc, words)?;
    end(words)?;
    Ok(path)
}

/// One path other than the root, and no more words.
fn file_alone(alloc: Global, words: &mut Words) -> Result<VPath, Fault>
    ensures found { IfOk result (λ path. (word : List ℕ) × IsFileWord word path
        × (words.old ≡ word ∷ [])) }
    ensures bad { IfErr result (λ fault. By
        (λ why. IsFault (place.file ∷ []) words.old why) fault) }
{
    let path = file(alloc, words)?;
    end(words)?;
    Ok(path)
}

/// What stands after the verb.
fn arguments(alloc: Global, verb: Verb, words: &mut Words) -> Result<Call, Fault>
    ensures found { IfOk result (λ call. AreArguments words.old call × (verb_of call ≡ verb)) }
    ensures bad { IfErr result (λ fault. By (λ why. IsArgumentFault verb words.old why) fault) }
{
    match verb {
        Verb::Open => open_call(alloc, words),
        Verb::Read => read(words),
        Verb::Write => write(alloc, words),
        Verb::Size => size_call(words),
        Verb::Close => close(words),
        Verb::Stat => path_alone(alloc, words).map(|path| Call::Stat { path }),
        Verb::List => path_alone(alloc, words).map(|path| Call::List { path }),
        Verb::MakeDir => file_alone(alloc, words).map(|path| Call::MakeDir { path }),
        Verb::RemoveDir => file_alone(alloc, words).map(|path| Call::RemoveDir { path }),
        Verb::Unlink => file_alone(alloc, words).map(|path| Call::Unlink { path }),
        Verb::Rename => rename(alloc, words),
    }
}

fn verb_named(word: &[u8]) -> Option<Verb>
    ensures found { IfSome result (λ v. word.now ≡ verb_word v) }
    ensures none { IfNone result ((v : Verb) → word.now ≢ verb_word v) }
{
    if word == b"open".as_slice() {
        Some(Verb::Open)
    } else if word == b"read".as_slice() {
        Some(Verb::Read)
    } else if word == b"write".as_slice() {
        Some(Verb::Write)
    } else if word == b"size".as_slice() {
        Some(Verb::Size)
    } else if word == b"close".as_slice() {
        Some(Verb::Close)
    } else if word == b"stat".as_slice() {
        Some(Verb::Stat)
    } else if word == b"list".as_slice() {
        Some(Verb::List)
    } else if word == b"mkdir".as_slice() {
        Some(Verb::MakeDir)
    } else if word == b"rmdir".as_slice() {
        Some(Verb::RemoveDir)
    } else if word == b"unlink".as_slice() {
        Some(Verb::Unlink)
    } else if word == b"rename".as_slice() {
        Some(Verb::Rename)
    } else {
        None
    }
}

/// The call that the words after a session ask for.
pub(crate) fn call(alloc: Global, words: &mut Words) -> Result<Call, Fault>
    ensures found { IfOk result (λ call. (arguments : List (List ℕ)) × AreArguments arguments call
        × (words.old ≡ verb_word (verb_of call) ∷ arguments)) }
    ensures bad { IfErr result (λ fault. By (λ why. IsCallFault words.old why) fault) }
{
    let Some(word) = words.next() else {
        return Err(Fault::Bad(Why::Words));
    };
    let Some(verb) = verb_named(word) else {
        return Err(Fault::Bad(Why::Verb));
    };
    arguments(alloc, verb, words)
}
