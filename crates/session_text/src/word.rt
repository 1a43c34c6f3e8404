ghost use Rattle.std.specs.Prelude.{◌≡◌, ◌++◌, ◌∷◌, map, OnOk, OnErr};
ghost use Rattle.session_text.specs.Printed.{Keeps, word_text};
ghost use Rattle.session_text.specs.Words.{line, spaced};

use crate::names::{access_name, dirty_name, put_base, put_path, put_payload, put_print, put_who};
use crate::put::{put, put_number};
use crate::refusal::{put_refusal, verb_name};
use vfs_names::{
    Access, Actor, Blob, Fingerprint, ItemId, NoMemory, Payload, Refusal, VPath, Verb,
};

/// A word of a line.
#[derive(Drop)]
pub enum Word<'a> {
    Text(&'a str),
    Number(u64),
    Item(ItemId),
    Who(Actor),
    Access(Access),
    /// Whether something waits for its upload.
    Dirty(bool),
    Path(&'a VPath),
    Print(Fingerprint),
    Base(Option<Fingerprint>),
    Payload(&'a Payload),
    Verb(Verb),
    Why(Refusal),
}

fn put_word(out: &mut Blob, word: &Word) -> Result<(), NoMemory>
    ensures ok { OnOk result (out.new ≡ out.old ++ word_text word.now) }
    ensures kept { Keeps out.old out.new }
{
    match word {
        Word::Text(text) => put(out, text.as_bytes()),
        Word::Number(n) => put_number(out, *n),
        Word::Item(item) => put_number(out, item.0 as u64),
        Word::Who(actor) => put_who(out, *actor),
        Word::Access(access) => put(out, access_name(*access).as_bytes()),
        Word::Dirty(dirty) => put(out, dirty_name(*dirty).as_bytes()),
        Word::Path(path) => put_path(out, path),
        Word::Print(print) => put_print(out, *print),
        Word::Base(base) => put_base(out, *base),
        Word::Payload(payload) => put_payload(out, payload),
        Word::Verb(verb) => put(out, verb_name(*verb).as_bytes()),
        Word::Why(why) => put_refusal(out, *why),
    }
}

/// Each word after a space.
pub fn put_words(out: &mut Blob, words: &[Word]) -> Result<(), NoMemory>
    ensures ok { OnOk result (out.new ≡ out.old ++ spaced (map word_text words.now)) }
    ensures kept { Keeps out.old out.new }
{
    for word in words {
        put(out, b" ")?;
        put_word(out, word)?;
    }
    Ok(())
}

/// A line: a first word, the others each after a space, and a line feed.
pub fn put_line(out: &mut Blob, first: &Word, others: &[Word]) -> Result<(), NoMemory>
    ensures ok { OnOk result (out.new ≡ out.old ++ line (map word_text (first.now ∷ others.now))) }
    ensures kept { Keeps out.old out.new }
{
    put_word(out, first)?;
    put_words(out, others)?;
    put(out, b"\n")
}
