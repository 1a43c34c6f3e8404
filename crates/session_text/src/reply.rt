ghost use Rattle.std.specs.Prelude.{◌≡◌, ◌++◌, ◌∷◌, codes, map, OnOk, OnErr};
ghost use Rattle.session_text.specs.Printed.{Keeps};
ghost use Rattle.session_text.specs.Replies.{
  bytes_words,
  file_place,
  mark_of,
  name_text,
  names_words,
  places_text,
  record_line,
  reply_text,
  tree_place,
};
ghost use Rattle.session_text.specs.Words.{joined, spaced};

use crate::names::{put_escaped, put_hex};
use crate::put::{put, put_number, settle};
use crate::refusal::put_refusal;
use vfs_names::{Blob, ItemId, NoMemory, Refusal};
use vfs_outside::{Kind, NameRow, Names};

/// What a call answered. Sizes and lengths are in bytes.
#[derive(Debug, Drop)]
pub enum Reply {
    /// Done, with nothing to tell.
    Done,
    /// The bytes that were read.
    Bytes(Blob),
    /// How many bytes were written.
    Wrote(u32),
    /// The path is a directory.
    Dir,
    /// The path is a file of this size.
    File(u64),
    /// The names in a directory.
    Listed(Names),
    Refused(Refusal),
}

/// A call that was done: the number of its line, its reply, and the places of its own entries, counted from 0: in the
/// tree's history, and in that of a file.
#[derive(Debug, Drop)]
pub struct Record {
    pub line: u32,
    pub reply: Reply,
    pub tree: Option<u32>,
    pub file: Option<(ItemId, u32)>,
}

/// Appends the line of a call. Takes time linear in what is printed.
pub fn print_reply(out: &mut Blob, done: &Record) -> Result<(), NoMemory>
    ensures ok { OnOk result (out.new ≡ out.old ++ record_line done.now) }
    ensures err { OnErr result (out.new ≡ out.old) }
{
    let before = out.as_slice().len();
    let printed = put_record(out, done);
    settle(out, before, printed)
}

fn put_record(out: &mut Blob, done: &Record) -> Result<(), NoMemory>
    ensures ok { OnOk result (out.new ≡ out.old ++ record_line done.now) }
    ensures kept { Keeps out.old out.new }
{
    put_number(out, done.line as u64)?;
    put(out, b" ")?;
    put_reply(out, &done.reply)?;
    put_places(out, done.tree, done.file)?;
    put(out, b"\n")
}

fn put_reply(out: &mut Blob, reply: &Reply) -> Result<(), NoMemory>
    ensures ok { OnOk result (out.new ≡ out.old ++ reply_text reply.now) }
    ensures kept { Keeps out.old out.new }
{
    match reply {
        Reply::Done => put(out, b"ok"),
        Reply::Bytes(bytes) => put_bytes(out, bytes.as_slice()),
        Reply::Wrote(n) => {
            put(out, b"ok ")?;
            put_number(out, *n as u64)
        }
        Reply::Dir => put(out, b"ok dir"),
        Reply::File(size) => {
            put(out, b"ok file ")?;
            put_number(out, *size)
        }
        Reply::Listed(names) => put_names(out, names.rows()),
        Reply::Refused(why) => put_refusal(out, *why),
    }
}

fn put_bytes(out: &mut Blob, bytes: &[u8]) -> Result<(), NoMemory>
    ensures ok { OnOk result (out.new ≡ out.old ++ joined (codes "ok" ∷ bytes_words bytes.now)) }
    ensures kept { Keeps out.old out.new }
{
    if bytes.is_empty() {
        return put(out, b"ok 0");
    }
    put(out, b"ok ")?;
    put_number(out, bytes.len() as u64)?;
    put(out, b" ")?;
    put_hex(out, bytes)
}

fn put_names(out: &mut Blob, rows: &[NameRow]) -> Result<(), NoMemory>
    ensures ok { OnOk result (out.new ≡ out.old ++ joined (codes "ok" ∷ names_words rows.now)) }
    ensures kept { Keeps out.old out.new }
{
    put(out, b"ok ")?;
    put_number(out, rows.len() as u64)?;
    put_rows(out, rows)
}

/// Each name after a space.
fn put_rows(out: &mut Blob, rows: &[NameRow]) -> Result<(), NoMemory>
    ensures ok { OnOk result (out.new ≡ out.old ++ spaced (map name_text rows.now)) }
    ensures kept { Keeps out.old out.new }
{
    for row in rows {
        put(out, b" ")?;
        put_name(out, row)?;
    }
    Ok(())
}

fn put_name(out: &mut Blob, row: &NameRow) -> Result<(), NoMemory>
    ensures ok { OnOk result (out.new ≡ out.old ++ name_text row.now) }
    ensures kept { Keeps out.old out.new }
{
    put(out, mark(row.kind).as_bytes())?;
    put_escaped(out, row.name.as_slice())
}

fn mark(kind: Kind) -> &'static str
    ensures { result.now ≡ mark_of kind }
{
    match kind {
        Kind::Dir => "d:",
        Kind::File => "f:",
    }
}

fn put_places(
    out: &mut Blob,
    tree: Option<u32>,
    file: Option<(ItemId, u32)>,
) -> Result<(), NoMemory>
    ensures ok { OnOk result (out.new ≡ out.old ++ places_text tree file) }
    ensures kept { Keeps out.old out.new }
{
    match (tree, file) {
        (None, None) => Ok(()),
        (Some(place), None) => {
            put(out, b" [")?;
            put_tree_place(out, place)?;
            put(out, b"]")
        }
        (None, Some(file)) => {
            put(out, b" [")?;
            put_file_place(out, file)?;
            put(out, b"]")
        }
        (Some(place), Some(file)) => {
            put(out, b" [")?;
            put_tree_place(out, place)?;
            put(out, b" ")?;
            put_file_place(out, file)?;
            put(out, b"]")
        }
    }
}

fn put_tree_place(out: &mut Blob, place: u32) -> Result<(), NoMemory>
    ensures ok { OnOk result (out.new ≡ out.old ++ tree_place place) }
    ensures kept { Keeps out.old out.new }
{
    put(out, b"t")?;
    put_number(out, place as u64)
}

fn put_file_place(out: &mut Blob, file: (ItemId, u32)) -> Result<(), NoMemory>
    ensures ok { OnOk result (out.new ≡ out.old ++ file_place file) }
    ensures kept { Keeps out.old out.new }
{
    let (item, place) = file;
    put(out, b"f")?;
    put_number(out, item.0 as u64)?;
    put(out, b":")?;
    put_number(out, place as u64)
}
