ghost use Rattle.std.specs.Prelude.{◌≡◌, ◌++◌, option_copied, OnOk, OnErr};
ghost use Rattle.session_text.specs.Entries.{
  entry_line,
  entry_lines,
  file_block,
  kind_words,
  place_text,
};
ghost use Rattle.session_text.specs.Printed.{Keeps};
ghost use Rattle.session_text.specs.Words.{spaced};

use crate::names::put_path;
use crate::put::{put, put_number, settle};
use crate::word::Word::{Access, Base, Dirty, Number, Path, Payload, Print, Text, Verb, Who, Why};
use crate::word::put_words;
use item_core::{Dropped, Entry, FileKind};
use vfs_names::{Blob, Fingerprint, ItemId, NoMemory, VPath};

/// Appends a file's history: the line `file`, with the path that the file has now or `-`, and its entries. Takes time
/// linear in what is printed.
pub fn print_file(
    out: &mut Blob,
    item: ItemId,
    path: Option<&VPath>,
    entries: &[Entry],
) -> Result<(), NoMemory>
    ensures ok { OnOk result (out.new ≡ out.old ++ file_block item (option_copied path.entry) entries.now) }
    ensures err { OnErr result (out.new ≡ out.old) }
{
    let before = out.as_slice().len();
    let printed = put_file(out, item, path, entries);
    settle(out, before, printed)
}

fn put_file(
    out: &mut Blob,
    item: ItemId,
    path: Option<&VPath>,
    entries: &[Entry],
) -> Result<(), NoMemory>
    ensures ok { OnOk result (out.new ≡ out.old ++ file_block item (option_copied path.entry) entries.now) }
    ensures kept { Keeps out.old out.new }
{
    put(out, b"file ")?;
    put_number(out, item.0 as u64)?;
    put(out, b" ")?;
    put_place(out, path)?;
    put(out, b"\n")?;
    put_entries(out, entries)
}

fn put_place(out: &mut Blob, path: Option<&VPath>) -> Result<(), NoMemory>
    ensures ok { OnOk result (out.new ≡ out.old ++ place_text (option_copied path.entry)) }
    ensures kept { Keeps out.old out.new }
{
    match path {
        Some(path) => put_path(out, path),
        None => put(out, b"-"),
    }
}

fn put_entries(out: &mut Blob, entries: &[Entry]) -> Result<(), NoMemory>
    ensures ok { OnOk result (out.new ≡ out.old ++ entry_lines 0 entries.now) }
    ensures kept { Keeps out.old out.new }
{
    for (index, entry) in entries.iter().enumerate() {
        put_entry(out, index as u64, entry)?;
    }
    Ok(())
}

fn put_entry(out: &mut Blob, index: u64, entry: &Entry) -> Result<(), NoMemory>
    ensures ok { OnOk result (out.new ≡ out.old ++ entry_line index entry.now) }
    ensures kept { Keeps out.old out.new }
{
    let by = &entry.by;
    put_number(out, index)?;
    put_words(out, &[Who(by.who.actor), Number(by.now), Number(entry.at)])?;
    put_kind(out, &entry.kind)?;
    put(out, b"\n")
}

/// What an entry says, each word after a space.
fn put_kind(out: &mut Blob, kind: &FileKind) -> Result<(), NoMemory>
    ensures ok { OnOk result (out.new ≡ out.old ++ spaced (kind_words kind.now)) }
    ensures kept { Keeps out.old out.new }
{
    match kind {
        FileKind::Create => put(out, b" create"),
        FileKind::Recovered {
            size,
            base_end,
            dirty,
            base,
        } => put_recovered(out, *size, *base_end, *dirty, *base),
        FileKind::Bind(print) => put_words(out, &[Text("bind"), Print(*print)]),
        FileKind::Adopt(print) => put_words(out, &[Text("adopt"), Print(*print)]),
        FileKind::Write { pos, payload } => {
            put_words(out, &[Text("write"), Number(*pos), Payload(payload)])
        }
        FileKind::SetSize(size) => put_words(out, &[Text("size"), Number(*size)]),
        FileKind::Read { pos, len } => put_words(out, &[Text("read"), Number(*pos), Number(*len)]),
        FileKind::Stat => put(out, b" stat"),
        FileKind::Opened(access) => put_words(out, &[Text("opened"), Access(*access)]),
        FileKind::Closed => put(out, b" closed"),
        FileKind::Rename(path) => put_words(out, &[Text("rename"), Path(path)]),
        FileKind::UploadStart(version) => put_words(out, &[Text("upload_start"), Number(*version)]),
        FileKind::Uploaded { start, print } => put_uploaded(out, *start, *print),
        FileKind::UploadDropped { start, why } => put_dropped(out, *start, *why),
        FileKind::Evict => put(out, b" evict"),
        FileKind::Discard => put(out, b" discard"),
        FileKind::Refused { verb, why } => {
            put_words(out, &[Text("refused"), Verb(*verb), Why(*why)])
        }
    }
}

fn put_recovered(
    out: &mut Blob,
    size: u64,
    base_end: u64,
    dirty: bool,
    base: Option<Fingerprint>,
) -> Result<(), NoMemory>
    ensures ok { OnOk result (out.new ≡ out.old
        ++ spaced (kind_words (FileKind.Recovered size base_end dirty base))) }
    ensures kept { Keeps out.old out.new }
{
    put_words(
        out,
        &[
            Text("recovered"),
            Number(size),
            Number(base_end),
            Dirty(dirty),
            Base(base),
        ],
    )
}

fn put_uploaded(out: &mut Blob, start: u32, print: Fingerprint) -> Result<(), NoMemory>
    ensures ok { OnOk result (out.new ≡ out.old ++ spaced (kind_words (FileKind.Uploaded start print))) }
    ensures kept { Keeps out.old out.new }
{
    put_words(out, &[Text("uploaded"), Number(start as u64), Print(print)])
}

fn put_dropped(out: &mut Blob, start: u32, why: Dropped) -> Result<(), NoMemory>
    ensures ok { OnOk result (out.new ≡ out.old ++ spaced (kind_words (FileKind.UploadDropped start why))) }
    ensures kept { Keeps out.old out.new }
{
    put_words(out, &[Text("upload_dropped"), Number(start as u64)])?;
    match why {
        Dropped::Cancelled { was, now } => {
            put_words(out, &[Text("cancelled"), Number(was), Number(now)])
        }
        Dropped::Refused(why) => put_words(out, &[Why(why)]),
    }
}
