ghost use Rattle.std.specs.Prelude.{◌≡◌, ◌++◌, [], ◌∷◌, map, OnOk, OnErr};
ghost use Rattle.session_script.specs.Words.{path_word};
ghost use Rattle.session_text.specs.Printed.{Keeps};
ghost use Rattle.session_text.specs.Tree.{
  row_text,
  tree_block,
  tree_entry_line,
  tree_entry_lines,
  tree_words,
};
ghost use Rattle.session_text.specs.Words.{spaced};
ghost use Rattle.vfs_names.specs.Fingerprint.{print_text};

use crate::names::{put_escaped, put_print};
use crate::put::{put, put_number, settle};
use crate::word::Word::{Base, Dirty, Item, Number, Path, Print, Text, Verb, Who, Why};
use crate::word::put_words;
use vfs_names::{Blob, Fingerprint, NoMemory, VPath};
use vfs_outside::{Kind, Listing, Row, TreeEntry, TreeKind};

/// Appends the tree's history: the line `tree` and its entries. Takes time linear in what is printed.
pub fn print_tree(out: &mut Blob, entries: &[TreeEntry]) -> Result<(), NoMemory>
    ensures ok { OnOk result (out.new ≡ out.old ++ tree_block entries.now) }
    ensures err { OnErr result (out.new ≡ out.old) }
{
    let before = out.as_slice().len();
    let printed = put_tree(out, entries);
    settle(out, before, printed)
}

fn put_tree(out: &mut Blob, entries: &[TreeEntry]) -> Result<(), NoMemory>
    ensures ok { OnOk result (out.new ≡ out.old ++ tree_block entries.now) }
    ensures kept { Keeps out.old out.new }
{
    put(out, b"tree\n")?;
    put_entries(out, entries)
}

fn put_entries(out: &mut Blob, entries: &[TreeEntry]) -> Result<(), NoMemory>
    ensures ok { OnOk result (out.new ≡ out.old ++ tree_entry_lines 0 entries.now) }
    ensures kept { Keeps out.old out.new }
{
    for (index, entry) in entries.iter().enumerate() {
        put_entry(out, index as u64, entry)?;
    }
    Ok(())
}

fn put_entry(out: &mut Blob, index: u64, entry: &TreeEntry) -> Result<(), NoMemory>
    ensures ok { OnOk result (out.new ≡ out.old ++ tree_entry_line index entry.now) }
    ensures kept { Keeps out.old out.new }
{
    put_number(out, index)?;
    put_words(out, &[Who(entry.by.who.actor), Number(entry.by.now)])?;
    put_kind(out, &entry.kind)?;
    put(out, b"\n")
}

/// What an entry says, each word after a space.
fn put_kind(out: &mut Blob, kind: &TreeKind) -> Result<(), NoMemory>
    ensures ok { OnOk result (out.new ≡ out.old ++ spaced (tree_words kind.now)) }
    ensures kept { Keeps out.old out.new }
{
    match kind {
        TreeKind::Kept { path, item, dirty } => {
            put_words(out, &[Text("kept"), Path(path), Item(*item), Dirty(*dirty)])
        }
        TreeKind::Listed { dir, listing } => put_listed(out, dir, listing),
        TreeKind::Opened { path, item, print } => {
            put_words(
                out,
                &[Text("opened"), Path(path), Item(*item), Base(*print)],
            )
        }
        TreeKind::Created { path, item } => {
            put_words(out, &[Text("created"), Path(path), Item(*item)])
        }
        TreeKind::Closed { item, dirty } => {
            put_words(out, &[Text("closed"), Item(*item), Dirty(*dirty)])
        }
        TreeKind::Stored { path, print } => put_object(out, "stored", path, *print),
        TreeKind::Gone(path) => put_words(out, &[Text("gone"), Path(path)]),
        TreeKind::Removed(path) => put_words(out, &[Text("removed"), Path(path)]),
        TreeKind::Renamed { from, to } => put_words(out, &[Text("renamed"), Path(from), Path(to)]),
        TreeKind::MadeDir(dir) => put_words(out, &[Text("made"), Path(dir)]),
        TreeKind::UnmadeDir(dir) => put_words(out, &[Text("unmade"), Path(dir)]),
        TreeKind::Polled(forgot) => put_polled(out, *forgot),
        TreeKind::Forgot(dir) => put_words(out, &[Text("forgot"), Path(dir)]),
        TreeKind::DirectRead { path, print } => put_object(out, "direct_read", path, *print),
        TreeKind::Direct(path) => put_words(out, &[Text("direct"), Path(path)]),
        TreeKind::Undirect(path) => put_words(out, &[Text("undirect"), Path(path)]),
        TreeKind::Asked { verb, path } => put_words(out, &[Text("asked"), Verb(*verb), Path(path)]),
        TreeKind::Refused { verb, path, why } => {
            put_words(out, &[Text("refused"), Verb(*verb), Path(path), Why(*why)])
        }
    }
}

/// What was done with an object: a word, its path and its fingerprint.
fn put_object<'a>(
    out: &mut Blob,
    done: &'a str,
    path: &'a VPath,
    print: Fingerprint,
) -> Result<(), NoMemory>
    ensures ok { OnOk result (out.new ≡ out.old
        ++ spaced (done.now ∷ path_word path.now ∷ print_text print ∷ [])) }
    ensures kept { Keeps out.old out.new }
{
    put_words(out, &[Text(done), Path(path), Print(print)])
}

fn put_polled(out: &mut Blob, forgot: Option<u32>) -> Result<(), NoMemory>
    ensures ok { OnOk result (out.new ≡ out.old ++ spaced (tree_words (TreeKind.Polled forgot))) }
    ensures kept { Keeps out.old out.new }
{
    match forgot {
        Some(n) => put_words(out, &[Text("polled"), Number(n as u64)]),
        None => put(out, b" polled off"),
    }
}

fn put_listed(out: &mut Blob, dir: &VPath, listing: &Listing) -> Result<(), NoMemory>
    ensures ok { OnOk result (out.new ≡ out.old
        ++ spaced (tree_words (TreeKind.Listed dir.now listing.now))) }
    ensures kept { Keeps out.old out.new }
{
    put_words(out, &[Text("listed"), Path(dir), Number(listing.number)])?;
    put_rows(out, listing.rows())
}

/// Each row after a space, in the listing's order.
fn put_rows(out: &mut Blob, rows: &[Row]) -> Result<(), NoMemory>
    ensures ok { OnOk result (out.new ≡ out.old ++ spaced (map row_text rows.now)) }
    ensures kept { Keeps out.old out.new }
{
    for row in rows {
        put(out, b" ")?;
        put_row(out, row)?;
    }
    Ok(())
}

fn put_row(out: &mut Blob, row: &Row) -> Result<(), NoMemory>
    ensures ok { OnOk result (out.new ≡ out.old ++ row_text row.now) }
    ensures kept { Keeps out.old out.new }
{
    match row.kind {
        Kind::Dir => {
            put(out, b"d:")?;
            put_escaped(out, row.name.as_slice())
        }
        Kind::File => {
            put(out, b"f:")?;
            put_escaped(out, row.name.as_slice())?;
            put(out, b":")?;
            put_print(out, row.print)
        }
    }
}
