//! The facts of a stored history, its oldest entry first, each counted by itself. They take time in proportion to the
//! history; `Core` has the same facts in constant time.
ghost use Rattle.std.specs.Prelude.{◌≡◌, reverse, option_copied};
ghost use Rattle.item_core.specs.History.{size_of, base_end_of, held_by, is_kept, is_dirty, version_of, opens_of, opens_by, is_modified, is_owed, begun_of, upload_at, place};
ghost use Rattle.item_core.specs.Names.{name_of, atime_of};
ghost use Rattle.item_core.specs.Legal.{IsLegal};

use crate::{Entry, FileKind, Upload};
use vfs_names::{Fingerprint, VPath};

#[tactic(auto, using(crate::proofs::Stored::fits_at))]
/// In bytes.
pub fn size_of(entries: &[Entry]) -> u64
    requires { IsLegal (reverse entries.now) }
    ensures { result ≡ size_of (reverse entries.now) }
{
    let mut size = 0;
    for entry in entries {
        size = entry.kind.size_after(size);
    }
    size
}

#[tactic(auto, using(crate::proofs::Stored::fits_at))]
/// The end of what the base object gives, in bytes.
pub fn base_end_of(entries: &[Entry]) -> u64
    requires { IsLegal (reverse entries.now) }
    ensures { result ≡ base_end_of (reverse entries.now) }
{
    let mut size = 0;
    let mut base_end = 0;
    for entry in entries {
        base_end = entry.kind.base_end_after(size, base_end);
        size = entry.kind.size_after(size);
    }
    base_end
}

/// The fingerprint of the object that the file holds.
pub fn held_by(entries: &[Entry]) -> Option<Fingerprint>
    ensures { result ≡ held_by (reverse entries.now) }
{
    let mut held = None;
    for entry in entries {
        held = entry.kind.held_after(held);
    }
    held
}

/// The cache has the file.
pub fn is_kept(entries: &[Entry]) -> bool
    ensures { result ≡ is_kept (reverse entries.now) }
{
    let mut kept = false;
    for entry in entries {
        kept = entry.kind.kept_after(kept);
    }
    kept
}

/// There is content that no upload saved.
pub fn is_dirty(entries: &[Entry]) -> bool
    ensures { result ≡ is_dirty (reverse entries.now) }
{
    let mut dirty = false;
    for entry in entries {
        dirty = entry.kind.dirty_after(dirty);
    }
    dirty
}

#[tactic(auto, using(crate::proofs::Stored::count_stored))]
/// How many versions began.
pub fn version_of(entries: &[Entry]) -> u64
    ensures { result ≡ version_of (reverse entries.now) }
{
    entries.iter().filter(|entry| entry.kind.raises()).count() as u64
}

#[tactic(auto, using(crate::proofs::Stored::count_stored))]
/// The open handles.
pub fn opens_of(entries: &[Entry]) -> usize
    ensures { result ≡ opens_of (reverse entries.now) }
{
    let opened = entries
        .iter()
        .filter(|entry| entry.kind.is_opened())
        .count();
    let closed = entries
        .iter()
        .filter(|entry| entry.kind.is_closed())
        .count();
    opened.saturating_sub(closed)
}

/// The open handles that a pass made.
pub fn opens_by(entries: &[Entry], pass: u64) -> usize
    ensures { result ≡ opens_by pass (reverse entries.now) }
{
    let mut opened = 0;
    let mut closed = 0;
    for entry in entries {
        if entry.by.pass == pass && entry.kind.is_opened() {
            opened += 1;
        }
        if entry.by.pass == pass && entry.kind.is_closed() {
            closed += 1;
        }
    }
    if opened < closed { 0 } else { opened - closed }
}

#[tactic(auto, using(crate::proofs::Steps::modified_step))]
/// A version began since no handle was open.
pub fn is_modified(entries: &[Entry]) -> bool
    ensures { result ≡ is_modified (reverse entries.now) }
{
    let mut opened: usize = 0;
    let mut closed: usize = 0;
    let mut modified = false;
    for entry in entries {
        modified = entry
            .kind
            .modified_after(opened.saturating_sub(closed), modified);
        if entry.kind.is_opened() {
            opened += 1;
        }
        if entry.kind.is_closed() {
            closed += 1;
        }
    }
    modified
}

/// The content waits for an upload.
pub fn is_owed(entries: &[Entry]) -> bool
    ensures { result ≡ is_owed (reverse entries.now) }
{
    is_dirty(entries) && !is_modified(entries)
}

#[tactic(auto, using(crate::proofs::Stored::count_stored))]
/// The uploads that began and haven't ended.
pub fn begun_of(entries: &[Entry]) -> usize
    ensures { result ≡ begun_of (reverse entries.now) }
{
    let starts = entries.iter().filter(|entry| entry.kind.is_start()).count();
    let ends = entries.iter().filter(|entry| entry.kind.is_end()).count();
    starts.saturating_sub(ends)
}

/// The upload that began at the entry `start`, unless it has ended.
pub fn upload_at(entries: &[Entry], start: u32) -> Option<Upload>
    ensures { result ≡ upload_at (reverse entries.now) start }
{
    let mut found = None;
    for (index, entry) in entries.iter().enumerate() {
        found = entry.kind.upload_after(entry.by.pass, index, start, found);
    }
    found
}

/// The history as it was after that many calls on the cache file.
pub fn place(entries: &[Entry], calls: u64) -> &[Entry]
    ensures { reverse result.now ≡ place (reverse entries.now) calls }
{
    let mut rest = entries;
    while let [older @ .., newest] = rest {
        if newest.at <= calls {
            break;
        }
        rest = older;
    }
    rest
}

#[tactic(auto, using(crate::proofs::Stored::newest_last))]
/// The file's path. Beside the history stand the paths of its Create, Adopt and Recovered entries, the oldest first.
pub fn name_of<'a>(entries: &'a [Entry], names: &'a [VPath]) -> Option<&'a VPath>
    ensures { option_copied result ≡ name_of (reverse entries.now) (reverse names.now) }
{
    let mut name = None;
    for entry in entries {
        match &entry.kind {
            FileKind::Create | FileKind::Adopt(_) | FileKind::Recovered { .. } => name =
                names.last(),
            FileKind::Rename(path) => name = Some(path),
            _ => {}
        }
    }
    name
}

/// The moment of the last use in milliseconds, or the one that was saved.
pub fn atime_of(saved: u64, entries: &[Entry]) -> u64
    ensures { result ≡ atime_of saved (reverse entries.now) }
{
    let mut atime = saved;
    for entry in entries {
        atime = entry.kind.atime_after(entry.by.now, atime);
    }
    atime
}
