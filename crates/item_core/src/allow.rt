//! Which entry may follow a stored history. These take time in proportion to it.
ghost use Rattle.std.specs.Prelude.{◌≡◌, ◌<◌, ◌↔◌, ◌&&◌, ◌==◌, not, reverse, IsTrue};
ghost use Rattle.item_core.specs.History.{at_of, is_dirty, opens_of, opens_by};
ghost use Rattle.item_core.specs.Legal.{holds, IsOther, IsDeviceRefusal, EndsUpload, IsCause, Allows, MayFollow, IsLegal, IsNoLater, IsTimely};

use crate::plain::{
    held_by, is_dirty, is_kept, is_owed, opens_by, opens_of, size_of, upload_at, version_of,
};
use crate::{Dropped, Entry, FileKind, Upload};
use vfs_names::{By, Fingerprint, Found, Refusal};

/// In bytes.
const LARGEST_SIZE: u64 = 1 << 40;
/// The most bytes that a read or a write carries.
const LONGEST_TRANSFER: u64 = 131_072;

/// The entry may come next after a legal history, given its oldest entry first.
pub fn allows(entries: &[Entry], entry: &Entry) -> bool
    requires { IsLegal (reverse entries.now) }
    ensures { IsTrue result ↔ MayFollow (reverse entries.now) entry.now }
{
    at_of(entries) <= entry.at && allows_kind(entries, &entry.kind, entry.by)
}

/// The number of calls on the cache file when the newest entry took effect.
fn at_of(entries: &[Entry]) -> u64
    ensures { result ≡ at_of (reverse entries.now) }
{
    match entries {
        [] => 0,
        [.., newest] => newest.at,
    }
}

/// Nothing is dirty, and no handle is open.
fn is_idle(entries: &[Entry]) -> bool
    ensures { result ≡ (not (is_dirty (reverse entries.now)) && (opens_of (reverse entries.now) == 0)) }
{
    !is_dirty(entries) && opens_of(entries) == 0
}

/// The pass has an open handle.
fn has_handle(entries: &[Entry], pass: u64) -> bool
    ensures { IsTrue result ↔ (0 < opens_by pass (reverse entries.now)) }
{
    opens_by(entries, pass) > 0
}

fn holds(held: Option<Fingerprint>, print: Fingerprint) -> bool
    ensures { result ≡ holds held print }
{
    match held {
        None => false,
        Some(held) => held.agrees(&print),
    }
}

fn allows_kind(entries: &[Entry], kind: &FileKind, by: By) -> bool
    requires { IsLegal (reverse entries.now) }
    ensures { IsTrue result ↔ Allows (reverse entries.now) kind.now by }
{
    match kind {
        FileKind::Create => by.tree && is_idle(entries),
        FileKind::Recovered { size, base_end, .. } => {
            entries.is_empty() && *size <= LARGEST_SIZE && *base_end <= *size
        }
        FileKind::Bind(print) => by.tree && is_kept(entries) && holds(held_by(entries), *print),
        FileKind::Adopt(print) => {
            by.tree
                && is_idle(entries)
                && print.size <= LARGEST_SIZE
                && !(is_kept(entries) && holds(held_by(entries), *print))
        }
        FileKind::Write { pos, payload } => {
            is_kept(entries)
                && has_handle(entries, by.pass)
                && payload.len() <= LONGEST_TRANSFER
                && *pos <= LARGEST_SIZE - payload.len()
        }
        FileKind::SetSize(n) => {
            is_kept(entries)
                && *n <= LARGEST_SIZE
                && (has_handle(entries, by.pass) || (*n == 0 && by.tree))
        }
        FileKind::Read { len, .. } => {
            is_kept(entries) && has_handle(entries, by.pass) && *len <= LONGEST_TRANSFER
        }
        FileKind::Stat => is_kept(entries),
        FileKind::Opened(_) => by.tree && is_kept(entries),
        FileKind::Closed => by.tree && has_handle(entries, by.pass),
        FileKind::Rename(_) | FileKind::Discard => by.tree
            && is_kept(entries)
            && opens_of(entries) == 0,
        FileKind::UploadStart(version) => {
            is_kept(entries) && is_owed(entries) && *version == version_of(entries)
        }
        FileKind::Uploaded { start, print } => allows_uploaded(entries, *start, *print, by),
        FileKind::UploadDropped { start, why } => allows_dropped(entries, *start, *why, by),
        FileKind::Evict => is_kept(entries) && is_idle(entries),
        FileKind::Refused { why, .. } => is_device_refusal(held_by(entries), *why),
    }
}

fn allows_uploaded(entries: &[Entry], start: u32, print: Fingerprint, by: By) -> bool
    requires { IsLegal (reverse entries.now) }
    ensures { IsTrue result ↔ Allows (reverse entries.now) (FileKind.Uploaded start print) by }
{
    let begun = Upload {
        version: version_of(entries),
        pass: by.pass,
    };
    by.tree
        && is_dirty(entries)
        && print.size == size_of(entries)
        && upload_at(entries, start) == Some(begun)
}

fn allows_dropped(entries: &[Entry], start: u32, why: Dropped, by: By) -> bool
    ensures { IsTrue result ↔ Allows (reverse entries.now) (FileKind.UploadDropped start why) by }
{
    match upload_at(entries, start) {
        None => false,
        Some(begun) => {
            begun.pass == by.pass
                && is_cause(held_by(entries), why, begun.version, version_of(entries))
        }
    }
}

/// What was found isn't the object that was held.
fn is_other(held: Fingerprint, found: Found) -> bool
    ensures { IsTrue result ↔ IsOther held found }
{
    match found {
        Found::Other(print) => !held.agrees(&print),
        Found::Missing | Found::Changed => true,
    }
}

fn is_device_refusal(holding: Option<Fingerprint>, why: Refusal) -> bool
    ensures { IsTrue result ↔ IsDeviceRefusal holding why }
{
    match why {
        Refusal::RemoteFault | Refusal::DiskFault => true,
        Refusal::Stale { held, found } => holding == Some(held) && is_other(held, found),
        _ => false,
    }
}

fn ends_upload(holding: Option<Fingerprint>, why: Refusal) -> bool
    ensures { IsTrue result ↔ EndsUpload holding why }
{
    match why {
        Refusal::NotFound | Refusal::HistoryFull | Refusal::NoMemory => true,
        _ => is_device_refusal(holding, why),
    }
}

fn is_cause(holding: Option<Fingerprint>, why: Dropped, noted: u64, present: u64) -> bool
    ensures { IsTrue result ↔ IsCause holding why noted present }
{
    match why {
        Dropped::Cancelled { was, now } => was == noted && now == present && noted != present,
        Dropped::Refused(why) => ends_upload(holding, why) && noted == present,
    }
}

/// Each entry of the history, given its oldest entry first, may follow those before it.
pub fn is_legal(entries: &[Entry]) -> bool
    ensures { IsTrue result ↔ IsLegal (reverse entries.now) }
{
    for (index, entry) in entries.iter().enumerate() {
        if !allows(&entries[..index], entry) {
            return false;
        }
    }
    true
}

/// The entry is of no earlier phase or moment than the newest one of the history.
fn is_no_later(entries: &[Entry], by: By) -> bool
    ensures { IsTrue result ↔ IsNoLater (reverse entries.now) by }
{
    match entries {
        [] => true,
        [.., newest] => newest.by.who.phase <= by.who.phase && newest.by.now <= by.now,
    }
}

/// Phase and moment never fall along the history, given its oldest entry first.
pub fn is_timely(entries: &[Entry]) -> bool
    ensures { IsTrue result ↔ IsTimely (reverse entries.now) }
{
    for (index, entry) in entries.iter().enumerate() {
        if !is_no_later(&entries[..index], entry.by) {
            return false;
        }
    }
    true
}
