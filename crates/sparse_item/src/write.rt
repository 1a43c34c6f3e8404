ghost use Rattle.std.specs.Prelude.{◌≡◌, ◌⊎◌, ◌<◌, ◌≤◌, ◌+◌, ◌∷◌, ◌^◌, ◌↔◌, Some, None, false, length, is_some, IsTrue, OnOk, OnErr, IfOk, IfErr};
ghost use Rattle.byte_ranges.specs.declared.Span.{Span};
ghost use Rattle.vfs_names.specs.Payload.{payload_len};
ghost use Rattle.vfs_names.specs.declared.refusal.Verb.TheVariants as verbs;
ghost use Rattle.vfs_outside.specs.Slot.{HasFault};
ghost use Rattle.item_core.specs.declared.entry.FileKind.TheVariants as kinds;
ghost use Rattle.item_core.specs.History.{opens_by};
ghost use Rattle.item_core.specs.Legal.{IsLegal};
ghost use Rattle.item_image.specs.Entries.{made};
ghost use Rattle.item_meta.specs.InRange.{IsMeta};
ghost use Rattle.sparse_item.specs.Answers.{Adds, EntersRefusal, IsCause, IsFull, IsTooFar, IsWritable, save_of, start_of};
ghost use Rattle.sparse_item.specs.Moves.{GoesOn, Moves, PutsDown, settling};

use crate::ItemBook;
use crate::bytes::bytes_of;
use crate::settle::{commit, settle};
use crate::slot::SlotFile;
use item_core::{Entry, FileKind};
use item_image::grown;
use item_meta::{Meta, write_meta};
use std::alloc::Global;
use vfs_names::{At, Blob, By, Payload, Refusal, Verb};
use vfs_outside::{CacheFile, DiskError, Object};

/// The most bytes of one write.
const MOST: u64 = 131_072;

/// Where every file ends at the latest.
pub const LAST_END: u64 = 1 << 40;

/// Whether a write of so many bytes is too long, or ends too far.
fn is_too_far(pos: u64, len: u64) -> bool
    ensures far { IsTrue result → IsTooFar pos len }
    ensures near { result ≡ false → IsWritable pos len }
{
    len > MOST || pos > LAST_END - len
}

/// Saves the metadata of a write, with its bytes as an intent, and then writes its data. The write is
/// done when it is saved: where the data can't be written it stays pending. Says the number of the
/// save.
fn put_down<F: CacheFile>(
    alloc: Global,
    slot: &mut SlotFile<F>,
    meta: &mut Meta,
    now: u64,
    pos: u64,
    bytes: Blob,
) -> Result<u64, DiskError>
    requires meta { IsMeta meta.old }
    requires some { 0 < length bytes }
    requires most { length bytes ≤ 131072 }
    requires end { pos + length bytes ≤ 2 ^ 40 }
    ensures ok { IfOk result (λ at. PutsDown F.tells pos bytes now
        meta.old slot.old at meta.new slot.new) }
    ensures at { IfOk result (λ at. at ≡ slot.old.calls + settling (is_some meta.old.intent) + 1) }
    ensures late { IfOk result (λ at. at ≤ slot.new.calls) }
    ensures soon { IfOk result (λ at. slot.new.calls ≤ at + 1) }
    ensures done { IfOk result (λ at. meta.new.intent ≡ None → slot.new.calls ≡ at + 1) }
    ensures adds { let span : Span = record { start = pos; end = pos + length bytes } in
        OnOk result (Adds meta.old.ranges meta.new.ranges span) }
    ensures moves { OnErr result (Moves F.tells
        (Some meta.old) slot.old (Some meta.new) slot.new) }
    ensures same { OnErr result (meta.new ≡ record meta.old { intent = meta.new.intent }) }
    ensures fault { HasFault slot.old.faults slot.new.faults result }
    ensures goes { GoesOn F.tells slot.old slot.new }
{
    let Ok(next) = grown(alloc, meta, now, pos, bytes) else {
        return Err(DiskError::NoMemory);
    };
    let Ok(text) = write_meta(alloc, &next) else {
        return Err(DiskError::NoMemory);
    };
    match commit(slot, meta, next, &text) {
        Ok(at) => {
            let _written = settle(slot, meta);
            Ok(at)
        }
        Err(why) => Err(why),
    }
}

impl<O: Object, F: CacheFile> ItemBook<O, F> {
    /// Where a write begins.
    fn start_of(&self, at: At) -> u64
        ensures start { result ≡ start_of at self.now.log.past }
        ensures legal { IsLegal self.now.log.past }
    {
        let size = self.core.size();
        match at {
            At::Pos(pos) => pos,
            At::End => size,
        }
    }

    /// Writes a payload; how many bytes. It is on the cache disk then, though maybe as a write that is
    /// pending, whose data the next call that uses the slot's file writes again. An empty write makes
    /// no call.
    pub fn write(&mut self, by: By, at: At, payload: Payload) -> Result<u32, Refusal>
        requires open { 0 < opens_by by.pass self.old.log.past }
        ensures count { IfOk result (λ n. n ≡ payload_len payload) }
        ensures ok { OnOk result (self.new.log.past ≡ made by (save_of self.old payload)
            (kinds.Write (start_of at self.old.log.past) payload) ∷ self.old.log.past) }
        ensures err { IfErr result (EntersRefusal by verbs.Write self.old self.new) }
        ensures here { let start = start_of at self.old.log.past in
            let span : Span = record { start = start; end = start + payload_len payload } in
            OnOk result (Adds self.old.here self.new.here span) }
        ensures kept { OnErr result (self.new.here ≡ self.old.here) }
        ensures empty { payload_len payload ≡ 0 → self.new ≡ record self.old { log = self.new.log } }
        ensures late { OnOk result (save_of self.old payload ≤ self.new.slot.calls) }
        ensures soon { OnOk result (self.new.slot.calls ≤ save_of self.old payload + 1) }
        ensures done { OnOk result (0 < payload_len payload → self.new.pending ≡ false
            → self.new.slot.calls ≡ save_of self.old payload + 1) }
        ensures big { (result ≡ Err Refusal.TooBig)
            ↔ IsTooFar (start_of at self.old.log.past) (payload_len payload) }
        ensures full { (result ≡ Err Refusal.HistoryFull)
            ↔ (IsWritable (start_of at self.old.log.past) (payload_len payload) × IsFull self.old 1) }
        ensures causes { IfErr result (IsCause self.old self.new) }
        ensures limit { self.new.log.limit ≡ self.old.log.limit }
        ensures slot { GoesOn F.tells self.old.slot self.new.slot }
        ensures same { self.new ≡ record self.old {
          log = self.new.log;
          here = self.new.here;
          pending = self.new.pending;
          slot = self.new.slot;
        } }
    {
        let pos = self.start_of(at);
        let len = payload.len();
        if is_too_far(pos, len) {
            return Err(Refusal::TooBig);
        }
        if let Err(why) = self.reserve(1) {
            return Err(why);
        }
        if len == 0 {
            self.note(by, FileKind::Write { pos, payload });
            return Ok(0);
        }
        let Ok(bytes) = bytes_of(self.alloc, &payload) else {
            return Err(Refusal::NoMemory);
        };
        let Some(meta) = &mut self.meta else {
            unreachable!()
        };
        match put_down(self.alloc, &mut self.slot, meta, by.now, pos, bytes) {
            Ok(at) => {
                self.atime = by.now;
                let kind = FileKind::Write { pos, payload };
                self.core.push(Entry { by, at, kind });
                Ok(len as u32)
            }
            Err(why) => Err(self.blame(by, Verb::Write, why)),
        }
    }
}
