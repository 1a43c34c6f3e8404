ghost use Rattle.std.specs.Prelude.{◌≡◌, ◌⊎◌, ◌<◌, ◌≤◌, ◌+◌, ◌^◌, ◌↔◌, ◌||◌, ℕ, length, List, Some, None, true, false, is_some, OnOk, OnErr, IfOk, IfErr};
ghost use Rattle.byte_ranges.specs.Ranges.{has, is_in};
ghost use Rattle.vfs_names.specs.declared.fingerprint.Fingerprint.{Fingerprint};
ghost use Rattle.vfs_names.specs.declared.refusal.Found.{Found};
ghost use Rattle.vfs_outside.specs.Slot.{HasFault};
ghost use Rattle.item_core.specs.declared.entry.FileKind.TheVariants as kinds;
ghost use Rattle.item_core.specs.History.{base_end_of, held_by, is_dirty, is_kept, is_owed, size_of, version_of};
ghost use Rattle.item_core.specs.Legal.{Allows, EndsUpload};
ghost use Rattle.item_meta.specs.InRange.{IsMeta};
ghost use Rattle.item_image.specs.Next.{uploaded_meta};
ghost use Rattle.downloaders.specs.declared.Ask.{Ask};
ghost use Rattle.downloaders.specs.Orders.{here_in_the_end};
ghost use Rattle.downloaders.specs.Rules.{AllHere, AreAsks, HasChunk};
ghost use Rattle.base_object.specs.Base.{IsLaterOf, IsReady, held_by as held_in};
ghost use Rattle.base_object.specs.Pulls.{Loses, progress_of};
ghost use Rattle.base_object.specs.Reads.{Reads};
ghost use Rattle.sparse_item.specs.Answers.{Enters, IsFull};
ghost use Rattle.sparse_item.specs.Fetching.{AreHere, IsBringCause, IsFetchCause, Lacks, StandsOn};
ghost use Rattle.sparse_item.specs.Item.{IsAllHere, IsSupplied};
ghost use Rattle.sparse_item.specs.Moves.{GoesOn, Moves, Settles, settling};
ghost use Rattle.sparse_item.specs.Reading.{Shows, needed, shown};
ghost use Rattle.sparse_item.specs.Sound.{is_begun};
ghost use Rattle.sparse_item.specs.Uploading.{IsDroppable, IsOf, IsOpen, IsSaveCause, begun_upload, block_len, dropped_as, past_object, unbound_base, why_after};

use crate::blank::blank;
use crate::fetch::refusal;
use crate::read::ready;
use crate::runs::{read_runs, zeros};
use crate::settle::commit;
use crate::slot::SlotFile;
use crate::{ItemBook, Upload};
use base_object::{BaseObject, BaseState};
use byte_ranges::Span;
use downloaders::Plan;
use item_core::{Dropped, Entry, FileKind};
use item_image::uploaded;
use item_meta::{Meta, write_meta};
use std::alloc::Global;
use vfs_names::{Blob, By, Fingerprint, Refusal};
use vfs_outside::{CacheFile, DiskError, Object};

/// The most bytes of one block.
const BLOCK: u64 = 131_072;

/// Makes all of a block here, after a write that is pending: the part of it that the object is to
/// give is pulled, and in the gap past it what isn't here becomes zeros.
fn complete<O: Object, F: CacheFile>(
    alloc: Global,
    plan: &Plan,
    base: &mut BaseObject<O>,
    slot: &mut SlotFile<F>,
    meta: &mut Meta,
    part: Span,
    gap: Span,
) -> Result<(), Refusal>
    requires chunk { HasChunk plan.now.chunk }
    requires within { part.end ≤ meta.old.base_end }
    requires past { meta.old.base_end ≤ gap.start }
    requires end { gap.end ≤ meta.old.size }
    requires meta { IsMeta meta.old }
    requires held { held_in base.old.state ≡ meta.old.base }
    requires ready { IsReady base.old.state ⊎ AllHere (has meta.old.ranges) part meta.old.base_end }
    ensures stands { StandsOn F.tells O.tells (Some meta.old) slot.old base.old
        (Some meta.new) slot.new base.new }
    ensures asks { (asks : List Ask)
        → AreAsks plan.now part meta.old.base_end (has meta.old.ranges) base.old.crew asks
        → Reads asks (progress_of base.old) (progress_of base.new) result }
    ensures all { (asks : List Ask)
        → AreAsks plan.now part meta.old.base_end (has meta.old.ranges) base.old.crew asks
        → OnOk result ((p : ℕ) → has meta.new.ranges p
        ≡ (here_in_the_end asks meta.old.base_end (has meta.old.ranges) p || is_in gap p)) }
    ensures got { OnOk result (AllHere (has meta.new.ranges) part meta.old.base_end) }
    ensures filled { OnOk result (AreHere meta.new.ranges gap.start gap.end) }
    ensures here { (p : ℕ) → has meta.old.ranges p ≡ true → has meta.new.ranges p ≡ true }
    ensures object { IsLaterOf base.old.object base.new.object }
    ensures state { Loses result base.old.state base.new.state }
    ensures settled { OnOk result (meta.new.intent ≡ None) }
    ensures same { meta.new
        ≡ record meta.old { ranges = meta.new.ranges; intent = meta.new.intent } }
    ensures lost { (held : Fingerprint) (found : Found) → base.old.state ≡ BaseState.Lost held found
        → Lacks meta.old.ranges part → result ≡ Err (Refusal.Stale held found) }
    ensures causes { IfErr result (IsBringCause (Lacks meta.old.ranges part)
        base.old base.new slot.old slot.new) }
    ensures goes { GoesOn F.tells slot.old slot.new }
{
    match ready(alloc, plan, base, slot, meta, part) {
        Ok(()) => match blank(alloc, slot, meta, gap) {
            Ok(()) => Ok(()),
            Err(why) => Err(refusal(why)),
        },
        Err(why) => Err(why),
    }
}

/// Saves the metadata of a file that was uploaded as this object. Says the number of the save.
fn put_uploaded<F: CacheFile>(
    alloc: Global,
    slot: &mut SlotFile<F>,
    meta: &mut Meta,
    print: Fingerprint,
) -> Result<u64, DiskError>
    requires meta { IsMeta meta.old }
    requires size { print.size ≡ meta.old.size }
    ensures ok { OnOk result (Settles F.tells meta.old slot.old meta.new slot.new) }
    ensures uploaded { OnOk result (meta.new ≡ uploaded_meta print meta.old) }
    ensures at { IfOk result (λ at. at ≡ slot.new.calls) }
    ensures calls { OnOk result (slot.new.calls
        ≡ slot.old.calls + settling (is_some meta.old.intent) + 1) }
    ensures moves { OnErr result (Moves F.tells
        (Some meta.old) slot.old (Some meta.new) slot.new) }
    ensures same { OnErr result (meta.new ≡ record meta.old { intent = meta.new.intent }) }
    ensures fault { HasFault slot.old.faults slot.new.faults result }
    ensures goes { GoesOn F.tells slot.old slot.new }
{
    let Ok(next) = uploaded(alloc, meta, print) else {
        return Err(DiskError::NoMemory);
    };
    let Ok(text) = write_meta(alloc, &next) else {
        return Err(DiskError::NoMemory);
    };
    match commit(slot, meta, next, &text) {
        Ok(at) => Ok(at),
        Err(why) => Err(why),
    }
}

impl<O: Object, F: CacheFile> ItemBook<O, F> {
    /// The content waits for an upload: no upload saved it, and no version of it began since a
    /// handle was open last. Takes no memory.
    pub fn owed(&self) -> bool
        ensures { result ≡ is_owed self.now.log.past }
    {
        self.core.owed()
    }

    /// How many versions of the content began; takes no memory.
    pub fn version(&self) -> u64
        ensures { result ≡ version_of self.now.log.past }
    {
        self.core.version()
    }

    /// Begins an upload of the present version, and keeps a place for its end.
    pub fn upload_begin(&mut self, by: By) -> Result<Upload, Refusal>
        requires owed { is_owed self.old.log.past ≡ true }
        requires supplied { IsSupplied
            self.old.base.state self.old.here (base_end_of self.old.log.past) }
        ensures ok { OnOk result (Enters by
            (kinds.UploadStart (version_of self.old.log.past)) self.old self.new) }
        ensures upload { IfOk result (λ upload.
            upload ≡ begun_upload self.old.id self.old.log.past) }
        ensures err { OnErr result (self.new.log.past ≡ self.old.log.past) }
        ensures full { (result ≡ Err Refusal.HistoryFull) ↔ IsFull self.old 2 }
        ensures causes { IfErr result (λ why. (why ≡ Refusal.HistoryFull)
            ⊎ (why ≡ Refusal.NoMemory)) }
        ensures limit { self.new.log.limit ≡ self.old.log.limit }
        ensures same { self.new ≡ record self.old { log = self.new.log } }
    {
        // the history is legal, so that a changed file is kept
        let _ = self.entries();
        match self.reserve(2) {
            Ok(()) => {
                let start = self.core.len();
                let version = self.core.version();
                let size = self.core.size();
                self.note(by, FileKind::UploadStart(version));
                Ok(Upload {
                    item: self.id,
                    start,
                    version,
                    size,
                    why: None,
                })
            }
            Err(why) => Err(why),
        }
    }

    /// The bytes of an upload from `pos` on, 131,072 of them or as many as there are. Each of them is
    /// in the slot's file then: those that the object is to give are pulled by the plan, and those
    /// past them that no write gave become zeros there. Adds no entry.
    ///
    /// A write that is pending is settled first. Each run of zeros is written by one call, and one
    /// save follows them; then each run of bytes is read by one call. Where there is no byte, none is
    /// made.
    pub fn upload_bytes(
        &mut self,
        plan: &Plan,
        upload: &mut Upload,
        pos: u64,
    ) -> Result<Blob, Refusal>
        requires chunk { HasChunk plan.now.chunk }
        requires kept { is_kept self.old.log.past ≡ true }
        requires upload { IsOf self.old.log.past upload.old }
        ensures count { IfOk result (λ bytes. length bytes ≡ shown self.old.log.past pos block_len) }
        ensures bytes { IfOk result (Shows F.tells O.tells self.old pos block_len) }
        ensures asks { (asks : List Ask) → AreAsks plan.now (needed self.old.log.past pos block_len)
            (base_end_of self.old.log.past) (has self.old.here) self.old.base.crew asks
            → Reads asks (progress_of self.old.base) (progress_of self.new.base) result }
        ensures all { (asks : List Ask) → AreAsks plan.now (needed self.old.log.past pos block_len)
            (base_end_of self.old.log.past) (has self.old.here) self.old.base.crew asks
            → OnOk result ((p : ℕ) → has self.new.here p
            ≡ (here_in_the_end asks (base_end_of self.old.log.past) (has self.old.here) p
            || is_in (past_object self.old.log.past pos) p)) }
        ensures got { OnOk result (AreHere self.new.here pos
            (pos + shown self.old.log.past pos block_len)) }
        ensures settled { OnOk result (0 < shown self.old.log.past pos block_len
            → self.new.pending ≡ false) }
        ensures here { (p : ℕ) → has self.old.here p ≡ true → has self.new.here p ≡ true }
        ensures object { IsLaterOf self.old.base.object self.new.base.object }
        ensures state { Loses result self.old.base.state self.new.base.state }
        ensures lost { (held : Fingerprint) (found : Found)
            → self.old.base.state ≡ BaseState.Lost held found
            → Lacks self.old.here (needed self.old.log.past pos block_len)
            → (result ≡ Err Refusal.NoMemory) ⊎ (result ≡ Err (Refusal.Stale held found)) }
        ensures causes { IfErr result (IsFetchCause self.old self.new
            (needed self.old.log.past pos block_len)) }
        ensures ends { IfErr result (EndsUpload (held_by self.old.log.past)) }
        ensures why { upload.new ≡ record upload.old { why = why_after result upload.old.why } }
        ensures slot { GoesOn F.tells self.old.slot self.new.slot }
        ensures nothing { shown self.old.log.past pos block_len ≡ 0 → self.new ≡ self.old }
        ensures same { self.new ≡ record self.old {
          base = self.new.base;
          here = self.new.here;
          pending = self.new.pending;
          slot = self.new.slot;
        } }
    {
        match self.block(plan, pos) {
            Ok(bytes) => Ok(bytes),
            Err(why) => Err(upload.keep(why)),
        }
    }

    /// The bytes of a block, each of which is in the slot's file then.
    fn block(&mut self, plan: &Plan, pos: u64) -> Result<Blob, Refusal>
        requires chunk { HasChunk plan.now.chunk }
        requires begun { is_begun self.old.log.past ≡ true }
        requires kept { is_kept self.old.log.past ≡ true }
        ensures count { IfOk result (λ bytes. length bytes ≡ shown self.old.log.past pos block_len) }
        ensures bytes { IfOk result (Shows F.tells O.tells self.old pos block_len) }
        ensures asks { (asks : List Ask) → AreAsks plan.now (needed self.old.log.past pos block_len)
            (base_end_of self.old.log.past) (has self.old.here) self.old.base.crew asks
            → Reads asks (progress_of self.old.base) (progress_of self.new.base) result }
        ensures all { (asks : List Ask) → AreAsks plan.now (needed self.old.log.past pos block_len)
            (base_end_of self.old.log.past) (has self.old.here) self.old.base.crew asks
            → OnOk result ((p : ℕ) → has self.new.here p
            ≡ (here_in_the_end asks (base_end_of self.old.log.past) (has self.old.here) p
            || is_in (past_object self.old.log.past pos) p)) }
        ensures got { OnOk result (AreHere self.new.here pos
            (pos + shown self.old.log.past pos block_len)) }
        ensures settled { OnOk result (0 < shown self.old.log.past pos block_len
            → self.new.pending ≡ false) }
        ensures here { (p : ℕ) → has self.old.here p ≡ true → has self.new.here p ≡ true }
        ensures object { IsLaterOf self.old.base.object self.new.base.object }
        ensures state { Loses result self.old.base.state self.new.base.state }
        ensures lost { (held : Fingerprint) (found : Found)
            → self.old.base.state ≡ BaseState.Lost held found
            → Lacks self.old.here (needed self.old.log.past pos block_len)
            → (result ≡ Err Refusal.NoMemory) ⊎ (result ≡ Err (Refusal.Stale held found)) }
        ensures causes { IfErr result (IsFetchCause self.old self.new
            (needed self.old.log.past pos block_len)) }
        ensures ends { IfErr result (EndsUpload (held_by self.old.log.past)) }
        ensures slot { GoesOn F.tells self.old.slot self.new.slot }
        ensures nothing { shown self.old.log.past pos block_len ≡ 0 → self.new ≡ self.old }
        ensures same { self.new ≡ record self.old {
          base = self.new.base;
          here = self.new.here;
          pending = self.new.pending;
          slot = self.new.slot;
        } }
    {
        let count = BLOCK.min(self.core.size().saturating_sub(pos));
        let base_end = self.core.base_end();
        let part = Span {
            start: pos,
            end: (pos + count).min(base_end),
        };
        let gap = Span {
            start: pos.max(base_end),
            end: pos + count,
        };
        let Ok(mut bytes) = zeros(self.alloc, count) else {
            return Err(Refusal::NoMemory);
        };
        if count == 0 {
            return Ok(Blob::from_vec(bytes));
        }
        let Some(meta) = &mut self.meta else {
            unreachable!()
        };
        // the time of the last use is saved with each save
        meta.atime = self.atime;
        match complete(
            self.alloc,
            plan,
            &mut self.base,
            &mut self.slot,
            meta,
            part,
            gap,
        ) {
            Ok(()) => match read_runs(&mut self.slot, &meta.ranges, pos, bytes.as_mut_slice()) {
                Ok(()) => Ok(Blob::from_vec(bytes)),
                Err(why) => Err(refusal(why)),
            },
            Err(why) => Err(why),
        }
    }

    /// Ends an upload whose content is this object now: it is saved that the file is this object,
    /// all of it here and unchanged. The object isn't opened. After a refusal the file is as changed
    /// as before, and the upload hasn't ended.
    pub fn upload_save(
        &mut self,
        by: By,
        upload: &mut Upload,
        print: Fingerprint,
    ) -> Result<(), Refusal>
        requires legal { Allows self.old.log.past (kinds.Uploaded upload.old.start print) by }
        requires whole { IsAllHere self.old.here (size_of self.old.log.past) }
        ensures ok { OnOk result (Enters by
            (kinds.Uploaded upload.old.start print) self.old self.new) }
        ensures saved { OnOk result (self.new ≡ record self.old {
          log = self.new.log;
          base = unbound_base print;
          pending = self.new.pending;
          slot = self.new.slot;
        }) }
        ensures settled { OnOk result (self.new.pending ≡ false) }
        ensures err { OnErr result (self.new.log ≡ self.old.log) }
        ensures same { OnErr result (self.new ≡ record self.old {
          pending = self.new.pending;
          slot = self.new.slot;
        }) }
        ensures calls { OnOk result (self.new.slot.calls
            ≡ self.old.slot.calls + settling self.old.pending + 1) }
        ensures causes { IfErr result (IsSaveCause self.old self.new) }
        ensures ends { IfErr result (EndsUpload (held_by self.old.log.past)) }
        ensures why { upload.new ≡ record upload.old { why = why_after result upload.old.why } }
        ensures limit { self.new.log.limit ≡ self.old.log.limit }
        ensures room { self.old.log.spare ≤ self.new.log.spare }
        ensures slot { GoesOn F.tells self.old.slot self.new.slot }
    {
        // the history is legal, so that a changed file is kept
        let _ = self.entries();
        let Some(meta) = &mut self.meta else {
            unreachable!()
        };
        // the time of the last use is saved with each save
        meta.atime = self.atime;
        match put_uploaded(self.alloc, &mut self.slot, meta, print) {
            Ok(at) => {
                self.base = BaseObject::unbound(print);
                let start = upload.start;
                let kind = FileKind::Uploaded { start, print };
                self.core.push(Entry { by, at, kind });
                Ok(())
            }
            Err(DiskError::Failed) => Err(upload.keep(Refusal::DiskFault)),
            Err(DiskError::NoMemory) => Err(upload.keep(Refusal::NoMemory)),
        }
    }

    /// Ends an upload that saved nothing: it is cancelled where another version is present, and else
    /// it failed, for what it keeps, or since the file has nothing to upload any more. Takes no
    /// memory.
    pub fn upload_drop(&mut self, by: By, upload: Upload)
        requires open { IsOpen self.old.log.past by.pass upload }
        requires cause { IsDroppable self.old.log.past upload }
        ensures past { Enters by (kinds.UploadDropped upload.start
            (dropped_as self.old.log.past upload)) self.old self.new }
        ensures limit { self.new.log.limit ≡ self.old.log.limit }
        ensures room { self.old.log.spare ≤ self.new.log.spare }
        ensures same { self.new ≡ record self.old { log = self.new.log } }
    {
        let why = self.dropped_as(&upload);
        let start = upload.start;
        self.note(by, FileKind::UploadDropped { start, why });
    }

    /// How an upload ends that is dropped now.
    fn dropped_as(&self, upload: &Upload) -> Dropped
        ensures { result ≡ dropped_as self.now.log.past upload.now }
    {
        let now = self.core.version();
        if upload.version != now {
            Dropped::Cancelled {
                was: upload.version,
                now,
            }
        } else if self.core.dirty() {
            Dropped::Refused(upload.why.unwrap_or(Refusal::NotFound))
        } else {
            Dropped::Refused(Refusal::NotFound)
        }
    }
}
