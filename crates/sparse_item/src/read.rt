ghost use Rattle.std.specs.Prelude.{◌≡◌, ◌⊎◌, ◌<◌, ◌≤◌, ◌+◌, ◌++◌, ◌^◌, ◌↔◌, ℕ, min, length, Some, None, true, false, OnOk, List, OnErr, IfOk, IfErr, IsErrAnd};
ghost use Rattle.byte_ranges.specs.Ranges.{has};
ghost use Rattle.vfs_names.specs.declared.fingerprint.Fingerprint.{Fingerprint};
ghost use Rattle.vfs_names.specs.declared.refusal.Found.{Found};
ghost use Rattle.vfs_names.specs.declared.refusal.Verb.TheVariants as verbs;
ghost use Rattle.item_core.specs.declared.entry.FileKind.TheVariants as kinds;
ghost use Rattle.item_core.specs.History.{base_end_of, held_by, is_kept, opens_by};
ghost use Rattle.item_core.specs.Legal.{IsDeviceRefusal};
ghost use Rattle.item_meta.specs.InRange.{IsMeta};
ghost use Rattle.downloaders.specs.declared.Ask.{Ask};
ghost use Rattle.downloaders.specs.Orders.{here_in_the_end};
ghost use Rattle.downloaders.specs.Rules.{AllHere, AreAsks, HasChunk};
ghost use Rattle.base_object.specs.Base.{IsLaterOf, IsReady, held_by as held_in};
ghost use Rattle.base_object.specs.Pulls.{Loses, progress_of};
ghost use Rattle.base_object.specs.Reads.{Reads};
ghost use Rattle.sparse_item.specs.Answers.{Enters, IsFull};
ghost use Rattle.sparse_item.specs.Fetching.{IsBringCause, IsFetchCause, Lacks, StandsOn, TellsStale};
ghost use Rattle.sparse_item.specs.Moves.{GoesOn};
ghost use Rattle.sparse_item.specs.Reading.{EntersRefusedRead, IsEarlier, IsReadCause, Shows, needed, shown};
ghost use Rattle.sparse_item.specs.Sound.{is_begun};

use crate::ItemBook;
use crate::fetch::{refusal, supply};
use crate::runs::{read_runs, zeros};
use crate::settle::settle;
use crate::slot::SlotFile;
use base_object::{BaseObject, BaseState};
use byte_ranges::Span;
use downloaders::Plan;
use item_core::FileKind;
use item_meta::Meta;
use std::alloc::Global;
use vfs_names::{Blob, By, Refusal, Verb};
use vfs_outside::{CacheFile, Object};

/// The most bytes of one read.
const MOST: u64 = 131_072;

/// Brings those of a read's bytes that the object is to give, after a write that is pending.
pub fn ready<O: Object, F: CacheFile>(
    alloc: Global,
    plan: &Plan,
    base: &mut BaseObject<O>,
    slot: &mut SlotFile<F>,
    meta: &mut Meta,
    part: Span,
) -> Result<(), Refusal>
    requires chunk { HasChunk plan.now.chunk }
    requires within { part.end ≤ meta.old.base_end }
    requires meta { IsMeta meta.old }
    requires held { held_in base.old.state ≡ meta.old.base }
    requires ready { IsReady base.old.state ⊎ AllHere (has meta.old.ranges) part meta.old.base_end }
    ensures stands { StandsOn F.tells O.tells (Some meta.old) slot.old base.old
        (Some meta.new) slot.new base.new }
    ensures asks { (asks : List Ask)
        → AreAsks plan.now part meta.old.base_end (has meta.old.ranges) base.old.crew asks
        → Reads asks (progress_of base.old) (progress_of base.new) result }
    ensures all { (asks : List Ask)
        → AreAsks plan.now part meta.old.base_end (has meta.old.ranges) base.old.crew asks
        → OnOk result ((p : ℕ) → has meta.new.ranges p
        ≡ here_in_the_end asks meta.old.base_end (has meta.old.ranges) p) }
    ensures got { OnOk result (AllHere (has meta.new.ranges) part meta.old.base_end) }
    ensures here { (p : ℕ) → has meta.old.ranges p ≡ true → has meta.new.ranges p ≡ true }
    ensures object { IsLaterOf base.old.object base.new.object }
    ensures state { Loses result base.old.state base.new.state }
    ensures settled { OnOk result (meta.new.intent ≡ None) }
    ensures meta { OnOk result (IsMeta meta.new) }
    ensures same { meta.new
        ≡ record meta.old { ranges = meta.new.ranges; intent = meta.new.intent } }
    ensures lost { (held : Fingerprint) (found : Found) → base.old.state ≡ BaseState.Lost held found
        → Lacks meta.old.ranges part → result ≡ Err (Refusal.Stale held found) }
    ensures causes { IfErr result (IsBringCause (Lacks meta.old.ranges part)
        base.old base.new slot.old slot.new) }
    ensures goes { GoesOn F.tells slot.old slot.new }
{
    if part.start < part.end {
        supply(alloc, plan, base, slot, meta, part)
    } else {
        match settle(slot, meta) {
            Ok(()) => Ok(()),
            Err(why) => Err(refusal(why)),
        }
    }
}

impl<O: Object, F: CacheFile> ItemBook<O, F> {
    /// The bytes from `pos` to the lesser of `pos + len` and the size. Those that the object is to
    /// give and that aren't here are pulled by the plan, and stay here.
    ///
    /// A write that is pending is settled first. Each run of bytes that are here is read by one
    /// call; a read of nothing, or from the size on, makes none.
    pub fn read(&mut self, plan: &Plan, by: By, pos: u64, len: u64) -> Result<Blob, Refusal>
        requires chunk { HasChunk plan.now.chunk }
        requires open { 0 < opens_by by.pass self.old.log.past }
        ensures ok { OnOk result (Enters by (kinds.Read pos len) self.old self.new) }
        ensures count { IfOk result (λ bytes. length bytes ≡ shown self.old.log.past pos len) }
        ensures bytes { IfOk result (Shows F.tells O.tells self.old pos len) }
        ensures err { IfErr result (EntersRefusedRead by self.old self.new) }
        ensures big { (result ≡ Err Refusal.TooBig) ↔ (131072 < len) }
        ensures full { (result ≡ Err Refusal.HistoryFull) ↔ ((len ≤ 131072) × IsFull self.old 1) }
        ensures asks { (asks : List Ask) → AreAsks plan.now (needed self.old.log.past pos len)
            (base_end_of self.old.log.past) (has self.old.here) self.old.base.crew asks
            → Reads asks (progress_of self.old.base) (progress_of self.new.base) result }
        ensures all { (asks : List Ask) → AreAsks plan.now (needed self.old.log.past pos len)
            (base_end_of self.old.log.past) (has self.old.here) self.old.base.crew asks
            → OnOk result ((p : ℕ) → has self.new.here p
            ≡ here_in_the_end asks (base_end_of self.old.log.past) (has self.old.here) p) }
        ensures got { OnOk result (AllHere (has self.new.here) (needed self.old.log.past pos len)
            (base_end_of self.old.log.past)) }
        ensures here { (p : ℕ) → has self.old.here p ≡ true → has self.new.here p ≡ true }
        ensures object { IsLaterOf self.old.base.object self.new.base.object }
        ensures state { Loses result self.old.base.state self.new.base.state }
        ensures settled { OnOk result (0 < shown self.old.log.past pos len
            → self.new.pending ≡ false) }
        ensures lost { (held : Fingerprint) (found : Found)
            → self.old.base.state ≡ BaseState.Lost held found
            → Lacks self.old.here (needed self.old.log.past pos len)
            → IsErrAnd result (λ why. IsEarlier why ⊎ (why ≡ Refusal.Stale held found)) }
        ensures causes { IfErr result (IsReadCause self.old self.new
            (needed self.old.log.past pos len)) }
        ensures tells { IfErr result (TellsStale self.old.log.past) }
        ensures limit { self.new.log.limit ≡ self.old.log.limit }
        ensures slot { GoesOn F.tells self.old.slot self.new.slot }
        ensures nothing { shown self.old.log.past pos len ≡ 0
            → self.new ≡ record self.old { log = self.new.log } }
        ensures same { self.new ≡ record self.old {
          log = self.new.log;
          base = self.new.base;
          here = self.new.here;
          pending = self.new.pending;
          slot = self.new.slot;
        } }
    {
        if len > MOST {
            return Err(Refusal::TooBig);
        }
        // the history is legal, so that a file with an open handle is kept
        let _ = self.entries();
        if let Err(why) = self.reserve(1) {
            return Err(why);
        }
        match self.show(plan, pos, len) {
            Ok(bytes) => {
                self.note(by, FileKind::Read { pos, len });
                Ok(bytes)
            }
            Err(why) => {
                self.refuse(by, why);
                Err(why)
            }
        }
    }

    /// The bytes of a read, with no entry yet.
    fn show(&mut self, plan: &Plan, pos: u64, len: u64) -> Result<Blob, Refusal>
        requires chunk { HasChunk plan.now.chunk }
        requires most { len ≤ 131072 }
        requires begun { is_begun self.old.log.past ≡ true }
        requires kept { is_kept self.old.log.past ≡ true }
        ensures count { IfOk result (λ bytes. length bytes ≡ shown self.old.log.past pos len) }
        ensures bytes { IfOk result (Shows F.tells O.tells self.old pos len) }
        ensures asks { (asks : List Ask) → AreAsks plan.now (needed self.old.log.past pos len)
            (base_end_of self.old.log.past) (has self.old.here) self.old.base.crew asks
            → Reads asks (progress_of self.old.base) (progress_of self.new.base) result }
        ensures all { (asks : List Ask) → AreAsks plan.now (needed self.old.log.past pos len)
            (base_end_of self.old.log.past) (has self.old.here) self.old.base.crew asks
            → OnOk result ((p : ℕ) → has self.new.here p
            ≡ here_in_the_end asks (base_end_of self.old.log.past) (has self.old.here) p) }
        ensures got { OnOk result (AllHere (has self.new.here) (needed self.old.log.past pos len)
            (base_end_of self.old.log.past)) }
        ensures here { (p : ℕ) → has self.old.here p ≡ true → has self.new.here p ≡ true }
        ensures object { IsLaterOf self.old.base.object self.new.base.object }
        ensures state { Loses result self.old.base.state self.new.base.state }
        ensures settled { OnOk result (0 < shown self.old.log.past pos len
            → self.new.pending ≡ false) }
        ensures lost { (held : Fingerprint) (found : Found)
            → self.old.base.state ≡ BaseState.Lost held found
            → Lacks self.old.here (needed self.old.log.past pos len)
            → (result ≡ Err Refusal.NoMemory) ⊎ (result ≡ Err (Refusal.Stale held found)) }
        ensures causes { IfErr result (IsFetchCause self.old self.new
            (needed self.old.log.past pos len)) }
        ensures legal { IfErr result (λ why. (why ≡ Refusal.NoMemory)
            ⊎ IsDeviceRefusal (held_by self.old.log.past) why) }
        ensures slot { GoesOn F.tells self.old.slot self.new.slot }
        ensures nothing { shown self.old.log.past pos len ≡ 0 → self.new ≡ self.old }
        ensures same { self.new ≡ record self.old {
          base = self.new.base;
          here = self.new.here;
          pending = self.new.pending;
          slot = self.new.slot;
        } }
    {
        let count = len.min(self.core.size().saturating_sub(pos));
        let part = Span {
            start: pos,
            end: (pos + count).min(self.core.base_end()),
        };
        let Ok(mut bytes) = zeros(self.alloc, count) else {
            return Err(Refusal::NoMemory);
        };
        if count == 0 {
            return Ok(Blob::from_vec(bytes));
        }
        let Some(meta) = &mut self.meta else {
            unreachable!()
        };
        // the time of the last use is saved with each save
        meta.atime = self.atime;
        match ready(self.alloc, plan, &mut self.base, &mut self.slot, meta, part) {
            Ok(()) => match read_runs(&mut self.slot, &meta.ranges, pos, bytes.as_mut_slice()) {
                Ok(()) => Ok(Blob::from_vec(bytes)),
                Err(why) => Err(refusal(why)),
            },
            Err(why) => Err(why),
        }
    }

    /// Says in the history that a read was refused for the object or the disk.
    fn refuse(&mut self, by: By, why: Refusal)
        requires room { 1 ≤ self.old.log.spare }
        requires legal { (why ≡ Refusal.NoMemory) ⊎ IsDeviceRefusal (held_by self.old.log.past) why }
        ensures past { EntersRefusedRead by self.old self.new why }
        ensures limit { self.new.log.limit ≡ self.old.log.limit }
        ensures same { self.new ≡ record self.old { log = self.new.log } }
    {
        match why {
            Refusal::RemoteFault => self.note_refused(by, Refusal::RemoteFault),
            Refusal::DiskFault => self.note_refused(by, Refusal::DiskFault),
            Refusal::Stale { held, found } => self.note_refused(by, Refusal::Stale { held, found }),
            _ => {}
        }
    }

    /// Adds the entry of a read that was refused.
    fn note_refused(&mut self, by: By, why: Refusal)
        requires room { 1 ≤ self.old.log.spare }
        requires legal { IsDeviceRefusal (held_by self.old.log.past) why }
        ensures past { Enters by (kinds.Refused verbs.Read why) self.old self.new }
        ensures limit { self.new.log.limit ≡ self.old.log.limit }
        ensures same { self.new ≡ record self.old { log = self.new.log } }
    {
        self.note(
            by,
            FileKind::Refused {
                verb: Verb::Read,
                why,
            },
        );
    }
}
