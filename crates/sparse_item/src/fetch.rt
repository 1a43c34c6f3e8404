ghost use Rattle.std.specs.Prelude.{◌≡◌, ◌⊎◌, ◌<◌, ◌≤◌, ◌+◌, ℕ, List, None, Some, Ok, true, false, OnOk, OnErr, IfOk, IfErr, IfSome};
ghost use Rattle.byte_ranges.specs.Ranges.{has, total_length};
ghost use Rattle.vfs_names.specs.declared.fingerprint.Fingerprint.{Fingerprint};
ghost use Rattle.vfs_names.specs.declared.refusal.Found.{Found};
ghost use Rattle.item_core.specs.History.{base_end_of, is_kept};
ghost use Rattle.item_image.specs.Next.{settled_meta};
ghost use Rattle.item_meta.specs.InRange.{IsMeta};
ghost use Rattle.downloaders.specs.declared.Ask.{Ask};
ghost use Rattle.downloaders.specs.Orders.{here_in_the_end};
ghost use Rattle.downloaders.specs.Rules.{AllHere, AreAsks, HasChunk};
ghost use Rattle.base_object.specs.Base.{IsLaterOf, IsReady, held_by as held_in};
ghost use Rattle.base_object.specs.Pulls.{Loses, progress_of};
ghost use Rattle.base_object.specs.PullsLeft.{pulls_left};
ghost use Rattle.base_object.specs.Reads.{Reads};
ghost use Rattle.sparse_item.specs.Fetching.{Fetches, IsBringCause, IsFetchCause, Lacks, StandsOn, TellsStale, object_part};
ghost use Rattle.sparse_item.specs.Item.{IsSupplied};
ghost use Rattle.sparse_item.specs.Answers.{refusal_for};
ghost use Rattle.sparse_item.specs.Moves.{GoesOn};

use crate::ItemBook;
use crate::settle::settle;
use crate::slot::SlotFile;
use crate::store::store;
use base_object::{BaseObject, BaseState};
use byte_ranges::Span;
use downloaders::Plan;
use item_meta::Meta;
use std::alloc::Global;
use vfs_names::Refusal;
use vfs_outside::{CacheFile, DiskError, Object};

/// With what a call is refused for the disk.
pub fn refusal(why: DiskError) -> Refusal
    ensures { result ≡ refusal_for why }
{
    match why {
        DiskError::Failed => Refusal::DiskFault,
        DiskError::NoMemory => Refusal::NoMemory,
    }
}

/// Pulls the next block that the rules say and stores it; whether there was one.
fn bring_next<O: Object, F: CacheFile>(
    alloc: Global,
    plan: &Plan,
    base: &mut BaseObject<O>,
    slot: &mut SlotFile<F>,
    meta: &mut Meta,
    part: Span,
    base_end: u64,
) -> Result<bool, Refusal>
    requires chunk { HasChunk plan.now.chunk }
    requires some { part.start < part.end }
    requires within { part.end ≤ base_end }
    requires end { base_end ≡ meta.old.base_end }
    requires meta { IsMeta meta.old }
    requires settled { meta.old.intent ≡ None }
    requires held { held_in base.old.state ≡ meta.old.base }
    requires ready { IsReady base.old.state ⊎ AllHere (has meta.old.ranges) part base_end }
    ensures stands { StandsOn F.tells O.tells (Some meta.old) slot.old base.old
        (Some meta.new) slot.new base.new }
    ensures asks { (asks : List Ask)
        → AreAsks plan.now part base_end (has meta.old.ranges) base.old.crew asks
        → Fetches asks base_end (has meta.old.ranges) (has meta.new.ranges)
        (progress_of base.old) (progress_of base.new) result }
    ensures done { result ≡ Ok false → AllHere (has meta.old.ranges) part base_end }
    ensures fewer { result ≡ Ok true
        → pulls_left (has meta.new.ranges) part base_end base.new.crew
        < pulls_left (has meta.old.ranges) part base_end base.old.crew }
    ensures here { (p : ℕ) → has meta.old.ranges p ≡ true → has meta.new.ranges p ≡ true }
    ensures object { IsLaterOf base.old.object base.new.object }
    ensures state { Loses result base.old.state base.new.state }
    ensures meta { IsMeta meta.new }
    ensures same { meta.new ≡ record meta.old { ranges = meta.new.ranges } }
    ensures causes { IfErr result (IsBringCause (Lacks meta.old.ranges part)
        base.old base.new slot.old slot.new) }
    ensures goes { GoesOn F.tells slot.old slot.new }
{
    let _ = base.state();
    match base.pull(alloc, plan, &meta.ranges, part, base_end) {
        Ok(found) => match found {
            Some(block) => match store(alloc, slot, meta, &block) {
                Ok(()) => Ok(true),
                Err(why) => Err(refusal(why)),
            },
            None => Ok(false),
        },
        Err(why) => Err(why),
    }
}

/// Pulls block after block and stores each, until each byte of the part is here.
fn bring<O: Object, F: CacheFile>(
    alloc: Global,
    plan: &Plan,
    base: &mut BaseObject<O>,
    slot: &mut SlotFile<F>,
    meta: &mut Meta,
    part: Span,
    base_end: u64,
) -> Result<(), Refusal>
    requires chunk { HasChunk plan.now.chunk }
    requires some { part.start < part.end }
    requires within { part.end ≤ base_end }
    requires end { base_end ≡ meta.old.base_end }
    requires meta { IsMeta meta.old }
    requires settled { meta.old.intent ≡ None }
    requires held { held_in base.old.state ≡ meta.old.base }
    requires ready { IsReady base.old.state ⊎ AllHere (has meta.old.ranges) part base_end }
    ensures stands { StandsOn F.tells O.tells (Some meta.old) slot.old base.old
        (Some meta.new) slot.new base.new }
    ensures asks { (asks : List Ask)
        → AreAsks plan.now part base_end (has meta.old.ranges) base.old.crew asks
        → Reads asks (progress_of base.old) (progress_of base.new) result }
    ensures all { (asks : List Ask)
        → AreAsks plan.now part base_end (has meta.old.ranges) base.old.crew asks
        → OnOk result ((p : ℕ) → has meta.new.ranges p
        ≡ here_in_the_end asks base_end (has meta.old.ranges) p) }
    ensures got { OnOk result (AllHere (has meta.new.ranges) part base_end) }
    ensures here { (p : ℕ) → has meta.old.ranges p ≡ true → has meta.new.ranges p ≡ true }
    ensures object { IsLaterOf base.old.object base.new.object }
    ensures state { Loses result base.old.state base.new.state }
    ensures meta { IsMeta meta.new }
    ensures same { meta.new ≡ record meta.old { ranges = meta.new.ranges } }
    ensures causes { IfErr result (IsBringCause (Lacks meta.old.ranges part)
        base.old base.new slot.old slot.new) }
    ensures goes { GoesOn F.tells slot.old slot.new }
{
    loop {
        match bring_next(alloc, plan, base, slot, meta, part, base_end) {
            Ok(true) => {}
            Ok(false) => return Ok(()),
            Err(why) => return Err(why),
        }
    }
}

/// Before bytes of the object are got: the call is refused where the base is lost and one of them
/// isn't here. Else a write that is pending is settled.
fn prepare<O: Object, F: CacheFile>(
    base: &BaseObject<O>,
    slot: &mut SlotFile<F>,
    meta: &mut Meta,
    part: Span,
) -> Result<(), Refusal>
    requires some { part.start < part.end }
    requires meta { IsMeta meta.old }
    ensures stands { StandsOn F.tells O.tells (Some meta.old) slot.old base.now
        (Some meta.new) slot.new base.now }
    ensures ok { OnOk result (meta.new ≡ settled_meta meta.old) }
    ensures same { meta.new ≡ record meta.old { intent = meta.new.intent } }
    ensures lost { (held : Fingerprint) (found : Found) → base.now.state ≡ BaseState.Lost held found
        → Lacks meta.old.ranges part → result ≡ Err (Refusal.Stale held found) }
    ensures causes { IfErr result (IsBringCause (Lacks meta.old.ranges part)
        base.now base.now slot.old slot.new) }
    ensures state { Loses result base.now.state base.now.state }
    ensures meta { OnOk result (IsMeta meta.new) }
    ensures goes { GoesOn F.tells slot.old slot.new }
{
    if let BaseState::Lost { held, found } = base.state() {
        if let Some(_missing) = meta.ranges.first_missing(part) {
            return Err(Refusal::Stale { held, found });
        }
    }
    match settle(slot, meta) {
        Ok(()) => Ok(()),
        Err(why) => Err(refusal(why)),
    }
}

/// Brings a part of the object's bytes, after a write that is pending.
pub fn supply<O: Object, F: CacheFile>(
    alloc: Global,
    plan: &Plan,
    base: &mut BaseObject<O>,
    slot: &mut SlotFile<F>,
    meta: &mut Meta,
    part: Span,
) -> Result<(), Refusal>
    requires chunk { HasChunk plan.now.chunk }
    requires some { part.start < part.end }
    requires within { part.end ≤ meta.old.base_end }
    requires meta { IsMeta meta.old }
    requires held { held_in base.old.state ≡ meta.old.base }
    requires ready { IsReady base.old.state ⊎ AllHere (has meta.old.ranges) part meta.old.base_end }
    ensures stands { StandsOn F.tells O.tells (Some meta.old) slot.old base.old
        (Some meta.new) slot.new base.new }
    ensures asks { (asks : List Ask)
        → AreAsks plan.now part meta.old.base_end (has meta.old.ranges) base.old.crew asks
        → Reads asks (progress_of base.old) (progress_of base.new) result }
    ensures all { (asks : List Ask)
        → AreAsks plan.now part meta.old.base_end (has meta.old.ranges) base.old.crew asks
        → OnOk result ((p : ℕ) → has meta.new.ranges p
        ≡ here_in_the_end asks meta.old.base_end (has meta.old.ranges) p) }
    ensures got { OnOk result (AllHere (has meta.new.ranges) part meta.old.base_end) }
    ensures here { (p : ℕ) → has meta.old.ranges p ≡ true → has meta.new.ranges p ≡ true }
    ensures object { IsLaterOf base.old.object base.new.object }
    ensures state { Loses result base.old.state base.new.state }
    ensures settled { OnOk result (meta.new.intent ≡ None) }
    ensures meta { OnOk result (IsMeta meta.new) }
    ensures same { meta.new
        ≡ record meta.old { ranges = meta.new.ranges; intent = meta.new.intent } }
    ensures lost { (held : Fingerprint) (found : Found) → base.old.state ≡ BaseState.Lost held found
        → Lacks meta.old.ranges part → result ≡ Err (Refusal.Stale held found) }
    ensures causes { IfErr result (IsBringCause (Lacks meta.old.ranges part)
        base.old base.new slot.old slot.new) }
    ensures goes { GoesOn F.tells slot.old slot.new }
{
    let base_end = meta.base_end;
    match prepare(base, slot, meta, part) {
        Ok(()) => bring(alloc, plan, base, slot, meta, part, base_end),
        Err(why) => Err(why),
    }
}

/// Brings one block of a part of the object's bytes, after a write that is pending. Says how many
/// bytes were stored.
fn fetch_part<O: Object, F: CacheFile>(
    alloc: Global,
    plan: &Plan,
    base: &mut BaseObject<O>,
    slot: &mut SlotFile<F>,
    meta: &mut Meta,
    part: Span,
) -> Result<u64, Refusal>
    requires chunk { HasChunk plan.now.chunk }
    requires some { part.start < part.end }
    requires within { part.end ≤ meta.old.base_end }
    requires meta { IsMeta meta.old }
    requires held { held_in base.old.state ≡ meta.old.base }
    requires ready { IsReady base.old.state ⊎ AllHere (has meta.old.ranges) part meta.old.base_end }
    ensures stands { StandsOn F.tells O.tells (Some meta.old) slot.old base.old
        (Some meta.new) slot.new base.new }
    ensures stored { IfOk result (λ n. total_length meta.new.ranges
        ≡ total_length meta.old.ranges + n) }
    ensures asks { (asks : List Ask)
        → AreAsks plan.now part meta.old.base_end (has meta.old.ranges) base.old.crew asks
        → Fetches asks meta.old.base_end (has meta.old.ranges) (has meta.new.ranges)
        (progress_of base.old) (progress_of base.new) result }
    ensures here { (p : ℕ) → has meta.old.ranges p ≡ true → has meta.new.ranges p ≡ true }
    ensures object { IsLaterOf base.old.object base.new.object }
    ensures state { Loses result base.old.state base.new.state }
    ensures settled { OnOk result (meta.new.intent ≡ None) }
    ensures same { meta.new
        ≡ record meta.old { ranges = meta.new.ranges; intent = meta.new.intent } }
    ensures lost { (held : Fingerprint) (found : Found) → base.old.state ≡ BaseState.Lost held found
        → Lacks meta.old.ranges part → result ≡ Err (Refusal.Stale held found) }
    ensures causes { IfErr result (IsBringCause (Lacks meta.old.ranges part)
        base.old base.new slot.old slot.new) }
    ensures goes { GoesOn F.tells slot.old slot.new }
{
    let base_end = meta.base_end;
    let before = meta.ranges.count();
    match prepare(base, slot, meta, part) {
        Ok(()) => match bring_next(alloc, plan, base, slot, meta, part, base_end) {
            Ok(_) => Ok(meta.ranges.count() - before),
            Err(why) => Err(why),
        },
        Err(why) => Err(why),
    }
}

impl<O: Object, F: CacheFile> ItemBook<O, F> {
    /// Makes the next pull that the rules say for the span's bytes, and stores those of its bytes
    /// that aren't here. Says how many these are. Adds no entry.
    ///
    /// Costs a walk over the ranges of bytes that the cache has, as each save does.
    pub fn fetch(&mut self, plan: &Plan, span: Span) -> Result<u64, Refusal>
        requires chunk { HasChunk plan.now.chunk }
        requires some { span.start < span.end }
        requires supplied { IsSupplied
            self.old.base.state self.old.here (base_end_of self.old.log.past) }
        ensures stored { IfOk result (λ n. total_length self.new.here
            ≡ total_length self.old.here + n) }
        ensures asks { (asks : List Ask) → AreAsks plan.now (object_part self.old.log.past span)
            (base_end_of self.old.log.past) (has self.old.here) self.old.base.crew asks
            → Fetches asks (base_end_of self.old.log.past) (has self.old.here) (has self.new.here)
            (progress_of self.old.base) (progress_of self.new.base) result }
        ensures here { (p : ℕ) → has self.old.here p ≡ true → has self.new.here p ≡ true }
        ensures object { IsLaterOf self.old.base.object self.new.base.object }
        ensures state { Loses result self.old.base.state self.new.base.state }
        ensures settled { OnOk result (Lacks self.old.here (object_part self.old.log.past span)
            → self.new.pending ≡ false) }
        ensures lost { (held : Fingerprint) (found : Found)
            → self.old.base.state ≡ BaseState.Lost held found
            → Lacks self.old.here (object_part self.old.log.past span)
            → result ≡ Err (Refusal.Stale held found) }
        ensures causes { IfErr result (IsFetchCause self.old self.new
            (object_part self.old.log.past span)) }
        ensures tells { IfErr result (TellsStale self.old.log.past) }
        ensures slot { GoesOn F.tells self.old.slot self.new.slot }
        ensures same { self.new ≡ record self.old {
          base = self.new.base;
          here = self.new.here;
          pending = self.new.pending;
          slot = self.new.slot;
        } }
    {
        match self.lacking(span) {
            Some(part) => self.fetch_lacking(plan, part),
            None => Ok(0),
        }
    }

    /// The part of a span that the object is to give, where a byte of it isn't here.
    fn lacking(&self, span: Span) -> Option<Span>
        requires supplied { IsSupplied
            self.now.base.state self.now.here (base_end_of self.now.log.past) }
        ensures part { IfSome result (λ part. part ≡ object_part self.now.log.past span) }
        ensures some { IfSome result (λ part. part.start < part.end) }
        ensures kept { IfSome result (λ _. is_kept self.now.log.past ≡ true) }
        ensures none { result ≡ None → AllHere (has self.now.here)
            (object_part self.now.log.past span) (base_end_of self.now.log.past) }
    {
        let end = span.end.min(self.core.base_end());
        if span.start >= end {
            return None;
        }
        let part = Span {
            start: span.start,
            end,
        };
        match &self.meta {
            Some(meta) => {
                if meta.ranges.covers(part) {
                    None
                } else {
                    Some(part)
                }
            }
            None => None,
        }
    }

    /// Brings one block of a part of the object's bytes. Says how many bytes were stored.
    fn fetch_lacking(&mut self, plan: &Plan, part: Span) -> Result<u64, Refusal>
        requires chunk { HasChunk plan.now.chunk }
        requires some { part.start < part.end }
        requires within { part.end ≤ base_end_of self.old.log.past }
        requires kept { is_kept self.old.log.past ≡ true }
        requires supplied { IsSupplied
            self.old.base.state self.old.here (base_end_of self.old.log.past) }
        ensures stored { IfOk result (λ n. total_length self.new.here
            ≡ total_length self.old.here + n) }
        ensures asks { (asks : List Ask) → AreAsks plan.now part
            (base_end_of self.old.log.past) (has self.old.here) self.old.base.crew asks
            → Fetches asks (base_end_of self.old.log.past) (has self.old.here) (has self.new.here)
            (progress_of self.old.base) (progress_of self.new.base) result }
        ensures here { (p : ℕ) → has self.old.here p ≡ true → has self.new.here p ≡ true }
        ensures object { IsLaterOf self.old.base.object self.new.base.object }
        ensures state { Loses result self.old.base.state self.new.base.state }
        ensures settled { OnOk result (self.new.pending ≡ false) }
        ensures lost { (held : Fingerprint) (found : Found)
            → self.old.base.state ≡ BaseState.Lost held found → Lacks self.old.here part
            → result ≡ Err (Refusal.Stale held found) }
        ensures causes { IfErr result (IsFetchCause self.old self.new part) }
        ensures tells { IfErr result (TellsStale self.old.log.past) }
        ensures slot { GoesOn F.tells self.old.slot self.new.slot }
        ensures same { self.new ≡ record self.old {
          base = self.new.base;
          here = self.new.here;
          pending = self.new.pending;
          slot = self.new.slot;
        } }
    {
        let Some(meta) = &mut self.meta else {
            unreachable!()
        };
        // the time of the last use is saved with each save
        meta.atime = self.atime;
        match fetch_part(self.alloc, plan, &mut self.base, &mut self.slot, meta, part) {
            Ok(stored) => Ok(stored),
            Err(why) => Err(why),
        }
    }
}
