ghost use Rattle.std.specs.Prelude.{◌≡◌, ℕ, ◌⊎◌, ◌<◌, ◌≤◌, ◌+◌, ◌^◌, ◌↔◌, ◌&&◌, nat_lt, true, false, Some, is_some, OnOk, OnErr, IfOk, IfErr};
ghost use Rattle.byte_ranges.specs.Ranges.{has};
ghost use Rattle.vfs_names.specs.declared.refusal.Verb.TheVariants as verbs;
ghost use Rattle.vfs_outside.specs.Slot.{HasFault};
ghost use Rattle.item_core.specs.declared.entry.FileKind.TheVariants as kinds;
ghost use Rattle.item_core.specs.History.{is_kept, opens_by};
ghost use Rattle.item_meta.specs.InRange.{IsMeta};
ghost use Rattle.item_image.specs.Next.{IsCut};
ghost use Rattle.sparse_item.specs.Answers.{Enters, EntersRefusal, IsCause, IsFull};
ghost use Rattle.sparse_item.specs.Moves.{GoesOn, Moves, Settles, settling};

use crate::ItemBook;
use crate::settle::commit;
use crate::slot::SlotFile;
use crate::write::LAST_END;
use item_core::{Entry, FileKind};
use item_image::cut_to;
use item_meta::{Meta, write_meta};
use std::alloc::Global;
use vfs_names::{By, Refusal, Verb};
use vfs_outside::{CacheFile, DiskError, Object};

/// Saves the metadata of a file whose size is set. Says the number of the save.
fn cut_down<F: CacheFile>(
    alloc: Global,
    slot: &mut SlotFile<F>,
    meta: &mut Meta,
    now: u64,
    size: u64,
) -> Result<u64, DiskError>
    requires meta { IsMeta meta.old }
    requires end { size ≤ 2 ^ 40 }
    ensures cut { OnOk result (IsCut size now meta.old meta.new) }
    ensures ok { OnOk result (Settles F.tells meta.old slot.old meta.new slot.new) }
    ensures at { IfOk result (λ at. at ≡ slot.new.calls) }
    ensures calls { OnOk result (slot.new.calls
        ≡ slot.old.calls + settling (is_some meta.old.intent) + 1) }
    ensures moves { OnErr result (Moves F.tells
        (Some meta.old) slot.old (Some meta.new) slot.new) }
    ensures same { OnErr result (meta.new ≡ record meta.old { intent = meta.new.intent }) }
    ensures fault { HasFault slot.old.faults slot.new.faults result }
    ensures goes { GoesOn F.tells slot.old slot.new }
{
    let Ok(next) = cut_to(alloc, meta, now, size) else {
        return Err(DiskError::NoMemory);
    };
    let Ok(text) = write_meta(alloc, &next) else {
        return Err(DiskError::NoMemory);
    };
    match commit(slot, meta, next, &text) {
        Ok(at) => Ok(at),
        Err(why) => Err(why),
    }
}

impl<O: Object, F: CacheFile> ItemBook<O, F> {
    /// The file ends there; what a later growth shows is 0.
    pub fn set_size(&mut self, by: By, size: u64) -> Result<(), Refusal>
        requires kept { is_kept self.old.log.past ≡ true }
        requires open { (0 < opens_by by.pass self.old.log.past)
            ⊎ ((size ≡ 0) × (by.tree ≡ true)) }
        ensures ok { OnOk result (Enters by (kinds.SetSize size) self.old self.new) }
        ensures err { IfErr result (EntersRefusal by verbs.Size self.old self.new) }
        ensures here { OnOk result ((p : ℕ)
            → has self.new.here p ≡ (has self.old.here p && nat_lt p size)) }
        ensures kept { OnErr result (self.new.here ≡ self.old.here) }
        ensures calls { OnOk result (self.new.slot.calls
            ≡ self.old.slot.calls + settling self.old.pending + 1) }
        ensures settled { OnOk result (self.new.pending ≡ false) }
        ensures big { (result ≡ Err Refusal.TooBig) ↔ (2 ^ 40 < size) }
        ensures full { (result ≡ Err Refusal.HistoryFull)
            ↔ ((size ≤ 2 ^ 40) × IsFull self.old 1) }
        ensures causes { IfErr result (IsCause self.old self.new) }
        ensures limit { self.new.log.limit ≡ self.old.log.limit }
        ensures slot { GoesOn F.tells self.old.slot self.new.slot }
        ensures same { self.new ≡ record self.old {
          log = self.new.log;
          here = self.new.here;
          pending = self.new.pending;
          slot = self.new.slot;
        } }
    {
        if size > LAST_END {
            return Err(Refusal::TooBig);
        }
        if let Err(why) = self.reserve(1) {
            return Err(why);
        }
        let Some(meta) = &mut self.meta else {
            unreachable!()
        };
        match cut_down(self.alloc, &mut self.slot, meta, by.now, size) {
            Ok(at) => {
                self.atime = by.now;
                let kind = FileKind::SetSize(size);
                self.core.push(Entry { by, at, kind });
                Ok(())
            }
            Err(why) => Err(self.blame(by, Verb::Size, why)),
        }
    }
}
