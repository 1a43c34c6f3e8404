ghost use Rattle.std.specs.Prelude.{◌≡◌, ◌⊎◌, ◌<◌, ◌≤◌, ◌+◌, ◌↔◌, [], true, false, None, Some, Ok, is_some, IsTrue, IfOk, OnOk, OnErr, IfErr};
ghost use Rattle.vfs_names.specs.declared.refusal.Verb.TheVariants as verbs;
ghost use Rattle.vfs_outside.specs.Slot.{HasFault};
ghost use Rattle.item_core.specs.declared.entry.FileKind.TheVariants as kinds;
ghost use Rattle.item_core.specs.History.{is_dirty, is_kept, opens_of};
ghost use Rattle.item_meta.specs.InRange.{IsMeta};
ghost use Rattle.sparse_item.specs.Answers.{Enters, EntersRefusal, IsDiskCause, IsEvictable, IsFull, IsInUse};
ghost use Rattle.sparse_item.specs.Item.{no_base};
ghost use Rattle.sparse_item.specs.Moves.{Clears, GoesOn, Moves, settling};

use crate::ItemBook;
use crate::settle::settle;
use crate::slot::SlotFile;
use base_object::BaseObject;
use item_core::{Entry, FileKind};
use item_meta::Meta;
use vfs_names::{By, Refusal, Verb};
use vfs_outside::{CacheFile, DiskError, Object};

/// Settles a write that is pending, and then clears the slot. Says the number of the clear.
fn clear_out<F: CacheFile>(slot: &mut SlotFile<F>, meta: &mut Meta) -> Result<u64, DiskError>
    requires { IsMeta meta.old }
    ensures ok { OnOk result (Clears F.tells meta.old slot.old slot.new) }
    ensures at { IfOk result (λ at. at ≡ slot.new.calls) }
    ensures calls { OnOk result (slot.new.calls
        ≡ slot.old.calls + settling (is_some meta.old.intent) + 1) }
    ensures moves { OnErr result (Moves F.tells
        (Some meta.old) slot.old (Some meta.new) slot.new) }
    ensures same { OnErr result (meta.new ≡ record meta.old { intent = meta.new.intent }) }
    ensures fault { HasFault slot.old.faults slot.new.faults result }
    ensures goes { GoesOn F.tells slot.old slot.new }
{
    match settle(slot, meta) {
        Ok(()) => match slot.clear() {
            Ok(()) => Ok(slot.calls()),
            Err(why) => Err(why),
        },
        Err(why) => Err(why),
    }
}

impl<O: Object, F: CacheFile> ItemBook<O, F> {
    /// Whether the file is kept, with no handle open and no content that no upload saved.
    fn is_evictable(&self) -> bool
        ensures yes { IsTrue result → IsEvictable self.now.log.past }
        ensures no { result ≡ false → IsInUse self.now.log.past }
    {
        self.meta.is_some() && !self.core.dirty() && self.core.opens() == 0
    }

    /// Gives up what the cache has of the file; false where there is content that no upload saved, or
    /// a handle is open, or the cache has nothing.
    pub fn evict(&mut self, by: By) -> Result<bool, Refusal>
        ensures yes { IfOk result (λ done. IsTrue done
            → Enters by kinds.Evict self.old self.new) }
        ensures gone { IfOk result (λ done. IsTrue done → self.new ≡ record self.old {
          log = self.new.log;
          base = no_base;
          here = [];
          pending = false;
          slot = self.new.slot;
        }) }
        ensures no { (result ≡ Ok false) ↔ IsInUse self.old.log.past }
        ensures stays { IfOk result (λ done. done ≡ false → self.new ≡ self.old) }
        ensures err { IfErr result (EntersRefusal by verbs.Clean self.old self.new) }
        ensures same { OnErr result (self.new ≡ record self.old {
          log = self.new.log;
          pending = self.new.pending;
          slot = self.new.slot;
        }) }
        ensures calls { IfOk result (λ done. IsTrue done → self.new.slot.calls
            ≡ self.old.slot.calls + settling self.old.pending + 1) }
        ensures full { (result ≡ Err Refusal.HistoryFull)
            ↔ (IsEvictable self.old.log.past × IsFull self.old 1) }
        ensures causes { IfErr result (IsDiskCause self.old self.new) }
        ensures limit { self.new.log.limit ≡ self.old.log.limit }
        ensures slot { GoesOn F.tells self.old.slot self.new.slot }
    {
        if !self.is_evictable() {
            return Ok(false);
        }
        if let Err(why) = self.reserve(1) {
            return Err(why);
        }
        let Some(meta) = &mut self.meta else {
            unreachable!()
        };
        match clear_out(&mut self.slot, meta) {
            Ok(at) => {
                self.meta = None;
                self.base = BaseObject::none();
                let kind = FileKind::Evict;
                self.core.push(Entry { by, at, kind });
                Ok(true)
            }
            Err(why) => Err(self.blame(by, Verb::Clean, why)),
        }
    }

    /// Removes the file; what wasn't uploaded is lost.
    pub fn discard(&mut self, by: By) -> Result<(), Refusal>
        requires tree { by.tree ≡ true }
        requires kept { is_kept self.old.log.past ≡ true }
        requires closed { opens_of self.old.log.past ≡ 0 }
        ensures ok { OnOk result (Enters by kinds.Discard self.old self.new) }
        ensures err { OnErr result (self.new.log.past ≡ self.old.log.past) }
        ensures gone { OnOk result (self.new ≡ record self.old {
          log = self.new.log;
          base = no_base;
          here = [];
          pending = false;
          slot = self.new.slot;
        }) }
        ensures same { OnErr result (self.new ≡ record self.old {
          log = self.new.log;
          pending = self.new.pending;
          slot = self.new.slot;
        }) }
        ensures calls { OnOk result (self.new.slot.calls
            ≡ self.old.slot.calls + settling self.old.pending + 1) }
        ensures full { (result ≡ Err Refusal.HistoryFull) ↔ IsFull self.old 1 }
        ensures causes { IfErr result (IsDiskCause self.old self.new) }
        ensures limit { self.new.log.limit ≡ self.old.log.limit }
        ensures slot { GoesOn F.tells self.old.slot self.new.slot }
    {
        if let Err(why) = self.reserve(1) {
            return Err(why);
        }
        let Some(meta) = &mut self.meta else {
            unreachable!()
        };
        match clear_out(&mut self.slot, meta) {
            Ok(at) => {
                self.meta = None;
                self.base = BaseObject::none();
                let kind = FileKind::Discard;
                self.core.push(Entry { by, at, kind });
                Ok(())
            }
            Err(DiskError::Failed) => Err(Refusal::DiskFault),
            Err(DiskError::NoMemory) => Err(Refusal::NoMemory),
        }
    }
}
