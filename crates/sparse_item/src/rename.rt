ghost use Rattle.std.specs.Prelude.{◌≡◌, ◌≢◌, ◌<◌, ◌≤◌, ◌+◌, ◌↔◌, [], true, false, Some, is_some, OnOk, OnErr, IfOk, IfErr};
ghost use Rattle.vfs_outside.specs.Slot.{HasFault};
ghost use Rattle.item_core.specs.declared.entry.FileKind.TheVariants as kinds;
ghost use Rattle.item_core.specs.History.{is_kept, opens_of};
ghost use Rattle.item_meta.specs.InRange.{IsMeta};
ghost use Rattle.item_image.specs.Next.{renamed_meta};
ghost use Rattle.sparse_item.specs.Answers.{Enters, IsDiskCause, IsFull};
ghost use Rattle.sparse_item.specs.Moves.{GoesOn, Moves, Settles, settling};

use crate::ItemBook;
use crate::settle::commit;
use crate::slot::SlotFile;
use item_core::{Entry, FileKind};
use item_image::renamed;
use item_meta::{Meta, write_meta};
use std::alloc::Global;
use vfs_names::{By, Refusal, VPath};
use vfs_outside::{CacheFile, DiskError, Object};

/// Saves the metadata of a file at another path. Says the number of the save.
fn put_under<F: CacheFile>(
    alloc: Global,
    slot: &mut SlotFile<F>,
    meta: &mut Meta,
    path: &VPath,
) -> Result<u64, DiskError>
    requires meta { IsMeta meta.old }
    requires file { path.now ≢ [] }
    ensures ok { OnOk result (Settles F.tells meta.old slot.old meta.new slot.new) }
    ensures renamed { OnOk result (meta.new ≡ renamed_meta path.now meta.old) }
    ensures at { IfOk result (λ at. at ≡ slot.new.calls) }
    ensures calls { OnOk result (slot.new.calls
        ≡ slot.old.calls + settling (is_some meta.old.intent) + 1) }
    ensures moves { OnErr result (Moves F.tells
        (Some meta.old) slot.old (Some meta.new) slot.new) }
    ensures same { OnErr result (meta.new ≡ record meta.old { intent = meta.new.intent }) }
    ensures fault { HasFault slot.old.faults slot.new.faults result }
    ensures goes { GoesOn F.tells slot.old slot.new }
{
    let Ok(name) = path.copy(alloc) else {
        return Err(DiskError::NoMemory);
    };
    let Ok(next) = renamed(alloc, meta, name) else {
        return Err(DiskError::NoMemory);
    };
    let Ok(text) = write_meta(alloc, &next) else {
        return Err(DiskError::NoMemory);
    };
    match commit(slot, meta, next, &text) {
        Ok(at) => Ok(at),
        Err(why) => Err(why),
    }
}

impl<O: Object, F: CacheFile> ItemBook<O, F> {
    /// The file has another path.
    pub fn rename_to(&mut self, by: By, path: VPath) -> Result<(), Refusal>
        requires tree { by.tree ≡ true }
        requires file { path ≢ [] }
        requires kept { is_kept self.old.log.past ≡ true }
        requires closed { opens_of self.old.log.past ≡ 0 }
        ensures ok { OnOk result (Enters by (kinds.Rename path) self.old self.new) }
        ensures err { OnErr result (self.new.log.past ≡ self.old.log.past) }
        ensures calls { OnOk result (self.new.slot.calls
            ≡ self.old.slot.calls + settling self.old.pending + 1) }
        ensures settled { OnOk result (self.new.pending ≡ false) }
        ensures full { (result ≡ Err Refusal.HistoryFull) ↔ IsFull self.old 1 }
        ensures causes { IfErr result (IsDiskCause self.old self.new) }
        ensures limit { self.new.log.limit ≡ self.old.log.limit }
        ensures slot { GoesOn F.tells self.old.slot self.new.slot }
        ensures same { self.new ≡ record self.old {
          log = self.new.log;
          pending = self.new.pending;
          slot = self.new.slot;
        } }
    {
        if let Err(why) = self.reserve(1) {
            return Err(why);
        }
        let Some(meta) = &mut self.meta else {
            unreachable!()
        };
        // the time of the last use is saved with each save
        meta.atime = self.atime;
        match put_under(self.alloc, &mut self.slot, meta, &path) {
            Ok(at) => {
                let kind = FileKind::Rename(path);
                self.core.push(Entry { by, at, kind });
                Ok(())
            }
            Err(DiskError::Failed) => Err(Refusal::DiskFault),
            Err(DiskError::NoMemory) => Err(Refusal::NoMemory),
        }
    }
}
