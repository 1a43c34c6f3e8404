ghost use Rattle.std.specs.Prelude.{◌≡◌, ◌≢◌, ◌⊎◌, ◌<◌, ◌≤◌, ◌+◌, ◌^◌, ◌↔◌, [], ◌∷◌, false, true, vec_len, vec_capacity, OnOk, OnErr, IfErr};
ghost use Rattle.item_core.specs.declared.entry.FileKind.TheVariants as kinds;
ghost use Rattle.item_core.specs.History.{held_by, is_dirty, is_kept, opens_of};
ghost use Rattle.item_core.specs.Legal.{holds};
ghost use Rattle.sparse_item.specs.Answers.{Enters, IsCause, IsDiskCause, IsFull};
ghost use Rattle.sparse_item.specs.Item.{base_with, no_base};
ghost use Rattle.sparse_item.specs.Moves.{GoesOn};

use crate::ItemBook;
use crate::settle::save;
use base_object::BaseObject;
use item_core::{Entry, FileKind};
use item_image::{adopted, fresh};
use std::snapshot::Snapshot;
use vfs_names::{By, NoMemory, Refusal, VPath};
use vfs_outside::{CacheFile, DiskError, Object};

/// Makes room for one more path and one more object.
fn make_room<O>(names: &mut Vec<VPath>, given: &mut Vec<Snapshot<O>>) -> Result<(), NoMemory>
    ensures names { names.new.items ≡ names.old.items }
    ensures given { given.new.items ≡ given.old.items }
    ensures name { OnOk result (vec_len names.new < vec_capacity names.new) }
    ensures object { OnOk result (vec_len given.new < vec_capacity given.new) }
{
    match names.reserve(1) {
        Ok(()) => match given.reserve(1) {
            Ok(()) => Ok(()),
            Err(_) => Err(NoMemory),
        },
        Err(_) => Err(NoMemory),
    }
}

impl<O: Object, F: CacheFile> ItemBook<O, F> {
    /// Makes the file anew, with no bytes and no object.
    pub fn create(&mut self, by: By, path: VPath) -> Result<(), Refusal>
        requires tree { by.tree ≡ true }
        requires file { path ≢ [] }
        requires clean { is_dirty self.old.log.past ≡ false }
        requires closed { opens_of self.old.log.past ≡ 0 }
        ensures ok { OnOk result (Enters by kinds.Create self.old self.new) }
        ensures err { OnErr result (self.new.log.past ≡ self.old.log.past) }
        ensures made { OnOk result (self.new ≡ record self.old {
          log = self.new.log;
          names = path ∷ self.old.names;
          base = no_base;
          here = [];
          pending = false;
          slot = self.new.slot;
        }) }
        ensures same { OnErr result (self.new
            ≡ record self.old { log = self.new.log; slot = self.new.slot }) }
        ensures full { (result ≡ Err Refusal.HistoryFull) ↔ IsFull self.old 1 }
        ensures causes { IfErr result (IsDiskCause self.old self.new) }
        ensures limit { self.new.log.limit ≡ self.old.log.limit }
        ensures room { self.old.log.spare ≤ self.new.log.spare + 1 }
        ensures calls { OnOk result (self.new.slot.calls ≡ self.old.slot.calls + 1) }
        ensures slot { GoesOn F.tells self.old.slot self.new.slot }
    {
        if let Err(why) = self.reserve(1) {
            return Err(why);
        }
        let Ok(name) = path.copy(self.alloc) else {
            return Err(Refusal::NoMemory);
        };
        let next = fresh(self.alloc, name, by.now);
        let Ok(()) = make_room(&mut self.names, &mut self.given) else {
            return Err(Refusal::NoMemory);
        };
        match save(self.alloc, &mut self.slot, &next) {
            Ok(at) => {
                self.names.push_reserved(path);
                self.meta = Some(next);
                self.base = BaseObject::none();
                self.atime = by.now;
                self.core.push(Entry {
                    by,
                    at,
                    kind: FileKind::Create,
                });
                Ok(())
            }
            Err(DiskError::Failed) => Err(Refusal::DiskFault),
            Err(DiskError::NoMemory) => Err(Refusal::NoMemory),
        }
    }

    /// The file takes the content of an object, of which nothing is here yet.
    pub fn adopt(&mut self, by: By, path: VPath, object: O) -> Result<(), Refusal>
        requires tree { by.tree ≡ true }
        requires file { path ≢ [] }
        requires clean { is_dirty self.old.log.past ≡ false }
        requires closed { opens_of self.old.log.past ≡ 0 }
        requires other { (is_kept self.old.log.past ≡ false)
            ⊎ (holds (held_by self.old.log.past) (O.print_of object) ≡ false) }
        ensures ok { OnOk result
            (Enters by (kinds.Adopt (O.print_of object)) self.old self.new) }
        ensures err { OnErr result (self.new.log.past ≡ self.old.log.past) }
        ensures taken { OnOk result (self.new ≡ record self.old {
          log = self.new.log;
          names = path ∷ self.old.names;
          pairs = (O.print_of object, O.bytes object) ∷ self.old.pairs;
          base = base_with O.print_of O.bytes O.faults O.changes O.asked object;
          here = [];
          pending = false;
          slot = self.new.slot;
        }) }
        ensures same { OnErr result (self.new
            ≡ record self.old { log = self.new.log; slot = self.new.slot }) }
        ensures big { (result ≡ Err Refusal.TooBig) ↔ (2 ^ 40 < (O.print_of object).size) }
        ensures full { (result ≡ Err Refusal.HistoryFull)
            ↔ (((O.print_of object).size ≤ 2 ^ 40) × IsFull self.old 1) }
        ensures causes { IfErr result (IsCause self.old self.new) }
        ensures limit { self.new.log.limit ≡ self.old.log.limit }
        ensures room { self.old.log.spare ≤ self.new.log.spare + 1 }
        ensures calls { OnOk result (self.new.slot.calls ≡ self.old.slot.calls + 1) }
        ensures slot { GoesOn F.tells self.old.slot self.new.slot }
    {
        let print = object.print();
        if print.size > 1 << 40 {
            return Err(Refusal::TooBig);
        }
        if let Err(why) = self.reserve(1) {
            return Err(why);
        }
        let Ok(name) = path.copy(self.alloc) else {
            return Err(Refusal::NoMemory);
        };
        let next = adopted(self.alloc, name, print, by.now);
        let Ok(()) = make_room(&mut self.names, &mut self.given) else {
            return Err(Refusal::NoMemory);
        };
        match save(self.alloc, &mut self.slot, &next) {
            Ok(at) => {
                self.names.push_reserved(path);
                self.given.push_reserved(Snapshot::of(&object));
                self.meta = Some(next);
                self.base = BaseObject::of(object);
                self.atime = by.now;
                let kind = FileKind::Adopt(print);
                self.core.push(Entry { by, at, kind });
                Ok(())
            }
            Err(DiskError::Failed) => Err(Refusal::DiskFault),
            Err(DiskError::NoMemory) => Err(Refusal::NoMemory),
        }
    }
}
