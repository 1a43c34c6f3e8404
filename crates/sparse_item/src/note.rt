ghost use Rattle.std.specs.Prelude.{◌≡◌, ◌⊎◌, ◌<◌, ◌≤◌, ◌+◌, ◌↔◌, ◌++◌, ◌||◌, true, OnOk, OnErr, IfOk, IfErr};
ghost use Rattle.item_core.specs.declared.entry.FileKind.TheVariants as kinds;
ghost use Rattle.item_core.specs.Effects.{is_opened, is_start, places};
ghost use Rattle.item_core.specs.History.{base_end_of, is_dirty, is_kept, opens_by, size_of};
ghost use Rattle.item_core.specs.Legal.{Allows};
ghost use Rattle.item_core.specs.Names.{atime_after};
ghost use Rattle.item_image.specs.Entries.{is_plain};
ghost use Rattle.sparse_item.specs.Answers.{Enters, IsFull, refusal_for, refused};
ghost use Rattle.sparse_item.specs.Item.{IsSupplied};

use crate::ItemBook;
use item_core::{Entry, FileKind};
use vfs_names::{Access, By, Refusal, Verb};
use vfs_outside::{CacheFile, DiskError, Object};

/// When the file was last used, after an entry of this kind.
fn atime_after(kind: &FileKind, now: u64, old: u64) -> u64
    ensures { result ≡ atime_after kind.now now old }
{
    match kind {
        FileKind::Create => now,
        FileKind::Adopt(_) => now,
        FileKind::Opened(_) => now,
        FileKind::Read { .. } => now,
        FileKind::Write { .. } => now,
        FileKind::SetSize(_) => now,
        FileKind::Closed => now,
        FileKind::Recovered { .. } => old,
        FileKind::Bind(_) => old,
        FileKind::Stat => old,
        FileKind::Rename(_) => old,
        FileKind::UploadStart(_) => old,
        FileKind::Uploaded { .. } => old,
        FileKind::UploadDropped { .. } => old,
        FileKind::Evict => old,
        FileKind::Discard => old,
        FileKind::Refused { .. } => old,
    }
}

impl<O: Object, F: CacheFile> ItemBook<O, F> {
    /// Adds an entry that changes nothing of the file, made now; takes no memory.
    pub(crate) fn note(&mut self, by: By, kind: FileKind)
        requires place { places kind ≤ self.old.log.spare }
        requires allowed { Allows self.old.log.past kind by }
        requires plain { is_plain kind ≡ true }
        requires supplied { (is_opened kind || is_start kind) ≡ true → IsSupplied
            self.old.base.state self.old.here (base_end_of self.old.log.past) }
        ensures past { Enters by kind self.old self.new }
        ensures limit { self.new.log.limit ≡ self.old.log.limit }
        ensures room { self.old.log.spare ≤ self.new.log.spare + places kind }
        ensures same { self.new ≡ record self.old { log = self.new.log } }
    {
        self.atime = atime_after(&kind, by.now, self.atime);
        let at = self.slot.calls();
        self.core.push(Entry { by, at, kind });
    }

    /// Says in the history that the disk refused a call. With what the call is refused; want of
    /// memory isn't said.
    pub(crate) fn blame(&mut self, by: By, verb: Verb, why: DiskError) -> Refusal
        requires room { 1 ≤ self.old.log.spare }
        ensures why { result ≡ refusal_for why }
        ensures past { self.new.log.past
            ≡ refused by self.new.slot.calls verb (refusal_for why) ++ self.old.log.past }
        ensures limit { self.new.log.limit ≡ self.old.log.limit }
        ensures same { self.new ≡ record self.old { log = self.new.log } }
    {
        match why {
            DiskError::Failed => {
                self.note(
                    by,
                    FileKind::Refused {
                        verb,
                        why: Refusal::DiskFault,
                    },
                );
                Refusal::DiskFault
            }
            DiskError::NoMemory => Refusal::NoMemory,
        }
    }

    /// Opens the file, for which room was made; takes no memory.
    pub fn open_reserved(&mut self, by: By, access: Access)
        requires room { 2 ≤ self.old.log.spare }
        requires tree { by.tree ≡ true }
        requires kept { is_kept self.old.log.past ≡ true }
        requires supplied { IsSupplied
            self.old.base.state self.old.here (base_end_of self.old.log.past) }
        ensures past { Enters by (kinds.Opened access) self.old self.new }
        ensures limit { self.new.log.limit ≡ self.old.log.limit }
        ensures same { self.new ≡ record self.old { log = self.new.log } }
    {
        self.note(by, FileKind::Opened(access));
    }

    /// Opens the file, and keeps a place for the end of the handle.
    pub fn open_handle(&mut self, by: By, access: Access) -> Result<(), Refusal>
        requires tree { by.tree ≡ true }
        requires kept { is_kept self.old.log.past ≡ true }
        requires supplied { IsSupplied
            self.old.base.state self.old.here (base_end_of self.old.log.past) }
        ensures ok { OnOk result (Enters by (kinds.Opened access) self.old self.new) }
        ensures err { OnErr result (self.new.log.past ≡ self.old.log.past) }
        ensures full { (result ≡ Err Refusal.HistoryFull) ↔ IsFull self.old 2 }
        ensures causes { IfErr result (λ why. (why ≡ Refusal.HistoryFull)
            ⊎ (why ≡ Refusal.NoMemory)) }
        ensures limit { self.new.log.limit ≡ self.old.log.limit }
        ensures same { self.new ≡ record self.old { log = self.new.log } }
    {
        match self.reserve(2) {
            Ok(()) => {
                self.open_reserved(by, access);
                Ok(())
            }
            Err(why) => Err(why),
        }
    }

    /// Closes a handle; true where there still is content that no upload saved. Takes no memory.
    pub fn close_handle(&mut self, by: By) -> bool
        requires tree { by.tree ≡ true }
        requires open { 0 < opens_by by.pass self.old.log.past }
        ensures dirty { result ≡ is_dirty self.old.log.past }
        ensures past { Enters by kinds.Closed self.old self.new }
        ensures limit { self.new.log.limit ≡ self.old.log.limit }
        ensures same { self.new ≡ record self.old { log = self.new.log } }
    {
        let dirty = self.core.dirty();
        self.note(by, FileKind::Closed);
        dirty
    }

    /// The size.
    pub fn stat(&mut self, by: By) -> Result<u64, Refusal>
        requires kept { is_kept self.old.log.past ≡ true }
        ensures size { IfOk result (λ size. size ≡ size_of self.old.log.past) }
        ensures ok { OnOk result (Enters by kinds.Stat self.old self.new) }
        ensures err { OnErr result (self.new.log.past ≡ self.old.log.past) }
        ensures full { (result ≡ Err Refusal.HistoryFull) ↔ IsFull self.old 1 }
        ensures causes { IfErr result (λ why. (why ≡ Refusal.HistoryFull)
            ⊎ (why ≡ Refusal.NoMemory)) }
        ensures limit { self.new.log.limit ≡ self.old.log.limit }
        ensures same { self.new ≡ record self.old { log = self.new.log } }
    {
        match self.reserve(1) {
            Ok(()) => {
                let size = self.core.size();
                self.note(by, FileKind::Stat);
                Ok(size)
            }
            Err(why) => Err(why),
        }
    }
}
