ghost use Rattle.std.specs.Prelude.{◌≡◌, ◌≤◌, ◌+◌, ◌^◌, false, length, OnOk};
ghost use Rattle.vfs_outside.specs.Slot.{HasFault, IsNew, Reads, image};
ghost use Rattle.vfs_outside.specs.declared.file_call.FileCall.TheVariants.{Quiet, Saved, Cleared};
ghost use Rattle.item_image.specs.Calls.{Does, DoesWrite};
ghost use Rattle.sparse_item.specs.Moves.{GoesOn};

use std::marker::Model;
use vfs_outside::{CacheFile, DiskError};

/// A slot's file, and how many calls were made on it since it was handed out. Contracts see what it
/// tells.
#[derive(Drop)]
pub struct SlotFile<F: CacheFile> {
    file: F,
    calls: u64,
}

impl<F: CacheFile> Model for SlotFile<F> {
    ghost use Rattle.std.specs.Prelude.{◌≡◌};
    ghost use Rattle.vfs_outside.specs.Slot.{Slot};

    ghost Value = { Slot };

    ghost view = { λ s. F.slot s.file };

    ghost invariant = { λ s. s.calls ≡ (F.slot s.file).calls };
}

impl<F: CacheFile> SlotFile<F> {
    /// A file that was just handed out; takes no memory.
    pub fn new(file: F) -> SlotFile<F>
        requires { IsNew (F.slot file) }
        ensures { result ≡ F.slot file }
    {
        SlotFile { file, calls: 0 }
    }

    /// How many calls were made.
    pub fn calls(&self) -> u64
        ensures { result ≡ self.now.calls }
    {
        self.calls
    }

    /// The metadata is this text; a failure leaves the old metadata.
    pub fn save(&mut self, text: &[u8]) -> Result<(), DiskError>
        ensures call { Does F.tells (Saved text.now) self.old self.new result }
        ensures fault { HasFault self.old.faults self.new.faults result }
        ensures goes { GoesOn F.tells self.old self.new }
    {
        match self.file.save_meta(text) {
            Ok(()) => {
                self.calls += 1;
                Ok(())
            }
            Err(DiskError::Failed) => {
                self.calls += 1;
                Err(DiskError::Failed)
            }
            Err(DiskError::NoMemory) => Err(DiskError::NoMemory),
        }
    }

    /// There is no metadata and no data; a failure leaves all as it was.
    pub fn clear(&mut self) -> Result<(), DiskError>
        ensures call { Does F.tells (Cleared false) self.old self.new result }
        ensures fault { HasFault self.old.faults self.new.faults result }
        ensures goes { GoesOn F.tells self.old self.new }
    {
        match self.file.clear(false) {
            Ok(()) => {
                self.calls += 1;
                Ok(())
            }
            Err(DiskError::Failed) => {
                self.calls += 1;
                Err(DiskError::Failed)
            }
            Err(DiskError::NoMemory) => Err(DiskError::NoMemory),
        }
    }

    /// The bytes from `pos` on, as many as fit. Those that nobody wrote may be any.
    pub fn read_at(&mut self, pos: u64, into: &mut [u8]) -> Result<(), DiskError>
        requires end { pos + length into.old ≤ 2 ^ 40 }
        ensures call { Does F.tells Quiet self.old self.new result }
        ensures bytes { OnOk result (F.tells → Reads (image self.old.told) pos into.new) }
        ensures fault { HasFault self.old.faults self.new.faults result }
        ensures goes { GoesOn F.tells self.old self.new }
    {
        match self.file.read_at(pos, into) {
            Ok(()) => {
                self.calls += 1;
                Ok(())
            }
            Err(DiskError::Failed) => {
                self.calls += 1;
                Err(DiskError::Failed)
            }
            Err(DiskError::NoMemory) => Err(DiskError::NoMemory),
        }
    }

    /// These bytes stand from `pos` on; a failure leaves any bytes in their range.
    pub fn write_at(&mut self, pos: u64, bytes: &[u8]) -> Result<(), DiskError>
        requires end { pos + length bytes.now ≤ 2 ^ 40 }
        ensures call { DoesWrite F.tells pos bytes.now self.old self.new result }
        ensures fault { HasFault self.old.faults self.new.faults result }
        ensures goes { GoesOn F.tells self.old self.new }
    {
        match self.file.write_at(pos, bytes) {
            Ok(()) => {
                self.calls += 1;
                Ok(())
            }
            Err(DiskError::Failed) => {
                self.calls += 1;
                Err(DiskError::Failed)
            }
            Err(DiskError::NoMemory) => Err(DiskError::NoMemory),
        }
    }

    /// The file, handed over; takes no memory.
    pub fn into_file(self) -> F
        ensures { F.slot result ≡ self }
    {
        self.file
    }
}
