ghost use Rattle.std.specs.Prelude.{◌≡◌, true, false, IfOk};
ghost use Rattle.std.specs.List.Sorted.{IsStrictlyIncreasing};
ghost use Rattle.vfs_outside.specs.Disk.{Disk, HasSlots, MovesOut, RoseBy, SameOut, SameShelves, SetsOut, Takes, TakesBack};
ghost use Rattle.vfs_outside.specs.Slot.{HasFault, IsNew};

use crate::{CacheFile, DiskError};

/// The disk that keeps the cache. Nobody else writes what it keeps.
pub trait CacheDisk: Drop {
    type File: CacheFile;

    // where it holds, `disk` has what stands in each slot
    ghost tells: { Type 0 };

    ghost disk: { Self → Disk };

    /// The disk of this name is ready.
    fn attach(&mut self, name: &str) -> Result<(), DiskError>
        ensures fault { HasFault (disk self.old).faults (disk self.new).faults result }
        ensures out { SameOut (disk self.old) (disk self.new) }
        ensures told { tells → SameShelves (disk self.old) (disk self.new) };

    /// The slots that have metadata, rising. One whose file is out may be left out.
    fn slots(&mut self) -> Result<Vec<u32>, DiskError>
        ensures fault { HasFault (disk self.old).faults (disk self.new).faults result }
        ensures out { SameOut (disk self.old) (disk self.new) }
        ensures told { tells → SameShelves (disk self.old) (disk self.new) }
        ensures rising { IfOk result (λ slots. IsStrictlyIncreasing slots.items) }
        ensures all { IfOk result (λ slots. tells → HasSlots (disk self.old) slots.items) };

    /// Hands a slot's file out.
    fn take(&mut self, slot: u32) -> Result<Self::File, DiskError>
        requires here { (disk self.old).out slot ≡ false }
        ensures fault { HasFault (disk self.old).faults (disk self.new).faults result }
        ensures out { MovesOut slot (disk self.old) (disk self.new) result }
        ensures counts { IfOk result (λ file. IsNew (Self.File.slot file)) }
        ensures told { tells → Takes (λ file. (Self.File.slot file).told) slot
            (disk self.old) (disk self.new) result };

    /// Takes a slot's file back.
    fn give_back(&mut self, slot: u32, file: Self::File)
        requires out { (disk self.old).out slot ≡ true }
        ensures faults { RoseBy (Self.File.slot file).faults
            (disk self.old).faults (disk self.new).faults }
        ensures out { SetsOut slot false (disk self.old) (disk self.new) }
        ensures told { tells →
            TakesBack slot (Self.File.slot file).told (disk self.old) (disk self.new) };

    // a disk tells exactly where its files do
    ghost told_files: { tells → Self.File.tells };

    ghost told_by_files: { Self.File.tells → tells };
}
