ghost use Rattle.std.specs.Prelude.{◌≡◌, ◌≤◌, ℕ, false, true, None, Some, IfOk, IsSome, OnErr, OnOk, length, string_bytes};
ghost use Rattle.std.specs.List.Sorted.{IsStrictlyIncreasing};
ghost use Rattle.vfs_outside.specs.Disk.{MovesOut, RoseBy, SameOut, SetsOut};
ghost use Rattle.vfs_outside.specs.Slot.{HasFault, IsNew};
ghost use Rattle.cache_folder.specs.Disks.{attached_to, disk_of};
ghost use Rattle.cache_folder.specs.Files.{place_of, slot_of};

use crate::file::FolderFile;
use crate::held::HeldFolder;
use crate::slot_files::SlotFiles;
use crate::trouble::read_error;
use std::alloc::Global;
use std::collections::BTreeSet;
use std::fs::{File, Files};
use vfs_outside::{CacheDisk, DiskError};

/// The cache's disk in a folder, which nobody else holds from `attach` on as long as the disk lives.
#[derive(Drop)]
pub struct FolderDisk<R: Files> {
    alloc: Global,
    files: R,
    held: Option<HeldFolder>,
    // the slots whose files are out
    out: BTreeSet<u32>,
    faults: u64,
}

impl<R: Files<File = File> + Clone + Drop> FolderDisk<R> {
    /// A disk that has no folder yet: each call but `attach` answers Failed. Makes no call on `files`.
    pub fn new(alloc: Global, files: R) -> FolderDisk<R>
        ensures out { (s : ℕ) → (disk_of result).out s ≡ false }
        ensures faults { (disk_of result).faults ≡ 0 }
        ensures folder { attached_to result ≡ None }
    {
        FolderDisk {
            alloc,
            files,
            held: None,
            out: BTreeSet::new(alloc),
            faults: 0,
        }
    }

    /// Whether the slot's file is out.
    pub fn is_out(&self, slot: u32) -> bool
        ensures { result ≡ (disk_of self.now).out slot }
    {
        self.out.contains(&slot)
    }

    /// How many calls failed, on the disk and on the files that were given back.
    pub fn faults(&self) -> u64
        ensures { result ≡ (disk_of self.now).faults }
    {
        self.faults
    }

    /// Counts a fault, and answers it.
    fn refuse<T>(&mut self) -> Result<T, DiskError>
        ensures failed { result ≡ Err DiskError.Failed }
        ensures fault { HasFault self.old.faults self.new.faults result }
        ensures rest { self.new ≡ record self.old { faults = self.new.faults } }
    {
        self.faults = self.faults.saturating_add(1);
        Err(DiskError::Failed)
    }

    /// Holds the folder, where none is held.
    fn hold(&mut self, name: &str) -> Result<(), DiskError>
        ensures ok { OnOk result (attached_to self.new ≡ Some name.now) }
        ensures short { OnOk result (length name.now ≤ 3000) }
        ensures err { OnErr result (self.new ≡ self.old) }
        ensures again { IsSome (attached_to self.old) → result ≡ Err DiskError.Failed }
        ensures rest { self.new ≡ record self.old { held = self.new.held } }
    {
        if self.held.is_some() {
            return Err(DiskError::Failed);
        }
        match HeldFolder::hold(self.alloc, &self.files, name) {
            Ok(held) => {
                self.held = Some(held);
                Ok(())
            }
            Err(error) => Err(read_error(&error)),
        }
    }

    /// The slots that have metadata, rising.
    fn listed(&self) -> Result<Vec<u32>, DiskError>
        ensures rising { IfOk result (λ slots. IsStrictlyIncreasing slots.items) }
        ensures unattached { attached_to self.now ≡ None → result ≡ Err DiskError.Failed }
    {
        let Some(held) = &self.held else {
            return Err(DiskError::Failed);
        };
        match held.slots(self.alloc, &self.files) {
            Ok(slots) => Ok(slots),
            Err(error) => Err(read_error(&error)),
        }
    }

    /// The files of a slot.
    fn files_of(&self, slot: u32) -> Result<SlotFiles<R>, DiskError>
        ensures slot { IfOk result (λ files. files.slot ≡ slot) }
        ensures folder { IfOk result (λ files. attached_to self.now ≡ Some (string_bytes files.folder)) }
        ensures unattached { attached_to self.now ≡ None → result ≡ Err DiskError.Failed }
    {
        let Some(held) = &self.held else {
            return Err(DiskError::Failed);
        };
        let Ok(folder) = String::from_str(self.alloc, held.name()) else {
            return Err(DiskError::NoMemory);
        };
        match self.files.clone() {
            Ok(files) => Ok(SlotFiles {
                alloc: self.alloc,
                files,
                folder,
                slot,
            }),
            Err(_) => Err(DiskError::NoMemory),
        }
    }
}

impl<R: Files<File = File> + Clone + Drop> CacheDisk for FolderDisk<R> {
    type File = FolderFile<R>;

    ghost tells = { ⊥ };

    ghost disk = { disk_of };

    ghost told_files = { λ t. t };

    ghost told_by_files = { λ t. t };

    /// Makes the folder where it isn't there, with those above it, and takes its lock. Fails where another disk, of this
    /// process or of another, holds the folder, where this disk holds one already, and where the folder's name is longer
    /// than 3,000 bytes, so that no file's name passes what the system takes.
    fn attach(&mut self, name: &str) -> Result<(), DiskError>
        ensures fault { HasFault (disk_of self.old).faults (disk_of self.new).faults result }
        ensures out { SameOut (disk_of self.old) (disk_of self.new) }
        ensures folder { OnOk result (attached_to self.new ≡ Some name.now) }
        ensures short { OnOk result (length name.now ≤ 3000) }
        ensures kept { OnErr result (attached_to self.new ≡ attached_to self.old) }
        ensures again { IsSome (attached_to self.old) → result ≡ Err DiskError.Failed }
    {
        match self.hold(name) {
            Ok(()) => Ok(()),
            Err(DiskError::Failed) => self.refuse(),
            Err(DiskError::NoMemory) => Err(DiskError::NoMemory),
        }
    }

    fn slots(&mut self) -> Result<Vec<u32>, DiskError>
        ensures fault { HasFault (disk_of self.old).faults (disk_of self.new).faults result }
        ensures out { SameOut (disk_of self.old) (disk_of self.new) }
        ensures rising { IfOk result (λ slots. IsStrictlyIncreasing slots.items) }
        ensures unattached { attached_to self.old ≡ None → result ≡ Err DiskError.Failed }
        ensures folder { attached_to self.new ≡ attached_to self.old }
    {
        match self.listed() {
            Ok(slots) => Ok(slots),
            Err(DiskError::Failed) => self.refuse(),
            Err(DiskError::NoMemory) => Err(DiskError::NoMemory),
        }
    }

    /// Opens nothing, and makes no call on the file system.
    fn take(&mut self, slot: u32) -> Result<FolderFile<R>, DiskError>
        requires here { (disk_of self.old).out slot ≡ false }
        ensures fault { HasFault (disk_of self.old).faults (disk_of self.new).faults result }
        ensures out { MovesOut slot (disk_of self.old) (disk_of self.new) result }
        ensures counts { IfOk result (λ file. IsNew (slot_of file)) }
        ensures slot { IfOk result (λ file. (place_of file).1 ≡ slot) }
        ensures place { IfOk result (λ file. attached_to self.old ≡ Some (place_of file).0) }
        ensures unattached { attached_to self.old ≡ None → result ≡ Err DiskError.Failed }
        ensures folder { attached_to self.new ≡ attached_to self.old }
    {
        match self.files_of(slot) {
            Ok(files) => match self.out.insert(slot) {
                Ok(_) => Ok(FolderFile::new(files)),
                Err(_) => Err(DiskError::NoMemory),
            },
            Err(DiskError::Failed) => self.refuse(),
            Err(DiskError::NoMemory) => Err(DiskError::NoMemory),
        }
    }

    fn give_back(&mut self, slot: u32, file: FolderFile<R>)
        requires out { (disk_of self.old).out slot ≡ true }
        ensures faults { RoseBy (slot_of file).faults (disk_of self.old).faults (disk_of self.new).faults }
        ensures out { SetsOut slot false (disk_of self.old) (disk_of self.new) }
        ensures folder { attached_to self.new ≡ attached_to self.old }
    {
        self.faults = self.faults.saturating_add(file.faults());
        self.out.remove(&slot);
    }
}
