ghost use Rattle.std.specs.Prelude.{◌≡◌, ◌≤◌, ◌+◌, ◌^◌, length, string_bytes};
ghost use Rattle.vfs_outside.specs.Slot.{IsCall, IsNew};
ghost use Rattle.cache_folder.specs.Files.{place_of, slot_of};

use crate::counts::Counts;
use crate::slot_files::SlotFiles;
use std::fs::Files;
use std::os::unix::fs::FileExt;
use vfs_names::Blob;
use vfs_outside::{CacheFile, DiskError};

/// A slot's file of the cache, in a folder. After 2^63 - 1 calls each further one answers want of memory.
#[derive(Drop)]
pub struct FolderFile<R: Files> {
    files: SlotFiles<R>,
    counts: Counts,
}

impl<R: Files> FolderFile<R> {
    pub(crate) fn new(files: SlotFiles<R>) -> FolderFile<R>
        ensures new { IsNew (slot_of result) }
        ensures place { place_of result ≡ (string_bytes files.folder, files.slot) }
    {
        FolderFile {
            files,
            counts: Counts::new(),
        }
    }

    /// How many calls failed since the file was handed out.
    pub fn faults(&self) -> u64
        ensures { result ≡ (slot_of self.now).faults }
    {
        self.counts.faults()
    }
}

impl<R: Files + Drop> CacheFile for FolderFile<R>
where
    R::File: FileExt,
{
    ghost tells = { ⊥ };

    ghost slot = { slot_of };

    ghost counted = { λ t file. absurd t };

    fn read_meta(&mut self) -> Result<Option<Blob>, DiskError>
        ensures call { IsCall (slot_of self.old) (slot_of self.new) result }
        ensures place { place_of self.new ≡ place_of self.old }
    {
        if self.counts.is_full() {
            return Err(DiskError::NoMemory);
        }
        let outcome = self.files.read_meta();
        self.counts.count(outcome)
    }

    fn save_meta(&mut self, text: &[u8]) -> Result<(), DiskError>
        ensures call { IsCall (slot_of self.old) (slot_of self.new) result }
        ensures place { place_of self.new ≡ place_of self.old }
    {
        if self.counts.is_full() {
            return Err(DiskError::NoMemory);
        }
        let outcome = self.files.save_meta(text);
        self.counts.count(outcome)
    }

    fn read_at(&mut self, pos: u64, into: &mut [u8]) -> Result<(), DiskError>
        requires end { pos + length into.old ≤ 2 ^ 40 }
        ensures call { IsCall (slot_of self.old) (slot_of self.new) result }
        ensures place { place_of self.new ≡ place_of self.old }
    {
        if self.counts.is_full() {
            return Err(DiskError::NoMemory);
        }
        let outcome = self.files.read_at(pos, into);
        self.counts.count(outcome)
    }

    fn write_at(&mut self, pos: u64, bytes: &[u8]) -> Result<(), DiskError>
        requires end { pos + length bytes.now ≤ 2 ^ 40 }
        ensures call { IsCall (slot_of self.old) (slot_of self.new) result }
        ensures place { place_of self.new ≡ place_of self.old }
    {
        if self.counts.is_full() {
            return Err(DiskError::NoMemory);
        }
        let outcome = self.files.write_at(pos, bytes);
        self.counts.count(outcome)
    }

    fn clear(&mut self, keep: bool) -> Result<(), DiskError>
        ensures call { IsCall (slot_of self.old) (slot_of self.new) result }
        ensures place { place_of self.new ≡ place_of self.old }
    {
        if self.counts.is_full() {
            return Err(DiskError::NoMemory);
        }
        let outcome = self.files.clear(keep);
        self.counts.count(outcome)
    }
}
