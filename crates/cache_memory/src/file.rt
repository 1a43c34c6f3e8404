ghost use Rattle.std.specs.Prelude.{◌≡◌, ◌+◌, ◌^◌, ◌≤◌, ◌↔◌, false, refl, IsTrue, Contains, length, IfOk, OnOk};
ghost use Rattle.vfs_outside.specs.Image.{meta_in};
ghost use Rattle.vfs_outside.specs.Slot.{IsCall, Makes, Reads, Writes, image};
ghost use Rattle.vfs_outside.specs.declared.file_call.FileCall.TheVariants.{Quiet, Saved, Cleared};
ghost use Rattle.cache_memory.specs.Files.{Leaves, planned_of, slot_of};
ghost use Rattle.cache_memory.specs.Script.{AsPlanned};
ghost use Rattle.cache_memory.specs.Stored.{end_of};

use crate::held::Held;
use std::alloc::Global;
use vfs_names::{Blob, NoMemory};
use vfs_outside::{CacheFile, DiskError, FileCall};

/// A slot's file in memory. Its calls count from 1 since it was handed out.
#[derive(Drop)]
pub struct MemoryFile {
    pub(crate) alloc: Global,
    pub(crate) held: Held,
    // the numbers of the calls that are to fail
    pub(crate) fails: Vec<u64>,
    pub(crate) faults: u64,
}

/// What a write that fails leaves: the first half of its bytes, and then zeros.
fn torn(alloc: Global, bytes: &[u8]) -> Result<Blob, NoMemory>
    ensures { IfOk result (λ left. length left ≡ length bytes.now) }
{
    let Ok(mut left) = Vec::from_slice(alloc, &bytes[..bytes.len() / 2]) else {
        return Err(NoMemory);
    };
    match left.resize(bytes.len(), 0) {
        Ok(()) => Ok(Blob::from_vec(left)),
        Err(_) => Err(NoMemory),
    }
}

/// What a write leaves.
fn left_by(alloc: Global, bytes: &[u8], fails: bool) -> Result<Blob, NoMemory>
    ensures length { IfOk result (λ left. length left ≡ length bytes.now) }
    ensures whole { IfOk result (λ left. fails ≡ false → left ≡ bytes.now) }
{
    if fails {
        torn(alloc, bytes)
    } else {
        Blob::from_slice(alloc, bytes)
    }
}

impl MemoryFile {
    /// Whether the next call is to fail.
    fn next_fails(&self) -> bool
        ensures { IsTrue result ↔ Contains (planned_of self.now) ((slot_of self.now).calls + 1) }
    {
        let nth = self.held.calls() + 1;
        self.fails.contains(&nth)
    }

    /// One more call, which fails or doesn't, and leaves this.
    fn make(&mut self, fails: bool, left: FileCall) -> Result<(), DiskError>
        requires { end_of left ≤ 2 ^ 40 }
        ensures call { IsCall (slot_of self.old) (slot_of self.new) result }
        ensures told { Leaves fails left (slot_of self.old).told (slot_of self.new).told result }
        ensures plan { planned_of self.new ≡ planned_of self.old }
    {
        let Ok(()) = self.held.add(self.alloc, left) else {
            return Err(DiskError::NoMemory);
        };
        if fails {
            self.faults = self.faults.saturating_add(1);
            return Err(DiskError::Failed);
        }
        Ok(())
    }
}

impl CacheFile for MemoryFile {
    ghost tells = { Unit {0} };

    ghost slot = { slot_of };

    ghost counted = { λ t file. refl };

    fn read_meta(&mut self) -> Result<Option<Blob>, DiskError>
        ensures call { IsCall (slot_of self.old) (slot_of self.new) result }
        ensures told { Makes Quiet (slot_of self.old).told (slot_of self.new).told result }
        ensures text { IfOk result (λ text. text ≡ meta_in (image (slot_of self.old).told)) }
        ensures planned { AsPlanned (planned_of self.old) ((slot_of self.old).calls + 1) result }
        ensures plan { planned_of self.new ≡ planned_of self.old }
    {
        let fails = self.next_fails();
        let text = match self.held.meta() {
            Some(text) => match Blob::from_slice(self.alloc, text) {
                Ok(text) => Some(text),
                Err(_) => return Err(DiskError::NoMemory),
            },
            None => None,
        };
        match self.make(fails, FileCall::Quiet) {
            Ok(()) => Ok(text),
            Err(DiskError::Failed) => Err(DiskError::Failed),
            Err(DiskError::NoMemory) => Err(DiskError::NoMemory),
        }
    }

    fn save_meta(&mut self, text: &[u8]) -> Result<(), DiskError>
        ensures call { IsCall (slot_of self.old) (slot_of self.new) result }
        ensures told { let call = Saved text.now in
            Makes call (slot_of self.old).told (slot_of self.new).told result }
        ensures planned { AsPlanned (planned_of self.old) ((slot_of self.old).calls + 1) result }
        ensures plan { planned_of self.new ≡ planned_of self.old }
    {
        if self.next_fails() {
            return self.make(true, FileCall::Quiet);
        }
        let Ok(text) = Blob::from_slice(self.alloc, text) else {
            return Err(DiskError::NoMemory);
        };
        self.make(false, FileCall::Saved(text))
    }

    fn read_at(&mut self, pos: u64, into: &mut [u8]) -> Result<(), DiskError>
        requires end { pos + length into.old ≤ 2 ^ 40 }
        ensures call { IsCall (slot_of self.old) (slot_of self.new) result }
        ensures told { Makes Quiet (slot_of self.old).told (slot_of self.new).told result }
        ensures bytes { OnOk result (Reads (image (slot_of self.old).told) pos into.new) }
        ensures planned { AsPlanned (planned_of self.old) ((slot_of self.old).calls + 1) result }
        ensures plan { planned_of self.new ≡ planned_of self.old }
    {
        let fails = self.next_fails();
        let Ok(()) = self.held.read(self.alloc, pos, into) else {
            return Err(DiskError::NoMemory);
        };
        self.make(fails, FileCall::Quiet)
    }

    fn write_at(&mut self, pos: u64, bytes: &[u8]) -> Result<(), DiskError>
        requires end { pos + length bytes.now ≤ 2 ^ 40 }
        ensures call { IsCall (slot_of self.old) (slot_of self.new) result }
        ensures told { Writes pos bytes.now (slot_of self.old).told (slot_of self.new).told result }
        ensures planned { AsPlanned (planned_of self.old) ((slot_of self.old).calls + 1) result }
        ensures plan { planned_of self.new ≡ planned_of self.old }
    {
        let fails = self.next_fails();
        let Ok(bytes) = left_by(self.alloc, bytes, fails) else {
            return Err(DiskError::NoMemory);
        };
        self.make(fails, FileCall::Wrote { pos, bytes })
    }

    fn clear(&mut self, keep: bool) -> Result<(), DiskError>
        ensures call { IsCall (slot_of self.old) (slot_of self.new) result }
        ensures told { Makes (Cleared keep) (slot_of self.old).told (slot_of self.new).told result }
        ensures planned { AsPlanned (planned_of self.old) ((slot_of self.old).calls + 1) result }
        ensures plan { planned_of self.new ≡ planned_of self.old }
    {
        if self.next_fails() {
            self.make(true, FileCall::Quiet)
        } else {
            self.make(false, FileCall::Cleared { keep })
        }
    }
}
