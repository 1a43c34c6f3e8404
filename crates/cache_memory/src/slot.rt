ghost use Rattle.std.specs.Prelude.{◌≡◌, ◌<◌, ◌++◌, ◌∷◌, [], true, false, IfOk, OnOk, OnErr, vec_len, vec_capacity, is_some};
ghost use Rattle.vfs_outside.specs.Image.{meta_in};
ghost use Rattle.vfs_outside.specs.Slot.{IsNew, handed_out, image, image_after};
ghost use Rattle.cache_memory.specs.Files.{planned_of, slot_of};
ghost use Rattle.vfs_outside.specs.declared.file_call.FileCall.TheVariants.{Saved};
ghost use Rattle.cache_memory.specs.declared.file.MemoryFile.{MemoryFile};

use crate::file::MemoryFile;
use crate::held::Held;
use std::alloc::Global;
use std::mem;
use std::snapshot::Snapshot;
use vfs_names::{Blob, NoMemory};

/// What a disk has of a slot. While the slot's file is out, what is held is nothing.
#[derive(Drop)]
pub struct MemorySlot {
    pub(crate) held: Held,
    pub(crate) out: bool,
    // what was held each time that a file was given back
    pub(crate) records: Vec<Snapshot<Held>>,
    // the numbers of its files' calls that are to fail
    pub(crate) fails: Vec<u64>,
    ghost room: { out ≡ true → vec_len records < vec_capacity records },
}

impl MemorySlot {
    ghost use Rattle.cache_memory.specs.Slots.{blank, kept_of};

    /// Nothing was done.
    pub fn new(alloc: Global) -> MemorySlot
        ensures { kept_of result ≡ record { out = false; shelf = blank; fails = [] } }
    {
        MemorySlot {
            held: Held::new(alloc),
            out: false,
            records: Vec::new(alloc),
            fails: Vec::new(alloc),
        }
    }

    /// Whether there is metadata.
    pub fn has_meta(&self) -> bool
        ensures { result ≡ is_some (meta_in (image (kept_of self.now).shelf.now)) }
    {
        self.held.meta().is_some()
    }

    /// Hands the slot's file out.
    pub fn take(&mut self, alloc: Global) -> Result<MemoryFile, NoMemory>
        ensures out { OnOk result ((kept_of self.new).out ≡ true) }
        ensures records { (kept_of self.new).shelf.records ≡ (kept_of self.old).shelf.records }
        ensures fails { (kept_of self.new).fails ≡ (kept_of self.old).fails }
        ensures counts { IfOk result (λ file. IsNew (slot_of file)) }
        ensures told { IfOk result (λ file.
            (slot_of file).told ≡ handed_out (image (kept_of self.old).shelf.now)) }
        ensures plan { IfOk result (λ file. planned_of file ≡ (kept_of self.old).fails) }
        ensures err { OnErr result (kept_of self.new ≡ kept_of self.old) }
    {
        let Ok(fails) = self.fails.as_slice().to_vec(alloc) else {
            return Err(NoMemory);
        };
        let Ok(()) = self.records.reserve(1) else {
            return Err(NoMemory);
        };
        let Ok(()) = self.held.hand_out() else {
            return Err(NoMemory);
        };
        self.out = true;
        let held = mem::replace(&mut self.held, Held::new(alloc));
        Ok(MemoryFile {
            alloc,
            held,
            fails,
            faults: 0,
        })
    }

    /// Takes the slot's file back.
    pub fn give_back(&mut self, file: MemoryFile)
        requires { (kept_of self.old).out ≡ true }
        ensures { kept_of self.new ≡ record {
          out = false;
          shelf = record {
            now = (slot_of file).told;
            records = (slot_of file).told ∷ (kept_of self.old).shelf.records;
          };
          fails = (kept_of self.old).fails;
        } }
    {
        self.records.push_reserved(Snapshot::of(&file.held));
        self.held = file.held;
        self.out = false;
    }

    /// What there was after the first `count` calls on the slot's file since it was last handed
    /// out, with no plan.
    pub fn after(&self, alloc: Global, count: usize) -> Result<MemorySlot, NoMemory>
        ensures { IfOk result (λ slot. kept_of slot ≡ record {
          out = false;
          shelf = record {
            now = handed_out (image_after (kept_of self.now).shelf.now count);
            records = [];
          };
          fails = [];
        }) }
    {
        match self.held.after(alloc, count) {
            Ok(held) => Ok(MemorySlot {
                held,
                out: false,
                records: Vec::new(alloc),
                fails: Vec::new(alloc),
            }),
            Err(why) => Err(why),
        }
    }

    /// The call of this number on each file that is handed out from now on is to fail.
    pub fn fail(&mut self, nth: u64) -> Result<(), NoMemory>
        ensures ok { OnOk result (kept_of self.new ≡ record (kept_of self.old) {
          fails = (kept_of self.old).fails ++ nth ∷ [];
        }) }
        ensures err { OnErr result (kept_of self.new ≡ kept_of self.old) }
    {
        match self.fails.push(nth) {
            Ok(()) => Ok(()),
            Err(_) => Err(NoMemory),
        }
    }

    /// The metadata has this text.
    pub fn set_meta(&mut self, text: Blob) -> Result<(), NoMemory>
        ensures ok { OnOk result (kept_of self.new ≡ record (kept_of self.old) {
          shelf = record (kept_of self.old).shelf {
            now = handed_out (Saved text ∷ image (kept_of self.old).shelf.now);
          };
        }) }
        ensures err { OnErr result (kept_of self.new ≡ kept_of self.old) }
    {
        match self.held.set_meta(text) {
            Ok(()) => Ok(()),
            Err(why) => Err(why),
        }
    }
}
