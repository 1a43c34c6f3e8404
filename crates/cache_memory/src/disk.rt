ghost use Rattle.std.specs.Prelude.{◌≡◌, [], ℕ, true, false, ◌==◌, if◌then◌else◌, IfOk, OnOk, OnErr, IsSome, length, find};
ghost use Rattle.std.specs.BTreeMap.{IsOrdered, get};
ghost use Rattle.std.specs.Option.{option_copied};
ghost use Rattle.std.specs.Ordering.{nat_cmp};
ghost use Rattle.std.specs.List.Sorted.{IsStrictlyIncreasing};
ghost use Rattle.vfs_outside.specs.Disk.{HandsOut, HasSlots, MovesOut, RoseBy, SameOut, SameShelves, SetsOut, Takes, TakesBack};
ghost use Rattle.vfs_outside.specs.Slot.{HasFault, IsNew};
ghost use Rattle.cache_memory.specs.Disks.{SameDisk, SameSlots, SetsMeta, count_in, cut_kept, cut_shelf, disk_of, plans_of};
ghost use Rattle.cache_memory.specs.Files.{planned_of, slot_of};
ghost use Rattle.cache_memory.specs.Script.{Goes, PlansCall, PlansFile, SamePlans};
ghost use Rattle.cache_memory.specs.Slots.{blank, kept_at, kept_of, slots_with_meta};
ghost use Rattle.cache_memory.specs.declared.file.MemoryFile.{MemoryFile};
ghost use Rattle.cache_memory.specs.declared.script.DiskCall.{DiskCall};
ghost use Rattle.cache_memory.specs.declared.script.DiskCall.TheVariants.{Attach, Slots, Take};

use crate::file::MemoryFile;
use crate::plan::Plan;
use crate::script::{DiskCall, DiskFault};
use crate::slot::MemorySlot;
use std::alloc::Global;
use std::collections::BTreeMap;
use vfs_names::{Blob, NoMemory};
use vfs_outside::{CacheDisk, DiskError};

/// A cache disk in memory that does what a test plans. Calls count from 1.
#[derive(Drop)]
pub struct MemoryDisk {
    alloc: Global,
    pub(crate) slots: BTreeMap<u32, MemorySlot>,
    pub(crate) plan: Plan,
    pub(crate) faults: u64,
}

/// The first cut of a slot.
fn cut_of(cuts: &[(u32, u64)], slot: u32) -> Option<&(u32, u64)>
    ensures { option_copied result ≡ find (λ cut. cut.0 == slot) cuts.now }
{
    cuts.iter().find(|cut| cut.0 == slot)
}

/// How many of a slot's calls the first of its cuts leaves, or else all.
fn count_in(cuts: &[(u32, u64)], slot: u32, all: u64) -> u64
    ensures { result ≡ count_in (find (λ cut. cut.0 == slot) cuts.now) all }
{
    match cut_of(cuts, slot) {
        Some(cut) => cut.1,
        None => all,
    }
}

impl MemoryDisk {
    /// A disk on which nothing was done.
    pub fn new(alloc: Global) -> MemoryDisk
        ensures out { (s : ℕ) → (disk_of result).out s ≡ false }
        ensures shelves { (s : ℕ) → (disk_of result).shelf s ≡ blank }
        ensures faults { (disk_of result).faults ≡ 0 }
        ensures calls { (plans_of result).calls ≡ [] }
        ensures files { (s : ℕ) → (plans_of result).files s ≡ [] }
        ensures made { (call : DiskCall) → (plans_of result).made call ≡ 0 }
    {
        MemoryDisk {
            alloc,
            slots: BTreeMap::new(alloc),
            plan: Plan::new(alloc),
            faults: 0,
        }
    }

    /// There is a place for the slot.
    fn make_place(&mut self, slot: u32) -> Result<(), NoMemory>
        ensures same { SameSlots self.old self.new }
        ensures rest { self.new ≡ record self.old { slots = self.new.slots } }
        ensures there { OnOk result (IsSome (get nat_cmp self.new.slots slot)) }
    {
        if self.slots.contains_key(&slot) {
            return Ok(());
        }
        match self.slots.insert(slot, MemorySlot::new(self.alloc)) {
            Ok(_) => Ok(()),
            Err(_) => Err(NoMemory),
        }
    }

    /// The call of this number on each file of the slot that is handed out from now on is to fail.
    pub fn fail(&mut self, slot: u32, nth: u64) -> Result<(), NoMemory>
        ensures ok { OnOk result (PlansFile slot nth (plans_of self.old) (plans_of self.new)) }
        ensures err { OnErr result (SamePlans (plans_of self.old) (plans_of self.new)) }
        ensures same { SameDisk (disk_of self.old) (disk_of self.new) }
    {
        match self.make_place(slot) {
            Ok(()) => {}
            Err(why) => return Err(why),
        }
        match self.slots.get_mut(&slot) {
            Some(place) => place.fail(nth),
            None => unreachable!(),
        }
    }

    /// The disk's call of this kind and number is to fail.
    pub fn fail_disk(&mut self, call: DiskCall, nth: u64) -> Result<(), NoMemory>
        ensures ok { OnOk result (PlansCall call nth (plans_of self.old) (plans_of self.new)) }
        ensures err { OnErr result (SamePlans (plans_of self.old) (plans_of self.new)) }
        ensures same { SameDisk (disk_of self.old) (disk_of self.new) }
    {
        match self.plan.faults.push(DiskFault { call, nth }) {
            Ok(()) => Ok(()),
            Err(_) => Err(NoMemory),
        }
    }

    /// Whether the slot's file is out.
    pub fn is_out(&self, slot: u32) -> bool
        ensures { result ≡ (disk_of self.now).out slot }
    {
        match self.slots.get(&slot) {
            Some(place) => place.out,
            None => false,
        }
    }

    /// How many calls there were on the slot's file since it was last handed out; 0 while it is
    /// out.
    pub fn calls(&self, slot: u32) -> u64
        ensures { result ≡ length ((disk_of self.now).shelf slot).now.since }
    {
        match self.slots.get(&slot) {
            Some(place) => place.held.calls(),
            None => 0,
        }
    }

    /// The slot's metadata has this text. The calls on its file count from 0 again.
    pub fn set_meta(&mut self, slot: u32, text: Vec<u8>) -> Result<(), NoMemory>
        ensures ok { OnOk result (SetsMeta slot text.items (disk_of self.old) (disk_of self.new)) }
        ensures err { OnErr result (SameDisk (disk_of self.old) (disk_of self.new)) }
        ensures plans { SamePlans (plans_of self.old) (plans_of self.new) }
    {
        match self.make_place(slot) {
            Ok(()) => {}
            Err(why) => return Err(why),
        }
        match self.slots.get_mut(&slot) {
            Some(place) => place.set_meta(Blob::from_vec(text)),
            None => unreachable!(),
        }
    }

    /// The disk as it was between two calls: each slot that is named as after that many calls on
    /// its file since it was last handed out, by the first cut that names it, and each other slot
    /// as now. Every slot's file is here, and nothing is planned. Of a slot whose file is out now
    /// the image has nothing. Costs as much as all calls on all slots did.
    pub fn image(&self, cuts: &[(u32, u64)]) -> Result<MemoryDisk, NoMemory>
        ensures out { IfOk result (λ disk. (s : ℕ) → (disk_of disk).out s ≡ false) }
        ensures shelves { IfOk result (λ disk. (s : ℕ) →
            (disk_of disk).shelf s ≡ cut_shelf cuts.now (disk_of self.now) s) }
        ensures faults { IfOk result (λ disk. (disk_of disk).faults ≡ 0) }
        ensures calls { IfOk result (λ disk. (plans_of disk).calls ≡ []) }
        ensures files { IfOk result (λ disk. (s : ℕ) → (plans_of disk).files s ≡ []) }
        ensures made { IfOk result (λ disk. (call : DiskCall) → (plans_of disk).made call ≡ 0) }
    {
        let mut slots = BTreeMap::new(self.alloc);
        for slot in self.slots.keys() {
            match self.put_cut(cuts, *slot, &mut slots) {
                Ok(()) => {}
                Err(why) => return Err(why),
            }
        }
        Ok(MemoryDisk {
            alloc: self.alloc,
            slots,
            plan: Plan::new(self.alloc),
            faults: 0,
        })
    }

    /// The slot as its cut leaves it.
    fn cut_place(&self, cuts: &[(u32, u64)], slot: u32) -> Result<MemorySlot, NoMemory>
        ensures { IfOk result (λ place. kept_of place ≡ cut_kept cuts.now (disk_of self.now) slot) }
    {
        let Some(place) = self.slots.get(&slot) else {
            return Ok(MemorySlot::new(self.alloc));
        };
        let count = count_in(cuts, slot, place.held.calls());
        place.after(self.alloc, count as usize)
    }

    /// Puts the slot as its cut leaves it among others.
    fn put_cut(
        &self,
        cuts: &[(u32, u64)],
        slot: u32,
        slots: &mut BTreeMap<u32, MemorySlot>,
    ) -> Result<(), NoMemory>
        ensures { OnOk result ((s : ℕ) → kept_at slots.new s ≡
            (if s == slot then cut_kept cuts.now (disk_of self.now) s else kept_at slots.old s)) }
    {
        let Ok(place) = self.cut_place(cuts, slot) else {
            return Err(NoMemory);
        };
        match slots.insert(slot, place) {
            Ok(_) => Ok(()),
            Err(_) => Err(NoMemory),
        }
    }

    /// Counts a call, which fails where that is planned.
    fn begin(&mut self, call: DiskCall) -> Result<(), DiskError>
        ensures fault { HasFault self.old.faults self.new.faults result }
        ensures slots { self.new.slots ≡ self.old.slots }
        ensures plan { Goes call (plans_of self.old) (plans_of self.new) result }
    {
        if self.plan.fails(call) {
            self.faults = self.faults.saturating_add(1);
            return Err(DiskError::Failed);
        }
        Ok(())
    }

    /// The slots that have metadata.
    fn listed(&self) -> Result<Vec<u32>, NoMemory>
        ensures items { IfOk result (λ listed.
            listed.items ≡ slots_with_meta self.now.slots.entries) }
        ensures ordered { IsOrdered nat_cmp self.now.slots }
    {
        let mut listed = Vec::new(self.alloc);
        for (slot, place) in &self.slots {
            if place.has_meta() {
                let Ok(()) = listed.push(*slot) else {
                    return Err(NoMemory);
                };
            }
        }
        Ok(listed)
    }

    /// Hands the slot's file out.
    fn hand_out(&mut self, slot: u32) -> Result<MemoryFile, NoMemory>
        ensures rest { self.new ≡ record self.old { slots = self.new.slots } }
        ensures out { IfOk result (λ file.
            SetsOut slot true (disk_of self.old) (disk_of self.new)) }
        ensures told { IfOk result (λ file.
            HandsOut slot (slot_of file).told (disk_of self.old) (disk_of self.new)) }
        ensures counts { IfOk result (λ file. IsNew (slot_of file)) }
        ensures plan { IfOk result (λ file. planned_of file ≡ (plans_of self.old).files slot) }
        ensures files { (s : ℕ) → (plans_of self.new).files s ≡ (plans_of self.old).files s }
        ensures err { OnErr result (SameSlots self.old self.new) }
    {
        match self.make_place(slot) {
            Ok(()) => {}
            Err(why) => return Err(why),
        }
        match self.slots.get_mut(&slot) {
            Some(place) => place.take(self.alloc),
            None => unreachable!(),
        }
    }
}

impl CacheDisk for MemoryDisk {
    type File = MemoryFile;

    ghost tells = { Unit {0} };

    ghost disk = { disk_of };

    ghost told_files = { λ t. t };

    ghost told_by_files = { λ t. t };

    fn attach(&mut self, _name: &str) -> Result<(), DiskError>
        ensures fault { HasFault (disk_of self.old).faults (disk_of self.new).faults result }
        ensures out { SameOut (disk_of self.old) (disk_of self.new) }
        ensures told { SameShelves (disk_of self.old) (disk_of self.new) }
        ensures plan { Goes Attach (plans_of self.old) (plans_of self.new) result }
    {
        self.begin(DiskCall::Attach)
    }

    fn slots(&mut self) -> Result<Vec<u32>, DiskError>
        ensures fault { HasFault (disk_of self.old).faults (disk_of self.new).faults result }
        ensures out { SameOut (disk_of self.old) (disk_of self.new) }
        ensures told { SameShelves (disk_of self.old) (disk_of self.new) }
        ensures rising { IfOk result (λ slots. IsStrictlyIncreasing slots.items) }
        ensures all { IfOk result (λ slots. HasSlots (disk_of self.old) slots.items) }
        ensures plan { Goes Slots (plans_of self.old) (plans_of self.new) result }
    {
        match self.begin(DiskCall::Slots) {
            Ok(()) => match self.listed() {
                Ok(slots) => Ok(slots),
                Err(NoMemory) => Err(DiskError::NoMemory),
            },
            Err(DiskError::Failed) => Err(DiskError::Failed),
            Err(DiskError::NoMemory) => Err(DiskError::NoMemory),
        }
    }

    fn take(&mut self, slot: u32) -> Result<MemoryFile, DiskError>
        requires here { (disk_of self.old).out slot ≡ false }
        ensures fault { HasFault (disk_of self.old).faults (disk_of self.new).faults result }
        ensures out { MovesOut slot (disk_of self.old) (disk_of self.new) result }
        ensures counts { IfOk result (λ file. IsNew (slot_of file)) }
        ensures told { Takes (λ file. (slot_of file).told) slot
            (disk_of self.old) (disk_of self.new) result }
        ensures plan { Goes Take (plans_of self.old) (plans_of self.new) result }
        ensures file_plan { IfOk result (λ file. planned_of file ≡ (plans_of self.old).files slot) }
    {
        match self.begin(DiskCall::Take) {
            Ok(()) => match self.hand_out(slot) {
                Ok(file) => Ok(file),
                Err(NoMemory) => Err(DiskError::NoMemory),
            },
            Err(DiskError::Failed) => Err(DiskError::Failed),
            Err(DiskError::NoMemory) => Err(DiskError::NoMemory),
        }
    }

    fn give_back(&mut self, slot: u32, file: MemoryFile)
        requires out { (disk_of self.old).out slot ≡ true }
        ensures faults { RoseBy (slot_of file).faults
            (disk_of self.old).faults (disk_of self.new).faults }
        ensures out { SetsOut slot false (disk_of self.old) (disk_of self.new) }
        ensures told { TakesBack slot (slot_of file).told (disk_of self.old) (disk_of self.new) }
        ensures plan { SamePlans (plans_of self.old) (plans_of self.new) }
    {
        self.faults = self.faults.saturating_add(file.faults);
        match self.slots.get_mut(&slot) {
            Some(place) => place.give_back(file),
            None => unreachable!(),
        }
    }
}
