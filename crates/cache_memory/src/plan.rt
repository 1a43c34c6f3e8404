ghost use Rattle.std.specs.Prelude.{◌≡◌, ◌≢◌, ◌+◌, ◌-◌, ◌^◌, ◌↔◌, [], min, Contains, IsTrue};
ghost use Rattle.cache_memory.specs.Plans.{made_of};
ghost use Rattle.cache_memory.specs.declared.script.DiskCall.{DiskCall};

use crate::script::{DiskCall, DiskFault};
use std::alloc::Global;

/// What a test planned for a disk's calls, with how many there were of each kind, up to the last
/// value of their type.
#[derive(Drop)]
pub struct Plan {
    pub(crate) attaches: u64,
    pub(crate) lists: u64,
    pub(crate) takes: u64,
    pub(crate) faults: Vec<DiskFault>,
}

impl Plan {
    /// No call was made, and none is to fail.
    pub fn new(alloc: Global) -> Plan
        ensures faults { result.faults.items ≡ [] }
        ensures made { (call : DiskCall) → made_of result call ≡ 0 }
    {
        Plan {
            attaches: 0,
            lists: 0,
            takes: 0,
            faults: Vec::new(alloc),
        }
    }

    /// Counts a call, and says its number.
    fn count(&mut self, call: DiskCall) -> u64
        ensures faults { self.new.faults ≡ self.old.faults }
        ensures nth { result ≡ made_of self.new call }
        ensures made { made_of self.new call ≡ min (made_of self.old call + 1) (2 ^ 64 - 1) }
        ensures others { (c : DiskCall) → c ≢ call → made_of self.new c ≡ made_of self.old c }
    {
        match call {
            DiskCall::Attach => {
                self.attaches = self.attaches.saturating_add(1);
                self.attaches
            }
            DiskCall::Slots => {
                self.lists = self.lists.saturating_add(1);
                self.lists
            }
            DiskCall::Take => {
                self.takes = self.takes.saturating_add(1);
                self.takes
            }
        }
    }

    /// Counts a call, and says whether it is to fail.
    pub fn fails(&mut self, call: DiskCall) -> bool
        ensures faults { self.new.faults ≡ self.old.faults }
        ensures made { made_of self.new call ≡ min (made_of self.old call + 1) (2 ^ 64 - 1) }
        ensures others { (c : DiskCall) → c ≢ call → made_of self.new c ≡ made_of self.old c }
        ensures planned { IsTrue result ↔ Contains self.old.faults.items
            (record { call = call; nth = made_of self.new call }) }
    {
        let nth = self.count(call);
        self.faults.contains(&DiskFault { call, nth })
    }
}
