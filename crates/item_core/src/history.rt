ghost use Rattle.std.specs.Prelude.{◌≡◌, ◌+◌, ◌<◌, ◌≤◌, ◌^◌, ◌↔◌, ◌⊎◌, [], ◌∷◌, length, reverse, OnOk, OnErr, IfErr, IsTrue};
ghost use Rattle.item_core.specs.Effects.{places};
ghost use Rattle.item_core.specs.History.{size_of, base_end_of, held_by, is_kept, version_of, is_dirty, is_modified, opens_of, begun_of, is_owed};
ghost use Rattle.item_core.specs.Legal.{IsLegal, MayFollow};
ghost use Rattle.item_core.specs.Log.{Log, free};

use crate::Entry;
use crate::allow::allows;
use crate::facts::Facts;
use std::alloc::Global;
use std::marker::Model;
use vfs_names::{Fingerprint, Refusal};

/// A file's history. Contracts see its entries, the newest first. Each reader takes constant time.
#[derive(Drop)]
pub struct Core {
    entries: Vec<Entry>,
    limit: u32,
    facts: Facts,
}

impl Model for Core {
    ghost use Rattle.std.specs.Prelude.{◌+◌, ◌-◌, ◌≤◌, min, reverse, vec_len, vec_capacity};
    ghost use Rattle.item_core.specs.Log.{Log};

    ghost Value = { Log };

    ghost use Rattle.item_core.specs.Step.{IsTold};

    ghost view = { λ c. record { past = reverse c.entries.items; limit = c.limit; spare = min (vec_capacity c.entries) c.limit - (vec_len c.entries + (c.facts.opens + c.facts.begun)) } };

    ghost invariant = { λ c. IsTold (reverse c.entries.items) c.facts
        × (vec_len c.entries + (c.facts.opens + c.facts.begun) ≤ min (vec_capacity c.entries) c.limit) };
}

impl Core {
    /// No entries. At most `limit` places are given; takes no memory.
    pub fn new(alloc: Global, limit: u32) -> Core
        ensures past { result.past ≡ [] }
        ensures limit { result.limit ≡ limit }
        ensures spare { result.spare ≡ 0 }
    {
        Core {
            entries: Vec::new(alloc),
            limit,
            facts: Facts::NONE,
        }
    }

    /// The entries, the oldest first.
    pub fn entries(&self) -> &[Entry]
        ensures entries { result.now ≡ reverse self.now.past }
        ensures legal { IsLegal self.now.past }
    {
        self.entries.as_slice()
    }

    /// How many entries there are.
    pub fn len(&self) -> u32
        ensures { result ≡ length self.now.past }
    {
        self.entries.len().min(self.limit as usize) as u32
    }

    /// The entries, the oldest first.
    pub fn into_entries(self) -> Vec<Entry>
        ensures entries { result.items ≡ reverse self.past }
        ensures legal { IsLegal self.past }
    {
        self.entries
    }

    /// How many versions began.
    pub fn version(&self) -> u64
        ensures { result ≡ version_of self.now.past }
    {
        self.facts.version
    }

    /// In bytes.
    pub fn size(&self) -> u64
        ensures size { result ≡ size_of self.now.past }
        ensures small { result ≤ 2 ^ 40 }
        ensures legal { IsLegal self.now.past }
    {
        self.facts.size
    }

    /// The end of what the base object gives, in bytes.
    pub fn base_end(&self) -> u64
        ensures base_end { result ≡ base_end_of self.now.past }
        ensures within { result ≤ size_of self.now.past }
    {
        self.facts.base_end
    }

    /// The fingerprint of the object that the file holds.
    pub fn held(&self) -> Option<Fingerprint>
        ensures { result ≡ held_by self.now.past }
    {
        self.facts.held
    }

    /// The cache has the file.
    pub fn kept(&self) -> bool
        ensures { result ≡ is_kept self.now.past }
    {
        self.facts.kept
    }

    /// There is content that no upload saved.
    pub fn dirty(&self) -> bool
        ensures { result ≡ is_dirty self.now.past }
    {
        self.facts.dirty
    }

    /// A version began since no handle was open.
    pub fn modified(&self) -> bool
        ensures { result ≡ is_modified self.now.past }
    {
        self.facts.modified
    }

    /// The open handles.
    pub fn opens(&self) -> u32
        ensures { result ≡ opens_of self.now.past }
    {
        self.facts.opens
    }

    /// The uploads that began and haven't ended.
    pub fn begun(&self) -> u32
        ensures { result ≡ begun_of self.now.past }
    {
        self.facts.begun
    }

    /// The content waits for an upload.
    pub fn owed(&self) -> bool
        ensures { result ≡ is_owed self.now.past }
    {
        self.facts.dirty && !self.facts.modified
    }

    /// The places below the limit that aren't in use.
    pub fn free(&self) -> u32
        ensures { result ≡ free self.now }
    {
        let used = self.entries.len() + self.facts.opens as usize + self.facts.begun as usize;
        (self.limit as usize - used) as u32
    }

    /// The places for which room is made, those that are kept aside.
    pub fn spare(&self) -> u32
        ensures { result ≡ self.now.spare }
    {
        let used = self.entries.len() + self.facts.opens as usize + self.facts.begun as usize;
        (self.entries.capacity().min(self.limit as usize) - used) as u32
    }

    /// The entry may come next. Takes time in proportion to the entries.
    pub fn allows(&self, entry: &Entry) -> bool
        ensures { IsTrue result ↔ MayFollow self.now.past entry.now }
    {
        allows(self.entries.as_slice(), entry)
    }

    /// Makes room for `n` entries beside the places that are kept for the ends of handles and uploads.
    pub fn reserve(&mut self, n: u32) -> Result<(), Refusal>
        ensures ok { OnOk result (n ≤ self.new.spare) }
        ensures kept { self.old.spare ≤ self.new.spare }
        ensures past { self.new.past ≡ self.old.past }
        ensures limit { self.new.limit ≡ self.old.limit }
        ensures full { (result ≡ Err Refusal.HistoryFull) ↔ (free self.old < n) }
        ensures causes { IfErr result (λ why. (why ≡ Refusal.HistoryFull) ⊎ (why ≡ Refusal.NoMemory)) }
        ensures err { OnErr result (self.new ≡ self.old) }
    {
        if self.free() < n {
            return Err(Refusal::HistoryFull);
        }
        let kept = self.facts.opens as usize + self.facts.begun as usize;
        match self.entries.reserve(kept + n as usize) {
            Ok(()) => Ok(()),
            Err(_) => Err(Refusal::NoMemory),
        }
    }

    /// Adds an entry, for which room was made. Takes no memory and constant time.
    pub fn push(&mut self, entry: Entry)
        requires place { places entry.kind ≤ self.old.spare }
        requires legal { MayFollow self.old.past entry }
        ensures past { self.new.past ≡ entry ∷ self.old.past }
        ensures limit { self.new.limit ≡ self.old.limit }
        ensures spare { self.old.spare ≤ self.new.spare + places entry.kind }
    {
        self.facts = self.facts.after(&entry.kind);
        self.entries.push(entry).unwrap();
    }
}
