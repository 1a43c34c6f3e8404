ghost use Rattle.std.specs.Prelude.{◌≡◌, ◌≢◌, ◌⊎◌, ◌<◌, ◌≤◌, ◌↔◌, ◌||◌, ℕ, [], nat_lt, length, if◌then◌else◌, true, false, None, reverse, IfSome, is_some, OnOk, IfErr, OnErr};
ghost use Rattle.std.specs.Option.{option_copied};
ghost use Rattle.byte_ranges.specs.Ranges.{IsBelow, count_below, total_length};
ghost use Rattle.vfs_outside.specs.Image.{meta_in};
ghost use Rattle.vfs_outside.specs.Slot.{IsNew, image, image_after};
ghost use Rattle.item_core.specs.Content.{Known};
ghost use Rattle.item_core.specs.History.{held_by, is_dirty, is_kept, opens_of, place, size_of, version_of};
ghost use Rattle.item_core.specs.Legal.{IsLegal};
ghost use Rattle.item_core.specs.Log.{free};
ghost use Rattle.item_core.specs.Names.{atime_of, name_of, names_at};
ghost use Rattle.item_image.specs.Facts.{mtime_of};
ghost use Rattle.item_image.specs.Premise.{Fits, IsOfImage};
ghost use Rattle.item_image.specs.Stands.{StandsFor};
ghost use Rattle.sparse_item.specs.Item.{no_base};

use crate::slot::SlotFile;
use crate::{Look, Parts};
use base_object::BaseObject;
use item_core::{Core, Entry};
use item_meta::Meta;
use std::alloc::Global;
use std::marker::Model;
use std::snapshot::Snapshot;
use vfs_names::{Fingerprint, ItemId, Refusal, SlotId, VPath};
use vfs_outside::{CacheFile, Object};

/// A file in a slot of the cache.
#[derive(Drop)]
pub struct ItemBook<O: Object, F: CacheFile> {
    pub(crate) alloc: Global,
    pub(crate) id: ItemId,
    pub(crate) slot_id: SlotId,
    pub(crate) core: Core,
    pub(crate) names: Vec<VPath>,
    pub(crate) slot: SlotFile<F>,
    // the metadata of a kept file; an intent in them is a write whose data isn't there yet
    pub(crate) meta: Option<Meta>,
    pub(crate) base: BaseObject<O>,
    // the objects that the file was given, which take no memory
    pub(crate) given: Vec<Snapshot<O>>,
    pub(crate) atime: u64,
    // the times that were saved when the epoch began, which take no memory
    pub(crate) saved_mtime: Snapshot<u64>,
    pub(crate) saved_atime: Snapshot<u64>,
}

impl<O: Object, F: CacheFile> Model for ItemBook<O, F> {
    ghost use Rattle.std.specs.Prelude.{reverse};
    ghost use Rattle.sparse_item.specs.Item.{Item};
    ghost use Rattle.sparse_item.specs.Sound.{IsSound};
    ghost use Rattle.sparse_item.specs.Views.{here_of, pairs_of, pending_of};

    ghost Value = { Item };

    ghost view = { λ b. record {
      id = b.id;
      slot_id = b.slot_id;
      log = b.core;
      names = reverse b.names.items;
      pairs = pairs_of O.print_of O.bytes b.given.items;
      base = b.base;
      here = here_of b.meta;
      pending = pending_of b.meta;
      slot = b.slot;
      saved = record { mtime = b.saved_mtime.value; atime = b.saved_atime.value };
    } };

    ghost invariant = { λ b. IsSound F.tells O.tells b.core.past (reverse b.names.items)
        (record { mtime = b.saved_mtime.value; atime = b.saved_atime.value })
        (pairs_of O.print_of O.bytes b.given.items) b.meta b.slot b.base b.atime };
}

impl<O: Object, F: CacheFile> ItemBook<O, F> {
    /// A file with no entry yet, of a slot that has no metadata; it is to have at most `limit`
    /// places. Takes no memory.
    pub fn fresh(alloc: Global, id: ItemId, slot: SlotId, file: F, limit: u32) -> ItemBook<O, F>
        requires new { IsNew (F.slot file) }
        requires blank { F.tells → meta_in (image (F.slot file).told) ≡ None }
        ensures { result ≡ record {
          id = id;
          slot_id = slot;
          log = record { past = []; limit = limit; spare = 0 };
          names = [];
          pairs = [];
          base = no_base;
          here = [];
          pending = false;
          slot = F.slot file;
          saved = record { mtime = 0; atime = 0 };
        } }
    {
        ItemBook {
            alloc,
            id,
            slot_id: slot,
            core: Core::new(alloc, limit),
            names: Vec::new(alloc),
            slot: SlotFile::new(file),
            meta: None,
            base: BaseObject::none(),
            given: Vec::new(alloc),
            atime: 0,
            saved_mtime: Snapshot::of(&0),
            saved_atime: Snapshot::of(&0),
        }
    }

    /// After any number of the calls that were made on the slot's file, the image there stands for
    /// the part of the history that was made by then.
    pub fn images(&self)
        ensures { F.tells → (known : Known)
            → Fits O.tells known self.now.log.past self.now.pairs
            → IsOfImage known self.now.slot.told.first
            → (k : ℕ) → k ≤ self.now.slot.calls
            → StandsFor known self.now.saved.mtime (image_after self.now.slot.told k)
            (place self.now.log.past k) (names_at self.now.log.past k self.now.names) }
    {
        let _ = &self.core;
    }

    /// Makes room for `n` entries.
    pub fn reserve(&mut self, n: u32) -> Result<(), Refusal>
        ensures ok { OnOk result (n ≤ self.new.log.spare) }
        ensures same { self.new
            ≡ record self.old { log = record self.old.log { spare = self.new.log.spare } } }
        ensures kept { self.old.log.spare ≤ self.new.log.spare }
        ensures full { (result ≡ Err Refusal.HistoryFull) ↔ (free self.old.log < n) }
        ensures causes { IfErr result (λ why. (why ≡ Refusal.HistoryFull)
            ⊎ (why ≡ Refusal.NoMemory)) }
    {
        self.core.reserve(n)
    }

    /// The file's number.
    pub fn id(&self) -> ItemId
        ensures { result ≡ self.now.id }
    {
        self.id
    }

    /// The number of the file's slot.
    pub fn slot_id(&self) -> SlotId
        ensures { result ≡ self.now.slot_id }
    {
        self.slot_id
    }

    /// The entries, the oldest first.
    pub fn entries(&self) -> &[Entry]
        ensures entries { result.now ≡ reverse self.now.log.past }
        ensures legal { IsLegal self.now.log.past }
    {
        self.core.entries()
    }

    /// How many entries there are.
    pub fn len(&self) -> u32
        ensures { result ≡ length self.now.log.past }
    {
        self.core.len()
    }

    /// The fingerprint of the object that the file holds.
    pub fn held(&self) -> Option<Fingerprint>
        ensures { result ≡ held_by self.now.log.past }
    {
        self.core.held()
    }

    /// How many handles are open.
    pub fn opens(&self) -> u32
        ensures { result ≡ opens_of self.now.log.past }
    {
        self.core.opens()
    }

    /// There is content that no upload saved, or a handle is open.
    pub fn is_used(&self) -> bool
        ensures { result ≡ (is_dirty self.now.log.past || nat_lt 0 (opens_of self.now.log.past)) }
    {
        self.core.dirty() || self.core.opens() > 0
    }

    /// The path of a kept file.
    pub fn path(&self) -> Option<&VPath>
        ensures path { option_copied result ≡ (if is_kept self.now.log.past
            then name_of self.now.log.past self.now.names else None) }
        ensures kept { is_some result ≡ is_kept self.now.log.past }
        ensures file { IfSome (option_copied result) (λ path. path ≢ []) }
    {
        match &self.meta {
            Some(meta) => Some(&meta.path),
            None => None,
        }
    }

    /// What is to be known of the file. Costs a walk over the ranges of bytes that the cache has.
    pub fn look(&self) -> Look
        ensures size { result.size ≡ size_of self.now.log.past }
        ensures dirty { result.dirty ≡ is_dirty self.now.log.past }
        ensures opens { result.opens ≡ opens_of self.now.log.past }
        ensures version { result.version ≡ version_of self.now.log.past }
        ensures atime { result.atime ≡ atime_of self.now.saved.atime self.now.log.past }
        ensures mtime { is_kept self.now.log.past ≡ true
            → result.mtime ≡ mtime_of self.now.saved.mtime self.now.log.past }
        ensures kept { result.kept ≡ total_length self.now.here }
        ensures bytes { (n : ℕ) → IsBelow n self.now.here → result.kept ≡ count_below self.now.here n }
    {
        match &self.meta {
            Some(meta) => self.look_with(meta.mtime, meta.ranges.count()),
            None => self.look_with(0, 0),
        }
    }

    fn look_with(&self, mtime: u64, kept: u64) -> Look
        ensures size { result.size ≡ size_of self.now.log.past }
        ensures dirty { result.dirty ≡ is_dirty self.now.log.past }
        ensures opens { result.opens ≡ opens_of self.now.log.past }
        ensures version { result.version ≡ version_of self.now.log.past }
        ensures atime { result.atime ≡ atime_of self.now.saved.atime self.now.log.past }
        ensures mtime { result.mtime ≡ mtime }
        ensures kept { result.kept ≡ kept }
    {
        Look {
            size: self.core.size(),
            dirty: self.core.dirty(),
            opens: self.core.opens(),
            version: self.core.version(),
            atime: self.atime,
            mtime,
            kept,
        }
    }

    /// The slot's file, the history and the paths, handed over. Takes no memory and makes no call on
    /// the file.
    pub fn into_parts(self) -> Parts<F>
        ensures file { F.slot result.file ≡ self.slot }
        ensures entries { result.entries.items ≡ reverse self.log.past }
        ensures names { result.names.items ≡ reverse self.names }
        ensures legal { IsLegal self.log.past }
    {
        Parts {
            file: self.slot.into_file(),
            entries: self.core.into_entries(),
            names: self.names,
        }
    }
}
