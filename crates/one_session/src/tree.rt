ghost use Rattle.std.specs.Prelude.{◌≡◌, ◌++◌, ◌<◌, ◌≤◌, ◌+◌, ◌^◌, ◌↔◌, ◌⊎◌, ℕ, List, [], ◌∷◌, true, false, OnOk, OnErr, IfErr, length, string_bytes};
ghost use Rattle.shown_rows.specs.Shown.{shown_in, shown_by};
ghost use Rattle.vfs_outside.specs.declared.tree.TreeKind.TheVariants as kinds;
ghost use Rattle.one_session.specs.Calls.{in_tree};
ghost use Rattle.one_session.specs.Tree.{free_places, handles_of, is_close, is_listed, is_stored, lists_root, shown};
ghost use Rattle.one_session.specs.Views.{tree_places};

use crate::tree_entry::{handles_after, put_entry, reprint};
use shown_rows::{Shown, ShownRows};
use std::alloc::Global;
use std::marker::Model;
use vfs_names::{By, Fingerprint, NoMemory, Refusal, VPath};
use vfs_outside::{Listing, TreeEntry, TreeKind};

/// The tree's history. Contracts see its entries, the oldest first. Each reader takes constant time.
#[derive(Drop)]
pub(crate) struct Tree {
    entries: Vec<TreeEntry>,
    limit: u32,
    handles: u32,
    listed: bool,
    rows: ShownRows,
}

impl Model for Tree {
    ghost use Rattle.std.specs.Prelude.{◌+◌, ◌-◌, ◌≤◌, min, vec_len, vec_capacity};
    ghost use Rattle.shown_rows.specs.Shown.{room_in};
    ghost use Rattle.one_session.specs.Views.{TreeLog};

    ghost Value = { TreeLog };

    ghost use Rattle.one_session.specs.TreeFacts.{IsTold};

    ghost view = { λ t. record {
      entries = t.entries.items;
      limit = t.limit;
      spare = min
          (vec_capacity t.entries) t.limit - (vec_len t.entries + t.handles);
      names = room_in t.rows;
    } };

    ghost invariant = { λ t. IsTold t.entries.items t.handles t.listed t.rows
        × (vec_len t.entries + t.handles ≤ min (vec_capacity t.entries) t.limit) };
}

impl Tree {
    pub(crate) fn new(alloc: Global, limit: u32) -> Tree
        ensures entries { result.entries ≡ [] }
        ensures limit { result.limit ≡ limit }
    {
        Tree {
            entries: Vec::new(alloc),
            limit,
            handles: 0,
            listed: false,
            rows: ShownRows::new(alloc),
        }
    }

    /// Makes room for `n` entries beside the places that are kept for the closes of open handles.
    pub(crate) fn reserve(&mut self, n: u32) -> Result<(), Refusal>
        ensures ok { OnOk result (n ≤ self.new.spare) }
        ensures entries { self.new.entries ≡ self.old.entries }
        ensures limit { self.new.limit ≡ self.old.limit }
        ensures small { length self.new.entries < 2 ^ 32 }
        ensures full { (result ≡ Err Refusal.HistoryFull)
            ↔ (free_places self.old.limit self.old.entries < n) }
        ensures causes { IfErr result (λ why. (why ≡ Refusal.HistoryFull)
            ⊎ (why ≡ Refusal.NoMemory)) }
    {
        let used = self.entries.len() + self.handles as usize;
        if (self.limit as usize - used) < n as usize {
            return Err(Refusal::HistoryFull);
        }
        match self.entries.reserve(self.handles as usize + n as usize) {
            Ok(()) => Ok(()),
            Err(_) => Err(Refusal::NoMemory),
        }
    }

    /// The root was listed.
    pub(crate) fn is_listed(&self) -> bool
        ensures { result ≡ is_listed self.now.entries }
    {
        self.listed
    }

    /// What the root shows at a path.
    pub(crate) fn shows(&self, path: &VPath) -> Option<Shown>
        ensures { result ≡ shown self.now.entries path.now }
    {
        self.rows.get(path)
    }

    /// How many entries there are.
    pub(crate) fn len(&self) -> u32
        ensures { result ≡ length self.now.entries }
    {
        self.entries.len().min(self.limit as usize) as u32
    }

    /// Adds a listing of the root with its rows, for which room was made; takes no memory.
    pub(crate) fn push_listing(&mut self, by: By, root: VPath, listing: Listing, rows: ShownRows)
        requires root { root ≡ [] }
        requires rows { (name : List ℕ) → shown_in rows name ≡ shown_by listing.rows name }
        requires place { 1 ≤ self.old.spare }
        ensures entries { self.new.entries
            ≡ self.old.entries ++ in_tree by (kinds.Listed [] listing) ∷ [] }
        ensures limit { self.new.limit ≡ self.old.limit }
        ensures spare { self.old.spare ≤ self.new.spare + 1 }
    {
        let kind = TreeKind::Listed { dir: root, listing };
        put_entry(&mut self.entries, TreeEntry { by, kind });
        self.listed = true;
        self.rows = rows;
    }

    /// Adds an entry that neither lists the root nor stores an object, for which room was made; takes no memory.
    pub(crate) fn push(&mut self, entry: TreeEntry)
        requires place { tree_places entry.kind ≤ self.old.spare }
        requires close { is_close entry.kind ≡ true → 0 < handles_of self.old.entries }
        requires unlisted { lists_root entry.kind ≡ false }
        requires unstored { is_stored entry.kind ≡ false }
        ensures entries { self.new.entries ≡ self.old.entries ++ entry ∷ [] }
        ensures limit { self.new.limit ≡ self.old.limit }
        ensures spare { self.old.spare ≤ self.new.spare + tree_places entry.kind }
    {
        self.handles = handles_after(&entry.kind, self.handles);
        reprint(&mut self.rows, &entry.kind);
        put_entry(&mut self.entries, entry);
    }

    /// Makes room for an object that is stored: for its entry, and for a row more of what the root shows.
    pub(crate) fn make_ready(&mut self) -> Result<(), Refusal>
        ensures place { OnOk result (1 ≤ self.new.spare) }
        ensures row { OnOk result (0 < self.new.names) }
        ensures entries { self.new.entries ≡ self.old.entries }
        ensures limit { self.new.limit ≡ self.old.limit }
        ensures full { (result ≡ Err Refusal.HistoryFull)
            ↔ (free_places self.old.limit self.old.entries < 1) }
        ensures causes { IfErr result (λ why. (why ≡ Refusal.HistoryFull)
            ⊎ (why ≡ Refusal.NoMemory)) }
    {
        match self.reserve(1) {
            Ok(()) => match self.rows.reserve() {
                Ok(()) => Ok(()),
                Err(NoMemory) => Err(Refusal::NoMemory),
            },
            Err(why) => Err(why),
        }
    }

    /// Says that an object was stored at a path of the root, whose name is given too; for both room was made. Takes no
    /// memory.
    pub(crate) fn push_stored(&mut self, by: By, path: VPath, name: String, print: Fingerprint)
        requires place { 1 ≤ self.old.spare }
        requires row { 0 < self.old.names }
        requires name { string_bytes name ≡ path }
        ensures entries { self.new.entries
            ≡ self.old.entries ++ in_tree by (kinds.Stored path print) ∷ [] }
        ensures limit { self.new.limit ≡ self.old.limit }
    {
        self.rows.put_object(name, print);
        let kind = TreeKind::Stored { path, print };
        put_entry(&mut self.entries, TreeEntry { by, kind });
    }

    /// The entries, the oldest first; takes no memory.
    pub(crate) fn into_entries(self) -> Vec<TreeEntry>
        ensures { result.items ≡ self.entries }
    {
        self.entries
    }
}
