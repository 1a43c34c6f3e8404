ghost use Rattle.std.specs.Prelude.{◌≡◌, ◌≢◌, ◌+◌, ◌<◌, ◌≤◌, ℕ, [], ◌∷◌, IfOk, IfSome, OnOk, OnErr, IfNone, ◌^◌, ◌-◌, ◌||◌, not, filter, if◌then◌else◌, is_ok, length, vec_len};
ghost use Rattle.std.specs.Vec.{vec_capacity};
ghost use Rattle.vfs_names.specs.Path.{same_text};
ghost use Rattle.vfs_outside.specs.Causes.{Rose};
ghost use Rattle.vfs_outside.specs.Outside.{HasNames, IsCall, MayBeMissing, nothing};
ghost use Rattle.vfs_outside.specs.Told.{FindsObject, PutsObject, ShowsRows};
ghost use Rattle.vfs_outside.specs.Store.{File, SameStore};
ghost use Rattle.remote_memory.specs.Nodes.{AddsAbove, fingerprint_of, gives_way, is_below, store_of, with_object, without};
ghost use Rattle.remote_memory.specs.declared.node.Node.{Node};
ghost use Rattle.remote_memory.specs.Stores.{outside_with};
ghost use Rattle.remote_memory.specs.declared.object.MemoryObject.{MemoryObject};

use crate::below::is_below;
use crate::node::{Kept, Node, Stored, can_put, is_dir, object_at, put_node};
use crate::object::MemoryObject;
use crate::rows::rows_of;
use std::alloc::Global;
use std::snapshot::Snapshot;
use vfs_names::{Blob, Fingerprint, NoMemory, VPath};
use vfs_outside::{Listing, RemoteError};

/// What stands in a store in memory, with what was handed out of it.
#[derive(Drop)]
pub struct Stock {
    pub(crate) nodes: Vec<Node>,
    // the revision of the last object that was put
    pub(crate) revs: u64,
    pub(crate) handed: Vec<Snapshot<Stored>>,
    pub(crate) changes: u64,
    pub(crate) lists: u64,
}

/// Puts the directories above a path at the end, but for the root.
fn add_parents(alloc: Global, nodes: &mut Vec<Node>, path: &VPath) -> Result<(), NoMemory>
    ensures { OnOk result (AddsAbove path.now nodes.old.items nodes.new.items) }
{
    let Ok(found) = path.parent(alloc) else {
        return Err(NoMemory);
    };
    let Some(parent) = found else {
        return Ok(());
    };
    if parent.is_root() {
        return Ok(());
    }
    let Ok(copy) = parent.copy(alloc) else {
        return Err(NoMemory);
    };
    let Ok(()) = nodes.push(Node {
        path: copy,
        kept: Kept::Dir,
    }) else {
        return Err(NoMemory);
    };
    add_parents(alloc, nodes, &parent)
}

/// Whether what stands at the second path gives way to an object that is put at the first.
fn gives_way(path: &VPath, other: &VPath) -> bool
    ensures { result ≡ gives_way path.now other.now }
{
    *path == *other || is_below(other, path) || is_below(path, other)
}

/// Takes the nodes away that give way to an object that is put at the path.
fn clear_way(nodes: &mut Vec<Node>, path: &VPath)
    ensures items { nodes.new.items ≡ filter (λ (n : Node). not (gives_way path.now n.path)) nodes.old.items }
    ensures len { vec_len nodes.new ≤ vec_len nodes.old }
    ensures capacity { vec_capacity nodes.new ≡ vec_capacity nodes.old }
{
    nodes.retain(|node| !gives_way(path, &node.path));
}

/// Takes the nodes away that stand at the path or below.
fn take_away(nodes: &mut Vec<Node>, path: &VPath)
    ensures { nodes.new.items ≡
        filter (λ (n : Node). not (same_text path.now n.path || is_below path.now n.path)) nodes.old.items }
{
    nodes.retain(|node| !(*path == node.path || is_below(path, &node.path)));
}

impl Stock {
    pub fn new(alloc: Global) -> Stock
        ensures nodes { result.nodes.items ≡ [] }
        ensures handed { result.handed.items ≡ [] }
        ensures revs { result.revs ≡ 0 }
        ensures counts { (result.changes ≡ 0) × (result.lists ≡ 0) }
    {
        Stock {
            nodes: Vec::new(alloc),
            revs: 0,
            handed: Vec::new(alloc),
            changes: 0,
            lists: 0,
        }
    }

    /// The object stands at the path, and each directory above it. What stood there and below is gone.
    pub fn put(
        &mut self,
        alloc: Global,
        path: VPath,
        bytes: Blob,
        mtime: u64,
    ) -> Result<Fingerprint, NoMemory>
        requires { path ≢ [] }
        ensures rest { self.new ≡ record self.old { nodes = self.new.nodes; revs = self.new.revs } }
        ensures print { IfOk result (λ print. print ≡
            record { size = length bytes; mtime = mtime; rev = self.new.revs }) }
        ensures rev { IfOk result (λ print. self.new.revs ≡ self.old.revs + 1) }
        ensures stands { IfOk result (λ print. SameStore (store_of self.new.nodes.items)
            (with_object path (File print bytes) (store_of self.old.nodes.items))) }
        ensures err { OnErr result ((self.new.nodes.items ≡ self.old.nodes.items) × (self.new.revs ≡ self.old.revs)) }
    {
        let Some(rev) = self.revs.checked_add(1) else {
            return Err(NoMemory);
        };
        let stored = Stored { mtime, rev, bytes };
        let print = stored.print();
        let Ok(copy) = path.copy(alloc) else {
            return Err(NoMemory);
        };
        let mut added = Vec::new(alloc);
        let Ok(()) = added.push(Node {
            path: copy,
            kept: Kept::File(stored),
        }) else {
            return Err(NoMemory);
        };
        let Ok(()) = add_parents(alloc, &mut added, &path) else {
            return Err(NoMemory);
        };
        let Ok(()) = self.nodes.reserve(added.len()) else {
            return Err(NoMemory);
        };
        clear_way(&mut self.nodes, &path);
        let Ok(()) = self.nodes.append(&mut added) else {
            return Err(NoMemory);
        };
        self.revs = rev;
        Ok(print)
    }

    /// What stands at the path is gone, with all below.
    pub fn delete(&mut self, path: &VPath)
        requires { path.now ≢ [] }
        ensures rest { self.new ≡ record self.old { nodes = self.new.nodes } }
        ensures gone { SameStore (store_of self.new.nodes.items) (without path.now (store_of self.old.nodes.items)) }
    {
        take_away(&mut self.nodes, path);
    }

    /// The number of the next listing; None where there is none.
    pub fn next_listing(&mut self) -> Option<u64>
        ensures rest { self.new ≡ record self.old { lists = self.new.lists } }
        ensures later { self.old.lists ≤ self.new.lists }
        ensures some { IfSome result (λ number. (number ≡ self.new.lists) × (self.new.lists ≡ self.old.lists + 1)) }
        ensures none { IfNone result (self.old.lists ≡ 2 ^ 64 - 1) }
    {
        let Some(number) = self.lists.checked_add(1) else {
            return None;
        };
        self.lists = number;
        Some(number)
    }

    /// Counts that what a call names isn't there, and answers so.
    fn missing(&mut self) -> RemoteError
        ensures error { result ≡ RemoteError.Missing }
        ensures rest { self.new ≡ record self.old { changes = self.new.changes } }
        ensures later { self.old.changes ≤ self.new.changes }
        ensures rose { Rose self.old.changes self.new.changes }
    {
        self.changes = self.changes.saturating_add(1);
        RemoteError::Missing
    }

    /// The rows of a directory, with the number of the last listing.
    pub fn list(&mut self, alloc: Global, dir: &VPath) -> Result<Listing, RemoteError>
        ensures call { (faults others : ℕ) → IsCall MayBeMissing nothing
            (outside_with self.old faults others) (outside_with self.new faults others) result }
        ensures lists { self.new.lists ≡ self.old.lists }
        ensures number { IfOk result (λ listing. listing.number ≡ self.new.lists) }
        ensures names { IfOk result (λ listing. HasNames listing.rows) }
        ensures told { (faults others : ℕ) → ShowsRows dir.now
            (outside_with self.old faults others) (outside_with self.new faults others) result }
    {
        if is_dir(self.nodes.as_slice(), dir) {
            match rows_of(alloc, self.nodes.as_slice(), dir) {
                Ok(rows) => Ok(Listing {
                    number: self.lists,
                    rows,
                }),
                Err(_) => Err(RemoteError::NoMemory),
            }
        } else {
            Err(self.missing())
        }
    }

    /// The object that stands there. Its pulls of these numbers are to fail, and those to find another object.
    pub fn open_object(
        &mut self,
        alloc: Global,
        path: &VPath,
        fails: Vec<u64>,
        finds_other: Vec<u64>,
    ) -> Result<MemoryObject, RemoteError>
        ensures call { (faults others : ℕ) →
            IsCall MayBeMissing (λ (o : MemoryObject). (fingerprint_of o.stored, o.stored.bytes) ∷ [])
            (outside_with self.old faults others) (outside_with self.new faults others) result }
        ensures lists { self.new.lists ≡ self.old.lists }
        ensures path { IfOk result (λ o. o.path ≡ path.now) }
        ensures unasked { IfOk result (λ o. o.asked.items ≡ []) }
        ensures counts { IfOk result (λ o. (o.faults ≡ 0) × (o.changes ≡ 0)) }
        ensures told { (faults others : ℕ) →
            FindsObject (λ (o : MemoryObject). fingerprint_of o.stored)
            (λ (o : MemoryObject). o.stored.bytes) path.now
            (outside_with self.old faults others) (outside_with self.new faults others) result }
    {
        let Some(found) = object_at(self.nodes.as_slice(), path) else {
            return Err(self.missing());
        };
        let Ok(path) = path.copy(alloc) else {
            return Err(RemoteError::NoMemory);
        };
        let Ok(stored) = found.copy(alloc) else {
            return Err(RemoteError::NoMemory);
        };
        let Ok(()) = self.handed.reserve(1) else {
            return Err(RemoteError::NoMemory);
        };
        self.handed.push_reserved(Snapshot::of(&stored));
        Ok(MemoryObject {
            path,
            stored,
            asked: Vec::new(alloc),
            pulls: 0,
            fails,
            finds_other,
            faults: 0,
            changes: 0,
        })
    }
    /// The object of these bytes stands at the path, in place of the one that stood there.
    pub fn commit(
        &mut self,
        alloc: Global,
        path: &VPath,
        bytes: Blob,
        mtime: u64,
    ) -> Result<Fingerprint, RemoteError>
        requires { path.now ≢ [] }
        ensures call { (faults others : ℕ) → IsCall MayBeMissing (λ print. (print, bytes) ∷ [])
            (outside_with self.old faults others) (outside_with self.new faults others) result }
        ensures lists { self.new.lists ≡ self.old.lists }
        ensures print { IfOk result (λ print. print ≡
            record { size = length bytes; mtime = mtime; rev = self.new.revs }) }
        ensures rev { self.new.revs ≡ (if is_ok result then self.old.revs + 1 else self.old.revs) }
        ensures told { (faults others : ℕ) → PutsObject path.now bytes
            (outside_with self.old faults others) (outside_with self.new faults others) result }
    {
        match can_put(alloc, self.nodes.as_slice(), path) {
            Ok(true) => {}
            Ok(false) => return Err(self.missing()),
            Err(_) => return Err(RemoteError::NoMemory),
        }
        let Some(rev) = self.revs.checked_add(1) else {
            return Err(RemoteError::NoMemory);
        };
        let Ok(path) = path.copy(alloc) else {
            return Err(RemoteError::NoMemory);
        };
        let Ok(()) = self.nodes.reserve(1) else {
            return Err(RemoteError::NoMemory);
        };
        let Ok(()) = self.handed.reserve(1) else {
            return Err(RemoteError::NoMemory);
        };
        let object = Stored { mtime, rev, bytes };
        let print = object.print();
        self.handed.push_reserved(Snapshot::of(&object));
        let kept = Kept::File(object);
        put_node(&mut self.nodes, Node { path, kept });
        self.revs = rev;
        Ok(print)
    }
}
