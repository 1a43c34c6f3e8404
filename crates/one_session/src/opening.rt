ghost use Rattle.std.specs.Prelude.{◌≡◌, ◌≢◌, ◌⊎◌, ◌<◌, ◌≤◌, ◌+◌, ◌-◌, ◌++◌, Option, [], ◌∷◌, None, Some, length, reverse, set, string_bytes, OnOk, OnErr, IfOk, IfErr};
ghost use Rattle.vfs_names.specs.declared.fingerprint.Fingerprint.{Fingerprint};
ghost use Rattle.vfs_names.specs.declared.who.Actor.TheVariants.{Session};
ghost use Rattle.vfs_outside.specs.Causes.{Rose};
ghost use Rattle.item_core.specs.History.{held_by};
ghost use Rattle.item_core.specs.Log.{free};
ghost use Rattle.session_text.specs.declared.reply.Reply.TheVariants as reply;
ghost use Rattle.sparse_item.specs.Item.{Item};
ghost use Rattle.one_session.specs.Books.{IsBegun, OpensBook, TouchesOne};
ghost use Rattle.one_session.specs.Calls.{WasHeld, in_tree, refused_open};
ghost use Rattle.one_session.specs.Slots.{Lends};
ghost use Rattle.one_session.specs.Standing.{IsSoundStore};
ghost use Rattle.one_session.specs.Start.{MayStart, front_of, given_by, is_create, named_by, opened_kind, opening};
ghost use Rattle.one_session.specs.State.{entries_in, file_at};
ghost use Rattle.one_session.specs.Tree.{item_of};
ghost use Rattle.one_session.specs.Views.{add_to, given_all, histories, item_in};
ghost use Rattle.one_session.specs.Whole.{IsUpTo};

use crate::files::Files;
use crate::handle::Handle;
use crate::open::refuse;
use crate::outcome::Outcome;
use crate::paths::Paths;
use crate::slots::begin_next;
use crate::start::{Start, opened_kind};
use crate::store::Store;
use crate::tree::Tree;
use session_text::Reply;
use std::alloc::Global;
use vfs_names::{Access, By, ItemId, NoMemory, Refusal, VPath};
use vfs_outside::{CacheDisk, CacheFile, Object, TreeEntry};

/// Takes the memory for a new file of this path: its path for the look-up, and room for the file.
pub(crate) fn make<O: Object, F: CacheFile>(
    paths: &mut Paths,
    files: &mut Files<O, F>,
    alloc: Global,
    path: &VPath,
) -> Result<String, NoMemory>
    ensures paths { paths.new.paths ≡ paths.old.paths }
    ensures items { files.new.items ≡ files.old.items }
    ensures queue { files.new.queue ≡ files.old.queue }
    ensures limit { files.new.limit ≡ files.old.limit }
    ensures room { OnOk result (0 < paths.new.spare) }
    ensures spare { OnOk result (0 < files.new.spare) }
    ensures text { IfOk result (λ text. string_bytes text ≡ path.now) }
{
    let Ok(()) = paths.reserve() else {
        return Err(NoMemory);
    };
    let Ok(()) = files.reserve_file() else {
        return Err(NoMemory);
    };
    match String::from_str(alloc, path.as_str()) {
        Ok(text) => Ok(text),
        Err(_) => Err(NoMemory),
    }
}

/// An open that couldn't begin its file, after what it listed: one for the disk says so in the tree.
pub(crate) fn unopened(
    tree: &mut Tree,
    by: By,
    own: VPath,
    listed: Option<u32>,
    why: Refusal,
) -> Outcome
    requires room { 1 ≤ tree.old.spare }
    requires why { (why ≡ Refusal.DiskFault) ⊎ (why ≡ Refusal.NoMemory) }
    ensures limit { tree.new.limit ≡ tree.old.limit }
    ensures reply { result.reply ≡ reply.Refused why }
    ensures file { result.file ≡ None }
    ensures fault { why ≡ Refusal.DiskFault → (tree.new.entries
        ≡ tree.old.entries ++ refused_open by own Refusal.DiskFault ∷ [])
        × (result.tree ≡ Some (length tree.old.entries)) }
    ensures starved { why ≡ Refusal.NoMemory
        → (tree.new.entries ≡ tree.old.entries) × (result.tree ≡ listed) }
{
    match why {
        Refusal::DiskFault => refuse(tree, by, own, Refusal::DiskFault),
        _ => Outcome::starved(listed),
    }
}

impl<O: Object, F: CacheFile> Store<O, F> {
    /// Says in the tree that a file was opened, and keeps what its handle has open. Takes no memory.
    fn note_open(
        &mut self,
        by: By,
        handle: u8,
        item: u32,
        own: VPath,
        created: bool,
        access: Access,
    ) -> Outcome
        requires size { length self.old.table.items ≡ 256 }
        requires room { 2 ≤ self.old.tree.spare }
        requires inside { item < length self.old.files.items }
        requires begun { 1 ≤ length (entries_in (histories self.old.files.items) item) }
        ensures tree { self.new.tree.entries ≡ self.old.tree.entries ++ in_tree by (opened_kind
            created own item (held_by (reverse (entries_in (histories self.old.files.items) item)))) ∷ [] }
        ensures limit { self.new.tree.limit ≡ self.old.tree.limit }
        ensures table { self.new.table.items ≡ set self.old.table.items handle
            (Some (record { item = item; access = access })) }
        ensures files { self.new.files ≡ self.old.files }
        ensures paths { self.new.paths ≡ self.old.paths }
        ensures reply { result.reply ≡ reply.Done }
        ensures in_tree { result.tree ≡ Some (length self.old.tree.entries) }
        ensures in_file { result.file ≡ Some (
          record { 0 = item },
          length (entries_in (histories self.old.files.items) item) - 1,
        ) }
    {
        let in_tree = self.tree.len();
        let in_file = self.files.end(item) - 1;
        let kind = opened_kind(created, own, item, self.files.held(item));
        self.tree.push(TreeEntry { by, kind });
        self.table[handle as usize] = Some(Handle { item, access });
        Outcome {
            reply: Reply::Done,
            tree: Some(in_tree),
            file: Some((ItemId(item), in_file)),
        }
    }

    /// Begins the file of a path so and opens it, once the root was listed. Takes no memory of the
    /// session's own.
    pub(crate) fn put_again(
        &mut self,
        by: By,
        handle: u8,
        item: u32,
        own: VPath,
        path: VPath,
        start: Start<O>,
        access: Access,
    ) -> Result<Outcome, Refusal>
        requires sound { IsSoundStore F.tells self.old }
        requires actor { by.who.actor ≡ Session 1 }
        requires pass { by.pass ≡ 0 }
        requires later { IsUpTo by (histories self.old.files.items) }
        requires closed { file_at self.old.table.items handle ≡ None }
        requires room { 2 ≤ self.old.tree.spare }
        requires inside { item < length self.old.files.items }
        requires places { 4 ≤ (item_in self.old.files.items item).log.spare }
        requires free { 4 ≤ free (item_in self.old.files.items item).log }
        requires may { MayStart O.print_of start (item_in self.old.files.items item).log.past }
        requires at { item_of self.old.tree.entries own ≡ Some item }
        requires same { path ≡ own }
        requires file { own ≢ [] }
        ensures sound { IsSoundStore F.tells self.new }
        ensures later { IsUpTo by (histories self.new.files.items) }
        ensures one { TouchesOne item self.old.files.items self.new.files.items }
        ensures did { OpensBook F.tells by access (front_of O.print_of start) (named_by path start)
            (given_by O.print_of O.bytes start) (item_in self.old.files.items item)
            (item_in self.new.files.items item) result }
        ensures tree { OnOk result ((print : Option Fingerprint)
            × (self.new.tree.entries ≡ self.old.tree.entries
            ++ in_tree by (opened_kind (is_create start) own item print) ∷ [])
            × WasHeld (histories self.new.files.items) item
            (length (entries_in (histories self.old.files.items) item)
            + length (front_of O.print_of start)) print) }
        ensures files { OnOk result (histories self.new.files.items
            ≡ add_to (histories self.old.files.items) item
            (opening by access (item_in self.new.files.items item).slot.calls
            (front_of O.print_of start)) (named_by path start)) }
        ensures given { OnOk result (given_all self.new.files.items
            ≡ set (given_all self.old.files.items) item
            (given_by O.print_of O.bytes start ++ (item_in self.old.files.items item).pairs)) }
        ensures table { OnOk result (self.new.table.items ≡ set self.old.table.items handle
            (Some (record { item = item; access = access }))) }
        ensures limit { self.new.files.limit ≡ self.old.files.limit }
        ensures queue { self.new.files.queue ≡ self.old.files.queue }
        ensures reply { IfOk result (λ outcome. outcome.reply ≡ reply.Done) }
        ensures in_tree { IfOk result (λ outcome. outcome.tree
            ≡ Some (length self.old.tree.entries)) }
        ensures in_file { IfOk result (λ outcome. outcome.file ≡ Some (
          record { 0 = item },
          length (entries_in (histories self.old.files.items) item)
              + length (front_of O.print_of start),
        )) }
        ensures still { OnErr result (self.new.tree ≡ self.old.tree) }
        ensures shut { OnErr result (self.new.table.items ≡ self.old.table.items) }
        ensures same_files { OnErr result (histories self.new.files.items
            ≡ histories self.old.files.items) }
        ensures same_given { OnErr result (given_all self.new.files.items
            ≡ given_all self.old.files.items) }
    {
        let created = start.creates();
        match self.files.begin(item, by, path, start, access) {
            Ok(()) => Ok(self.note_open(by, handle, item, own, created, access)),
            Err(why) => Err(why),
        }
    }

    /// Makes the file of a path, begins it so and opens it, once the root was listed. Takes no
    /// memory of the session's own beside what was made room for.
    pub(crate) fn put_new<D: CacheDisk<File = F>>(
        &mut self,
        alloc: Global,
        disk: &mut D,
        by: By,
        handle: u8,
        text: String,
        own: VPath,
        path: VPath,
        start: Start<O>,
        access: Access,
    ) -> Result<Outcome, Refusal>
        requires sound { IsSoundStore F.tells self.old }
        requires lends { Lends D.tells (length self.old.files.items) (D.disk disk.old) }
        requires actor { by.who.actor ≡ Session 1 }
        requires pass { by.pass ≡ 0 }
        requires later { IsUpTo by (histories self.old.files.items) }
        requires closed { file_at self.old.table.items handle ≡ None }
        requires room { 2 ≤ self.old.tree.spare }
        requires absent { item_of self.old.tree.entries own ≡ None }
        requires same { path ≡ own }
        requires file { own ≢ [] }
        requires text { string_bytes text ≡ own }
        requires path_room { 0 < self.old.paths.spare }
        requires file_room { 0 < self.old.files.spare }
        requires limit { 4 ≤ self.old.files.limit }
        requires may { MayStart O.print_of start [] }
        ensures sound { IsSoundStore F.tells self.new }
        ensures lends { Lends D.tells (length self.new.files.items) (D.disk disk.new) }
        ensures later { IsUpTo by (histories self.new.files.items) }
        ensures faults { (D.disk disk.old).faults ≤ (D.disk disk.new).faults }
        ensures causes { IfErr result (λ why. ((why ≡ Refusal.DiskFault)
            × Rose (D.disk disk.old).faults (D.disk disk.new).faults)
            ⊎ (why ≡ Refusal.NoMemory)) }
        ensures tree { OnOk result ((print : Option Fingerprint)
            × (self.new.tree.entries ≡ self.old.tree.entries
            ++ in_tree by (opened_kind (is_create start) own
            (length self.old.files.items) print) ∷ [])
            × WasHeld (histories self.new.files.items) (length self.old.files.items)
            (length (front_of O.print_of start)) print) }
        ensures began { OnOk result ((new : Item)
            × (self.new.files.items ≡ self.old.files.items ++ new ∷ [])
            × IsBegun F.tells (length self.old.files.items) self.old.files.limit by access
            (front_of O.print_of start) (named_by path start)
            (given_by O.print_of O.bytes start) new) }
        ensures table { OnOk result (self.new.table.items ≡ set self.old.table.items handle
            (Some (record { item = length self.old.files.items; access = access }))) }
        ensures limit { self.new.files.limit ≡ self.old.files.limit }
        ensures queue { self.new.files.queue ≡ self.old.files.queue }
        ensures reply { IfOk result (λ outcome. outcome.reply ≡ reply.Done) }
        ensures in_tree { IfOk result (λ outcome. outcome.tree
            ≡ Some (length self.old.tree.entries)) }
        ensures in_file { IfOk result (λ outcome. outcome.file ≡ Some (
          record { 0 = length self.old.files.items },
          length (front_of O.print_of start),
        )) }
        ensures still { OnErr result (self.new.tree ≡ self.old.tree) }
        ensures shut { OnErr result (self.new.table.items ≡ self.old.table.items) }
        ensures same_files { OnErr result (self.new.files.items ≡ self.old.files.items) }
    {
        let created = start.creates();
        // each file has its entries in the tree
        let item = self.files.len().min(self.tree.len() as usize) as u32;
        let limit = self.files.limit();
        match begin_next(alloc, disk, item, limit, by, path, start, access) {
            Ok(file) => {
                self.files.add(file);
                self.paths.push(text);
                Ok(self.note_open(by, handle, item, own, created, access))
            }
            Err(why) => Err(why),
        }
    }
}
