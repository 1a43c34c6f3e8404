ghost use Rattle.std.specs.Prelude.{◌≡◌, ◌≢◌, ◌⊎◌, ◌<◌, ◌≤◌, ◌+◌, ◌-◌, ◌^◌, ◌↔◌, ◌++◌, ◌||◌, ℕ, [], ◌∷◌, true, false, nat_lt, length, map, reverse, OnOk, IfOk, IfErr, IfNone, IfSome, IsOk, Err, OnErr, vec_len, vec_capacity};
ghost use Rattle.downloaders.specs.Rules.{HasChunk};
ghost use Rattle.item_core.specs.History.{held_by, is_dirty, is_kept, is_owed, opens_by, opens_of};
ghost use Rattle.item_core.specs.Log.{free};
ghost use Rattle.one_session.specs.Books.{ClosesBook, OpensBook, ReadsBook, SizesBook, TouchesOne, WritesBook};
ghost use Rattle.std.specs.List.{AllByRecursion};
ghost use Rattle.item_core.specs.Legal.{IsLegal};
ghost use Rattle.vfs_outside.specs.Disk.{SetsOut};
ghost use Rattle.one_session.specs.Calls.{free_in};
ghost use Rattle.one_session.specs.Logs.{history_of};
ghost use Rattle.one_session.specs.Queued.{IsQueued, owed_in, queue_news, queue_of};
ghost use Rattle.one_session.specs.Slots.{IsSoundItem, ItemStands, Lends};
ghost use Rattle.one_session.specs.Start.{MayStart, front_of, given_by, named_by};
ghost use Rattle.one_session.specs.State.{History, entries_in};
ghost use Rattle.one_session.specs.Turns.{TakesTurn};
ghost use Rattle.one_session.specs.Views.{given_all, histories, item_in, stored};
ghost use Rattle.writeback_queue.specs.Queue.{IsIdle};
ghost use Rattle.sparse_item.specs.Sound.{is_begun};

use crate::log::FileLog;
use crate::queue::{begins, rests, rows_of, settle_close, settle_turn, withdraw};
use crate::start::{Start, begin};
use crate::turn::{Turn, send};
use base_object::BaseState;
use downloaders::Plan;
use sparse_item::{ItemBook, Parts};
use std::alloc::Global;
use std::marker::Model;
use vfs_names::{Access, At, Blob, By, Fingerprint, NoMemory, Payload, QueueRow, Refusal, VPath};
use vfs_outside::{CacheDisk, CacheFile, Object, Remote};
use writeback_queue::{QueueBook, QueueEntry, QueueTerms};

/// The places of the queue that a close may need.
const PLACES: u32 = 2;

/// The files of the session, by number, and the queue of those that wait for an upload. Contracts see what each tells.
#[derive(Drop)]
pub(crate) struct Files<O: Object, F: CacheFile> {
    pub(crate) files: Vec<ItemBook<O, F>>,
    pub(crate) logs: Vec<FileLog>,
    pub(crate) queue: QueueBook,
    limit: u32,
}

impl<O: Object, F: CacheFile> Model for Files<O, F> {
    ghost use Rattle.std.specs.Prelude.{◌≡◌, ◌≤◌, ◌-◌, ◌^◌, [], min, vec_len, vec_capacity};
    ghost use Rattle.std.specs.List.{AllByRecursion};
    ghost use Rattle.sparse_item.specs.Item.{Item};
    ghost use Rattle.one_session.specs.Queued.{IsQueued, owed_item};
    ghost use Rattle.one_session.specs.Views.{Shelf};

    ghost Value = { Shelf };

    ghost view = { λ f. record {
      items = f.files.items;
      limit = f.limit;
      queue = f.queue;
      spare = min (vec_capacity f.files) (vec_capacity f.logs) - vec_len f.files;
    } };

    ghost invariant = { λ f. (f.logs.items ≡ []) × (vec_len f.files ≤ vec_capacity f.logs)
        × AllByRecursion (λ (item : Item). item.log.limit ≡ f.limit) f.files.items
        × IsQueued f.queue.terms (owed_item f.files.items) f.queue.entries
        × (f.queue.terms.write_back ≤ 2 ^ 62) };
}

impl<O: Object, F: CacheFile> Files<O, F> {
    /// No files. Each is to have at most `limit` places; takes no memory.
    pub(crate) fn new(alloc: Global, limit: u32, terms: QueueTerms) -> Files<O, F>
        requires small { terms.write_back ≤ 2 ^ 62 }
        ensures items { result.items ≡ [] }
        ensures limit { result.limit ≡ limit }
        ensures terms { result.queue.terms ≡ terms }
        ensures queue { result.queue.entries ≡ [] }
    {
        let QueueTerms {
            write_back,
            transfers,
        } = terms;
        Files {
            files: Vec::new(alloc),
            logs: Vec::new(alloc),
            queue: QueueBook::new(alloc, write_back, transfers),
            limit,
        }
    }

    /// How many files there are.
    pub(crate) fn len(&self) -> usize
        ensures { result ≡ length self.now.items }
    {
        self.files.len()
    }

    /// The most places of a file.
    pub(crate) fn limit(&self) -> u32
        ensures { result ≡ self.now.limit }
    {
        self.limit
    }

    /// Makes room for one more file.
    pub(crate) fn reserve_file(&mut self) -> Result<(), NoMemory>
        ensures ok { OnOk result (0 < self.new.spare) }
        ensures items { self.new.items ≡ self.old.items }
        ensures limit { self.new.limit ≡ self.old.limit }
        ensures queue { self.new.queue ≡ self.old.queue }
    {
        let Ok(()) = self.files.reserve(1) else {
            return Err(NoMemory);
        };
        let count = self.files.len();
        match self.logs.reserve(count + 1) {
            Ok(()) => Ok(()),
            Err(_) => Err(NoMemory),
        }
    }

    /// Puts a file at the end that doesn't wait for an upload, for which room was made.
    pub(crate) fn add(&mut self, file: ItemBook<O, F>)
        requires spare { 0 < self.old.spare }
        requires limit { file.log.limit ≡ self.old.limit }
        requires owed { is_owed file.log.past ≡ false }
        ensures items { self.new.items ≡ self.old.items ++ file ∷ [] }
        ensures limit { self.new.limit ≡ self.old.limit }
        ensures queue { self.new.queue ≡ self.old.queue }
    {
        self.files.push(file).unwrap();
    }

    /// Makes room for `n` entries of a file.
    pub(crate) fn reserve(&mut self, item: u32, n: u32) -> Result<(), Refusal>
        requires inside { item < length self.old.items }
        ensures room { OnOk result (n ≤ (item_in self.new.items item).log.spare) }
        ensures free { OnOk result (n ≤ free (item_in self.new.items item).log) }
        ensures files { histories self.new.items ≡ histories self.old.items }
        ensures given { given_all self.new.items ≡ given_all self.old.items }
        ensures one { TouchesOne item self.old.items self.new.items }
        ensures same { item_in self.new.items item ≡ record (item_in self.old.items item) {
          log = (item_in self.new.items item).log;
        } }
        ensures places { (item_in self.new.items item).log.limit
            ≡ (item_in self.old.items item).log.limit }
        ensures limit { self.new.limit ≡ self.old.limit }
        ensures queue { self.new.queue ≡ self.old.queue }
        ensures full { (result ≡ Err Refusal.HistoryFull)
            → free_in self.old.limit (entries_in (histories self.old.items) item) < n }
        ensures causes { IfErr result (λ why. (why ≡ Refusal.HistoryFull)
            ⊎ (why ≡ Refusal.NoMemory)) }
    {
        self.files[item as usize].reserve(n)
    }

    /// A file has content that no upload saved, or an open handle.
    pub(crate) fn is_used(&self, item: u32) -> bool
        requires inside { item < length self.now.items }
        ensures { result ≡ (is_dirty (reverse (entries_in (histories self.now.items) item))
            || nat_lt 0 (opens_of (reverse (entries_in (histories self.now.items) item)))) }
    {
        self.files[item as usize].is_used()
    }

    /// The fingerprint of the object that a file holds.
    pub(crate) fn held(&self, item: u32) -> Option<Fingerprint>
        requires inside { item < length self.now.items }
        ensures { result ≡ held_by (reverse (entries_in (histories self.now.items) item)) }
    {
        self.files[item as usize].held()
    }

    /// The object that a file holds is there.
    pub(crate) fn is_bound(&self, item: u32) -> bool
        requires inside { item < length self.now.items }
    {
        match self.files[item as usize].base_state() {
            BaseState::Bound(_) => true,
            BaseState::Absent => false,
            BaseState::Unbound(_) => false,
            BaseState::Lost { .. } => false,
        }
    }

    /// How many entries a file has.
    pub(crate) fn end(&self, item: u32) -> u32
        requires inside { item < length self.now.items }
        ensures { result ≡ length (entries_in (histories self.now.items) item) }
    {
        self.files[item as usize].len()
    }
}

impl<O: Object, F: CacheFile> Files<O, F> {
    /// Begins a file and opens it, for which four places were made.
    pub(crate) fn begin(
        &mut self,
        item: u32,
        by: By,
        path: VPath,
        start: Start<O>,
        access: Access,
    ) -> Result<(), Refusal>
        requires inside { item < length self.old.items }
        requires room { 4 ≤ (item_in self.old.items item).log.spare }
        requires places { 4 ≤ free (item_in self.old.items item).log }
        requires file { path ≢ [] }
        requires may { MayStart O.print_of start (item_in self.old.items item).log.past }
        requires begun { start ≡ Start.Kept → is_begun (item_in self.old.items item).log.past ≡ true }
        ensures did { OpensBook F.tells by access (front_of O.print_of start) (named_by path start)
            (given_by O.print_of O.bytes start) (item_in self.old.items item)
            (item_in self.new.items item) result }
        ensures one { TouchesOne item self.old.items self.new.items }
        ensures limit { self.new.limit ≡ self.old.limit }
        ensures queue { self.new.queue ≡ self.old.queue }
    {
        begin(&mut self.files[item as usize], by, path, start, access)
    }

    /// Closes a handle of a file; whether there still is content that no upload saved. Takes memory for the queue before
    /// anything is done, and where that is wanting the handle stays open.
    pub(crate) fn close_handle(&mut self, item: u32, by: By) -> Result<bool, NoMemory>
        requires inside { item < length self.old.items }
        requires tree { by.tree ≡ true }
        requires now { by.now ≤ 2 ^ 62 }
        requires open { 0 < opens_by by.pass (item_in self.old.items item).log.past }
        ensures dirty { IfOk result (λ dirty. dirty ≡ is_dirty (item_in self.old.items item).log.past) }
        ensures did { OnOk result (ClosesBook F.tells by (item_in self.old.items item)
            (item_in self.new.items item)) }
        ensures one { OnOk result (TouchesOne item self.old.items self.new.items) }
        ensures limit { self.new.limit ≡ self.old.limit }
        ensures queue { OnOk result (self.new.queue.entries ≡ self.old.queue.entries
            ++ queue_news self.old.queue.terms.write_back by item
            (item_in self.old.items item).log.past (item_in self.new.items item).log.past) }
        ensures terms { self.new.queue.terms ≡ self.old.queue.terms }
        ensures still { OnErr result (self.new ≡ self.old) }
    {
        let Ok(()) = self.queue.reserve(PLACES) else {
            return Err(NoMemory);
        };
        let opens = self.files[item as usize].opens();
        let dirty = self.files[item as usize].close_handle(by);
        settle_close(&mut self.queue, by, item, rests(opens, dirty));
        Ok(dirty)
    }

    /// The bytes of a file from `pos` to the lesser of `pos + len` and its size.
    pub(crate) fn read(
        &mut self,
        plan: &Plan,
        item: u32,
        by: By,
        pos: u64,
        len: u64,
    ) -> Result<Blob, Refusal>
        requires inside { item < length self.old.items }
        requires chunk { HasChunk plan.now.chunk }
        requires open { 0 < opens_by by.pass (item_in self.old.items item).log.past }
        ensures did { ReadsBook F.tells O.tells plan.now by pos len (item_in self.old.items item)
            (item_in self.new.items item) result }
        ensures one { TouchesOne item self.old.items self.new.items }
        ensures limit { self.new.limit ≡ self.old.limit }
        ensures queue { self.new.queue ≡ self.old.queue }
    {
        self.files[item as usize].read(plan, by, pos, len)
    }

    /// Writes a payload into a file; how many bytes.
    pub(crate) fn write(
        &mut self,
        item: u32,
        by: By,
        pos: u64,
        payload: Payload,
    ) -> Result<u32, Refusal>
        requires inside { item < length self.old.items }
        requires open { 0 < opens_by by.pass (item_in self.old.items item).log.past }
        ensures did { WritesBook F.tells by pos payload (item_in self.old.items item)
            (item_in self.new.items item) result }
        ensures one { TouchesOne item self.old.items self.new.items }
        ensures limit { self.new.limit ≡ self.old.limit }
        ensures queue { OnOk result (self.new.queue.entries ≡ self.old.queue.entries
            ++ queue_news self.old.queue.terms.write_back by item
            (item_in self.old.items item).log.past (item_in self.new.items item).log.past) }
        ensures terms { self.new.queue.terms ≡ self.old.queue.terms }
        ensures still { OnErr result (self.new.queue.entries ≡ self.old.queue.entries) }
    {
        let wrote = self.files[item as usize].write(by, At::Pos(pos), payload);
        withdraw(&mut self.queue, by, item, begins(&wrote));
        wrote
    }

    /// Sets the size of a file.
    pub(crate) fn set_size(&mut self, item: u32, by: By, size: u64) -> Result<(), Refusal>
        requires inside { item < length self.old.items }
        requires kept { is_kept (item_in self.old.items item).log.past ≡ true }
        requires open { 0 < opens_by by.pass (item_in self.old.items item).log.past }
        ensures did { SizesBook F.tells by size (item_in self.old.items item)
            (item_in self.new.items item) result }
        ensures one { TouchesOne item self.old.items self.new.items }
        ensures limit { self.new.limit ≡ self.old.limit }
        ensures queue { OnOk result (self.new.queue.entries ≡ self.old.queue.entries
            ++ queue_news self.old.queue.terms.write_back by item
            (item_in self.old.items item).log.past (item_in self.new.items item).log.past) }
        ensures terms { self.new.queue.terms ≡ self.old.queue.terms }
        ensures still { OnErr result (self.new.queue.entries ≡ self.old.queue.entries) }
    {
        let sized = self.files[item as usize].set_size(by, size);
        withdraw(&mut self.queue, by, item, sized.is_ok());
        sized
    }
}

impl<O: Object, F: CacheFile> Files<O, F> {
    /// Uploads the file whose turn is first, where one is due, to the object at its path. For what is said of it in the
    /// tree room was made or not. Where memory for the queue is wanting no turn is taken.
    pub(crate) fn upload_next<R: Remote<Object = O>>(
        &mut self,
        alloc: Global,
        remote: &mut R,
        plan: &Plan,
        by: By,
        ready: Result<(), Refusal>,
    ) -> Result<Option<Turn>, NoMemory>
        requires now { by.now ≤ 2 ^ 62 }
        requires transfers { 0 < self.old.queue.terms.transfers }
        requires chunk { HasChunk plan.now.chunk }
        requires kept { (n : ℕ) → n < length self.old.items
            → is_kept (item_in self.old.items n).log.past ≡ true }
        requires begun { (n : ℕ) → n < length self.old.items
            → is_begun (item_in self.old.items n).log.past ≡ true }
        requires causes { IfErr ready (λ why. (why ≡ Refusal.HistoryFull)
            ⊎ (why ≡ Refusal.NoMemory)) }
        ensures turn { IfOk result (λ turn. IfSome turn (TakesTurn F.tells R.tells O.tells by
            (ready ≡ Err Refusal.HistoryFull) (IsOk ready) self.old self.new
            (R.outside remote.old) (R.outside remote.new))) }
        ensures none { IfOk result (λ turn. IfNone turn (IsIdle self.old.queue by.now)) }
        ensures still { IfOk result (λ turn. IfNone turn (R.outside remote.new ≡ R.outside remote.old)) }
        ensures items { IfOk result (λ turn. IfNone turn (self.new.items ≡ self.old.items)) }
        ensures queue { IfOk result (λ turn. IfNone turn
            (self.new.queue.entries ≡ self.old.queue.entries)) }
        ensures err { OnErr result (self.new ≡ self.old) }
        ensures err_still { OnErr result (R.outside remote.new ≡ R.outside remote.old) }
        ensures limit { self.new.limit ≡ self.old.limit }
        ensures terms { self.new.queue.terms ≡ self.old.queue.terms }
    {
        let Ok(()) = self.queue.reserve(PLACES) else {
            return Err(NoMemory);
        };
        match self.queue.take(by) {
            Some(item) => {
                let file = &mut self.files[item.0 as usize];
                let turn = send(alloc, file, remote, plan, by, ready);
                settle_turn(&mut self.queue, by, item.0, turn.is_stored());
                Ok(Some(turn))
            }
            None => Ok(None),
        }
    }
}

impl<O: Object, F: CacheFile> Files<O, F> {
    /// The rows of the files that wait for an upload, by their numbers. Looks each up in the queue.
    pub(crate) fn queue_rows(&self, alloc: Global) -> Result<Vec<QueueRow>, NoMemory>
        ensures { IfOk result (λ rows. rows.items ≡ queue_of self.now.queue.terms.write_back
            self.now.queue.entries (histories self.now.items)) }
    {
        rows_of(alloc, &self.queue, &self.files)
    }

    /// The histories of the files and of the queue, handed over, and each file given back to its slot; takes no memory.
    pub(crate) fn into_logs<D: CacheDisk<File = F>>(self, disk: &mut D) -> Logs
        requires lends { Lends D.tells (length self.items) (D.disk disk.old) }
        requires items { (n : ℕ) → n < length self.items
            → IsSoundItem F.tells self.limit n (item_in self.items n) }
        ensures files { map history_of result.files.items ≡ histories self.items }
        ensures queue { result.queue.items ≡ self.queue.entries }
        ensures queued { IsQueued self.queue.terms (owed_in (histories self.items)) self.queue.entries }
        ensures legal { AllByRecursion (λ (file : History). IsLegal
            (reverse file.entries)) (histories self.items) }
        ensures back { (slot : ℕ) → (D.disk disk.new).out slot ≡ false }
        ensures faults { (D.disk disk.old).faults ≤ (D.disk disk.new).faults }
        ensures images { D.tells → (n : ℕ) → n < length self.items → ItemStands O.tells
            (item_in self.items n) ((D.disk disk.new).shelf n).now }
    {
        let Files {
            files,
            logs,
            queue,
            ..
        } = self;
        Logs {
            files: logs_of(files, logs, disk),
            queue: queue.into_entries(),
        }
    }
}

/// The histories of the files, and that of the queue.
#[derive(Drop)]
pub(crate) struct Logs {
    pub(crate) files: Vec<FileLog>,
    pub(crate) queue: Vec<QueueEntry>,
}

/// The histories of the files, in a list for which room was made; each file is given back to its slot.
fn logs_of<O: Object, D: CacheDisk>(
    files: Vec<ItemBook<O, D::File>>,
    logs: Vec<FileLog>,
    disk: &mut D,
) -> Vec<FileLog>
    requires none { logs.items ≡ [] }
    requires room { vec_len files ≤ vec_capacity logs }
    requires lends { Lends D.tells (length files.items) (D.disk disk.old) }
    requires items { (limit : ℕ) × ((n : ℕ) → n < length files.items
        → IsSoundItem D.File.tells limit n (item_in files.items n)) }
    ensures files { map history_of result.items ≡ map stored files.items }
    ensures legal { AllByRecursion (λ (file : History). IsLegal (reverse file.entries))
        (map stored files.items) }
    ensures back { (slot : ℕ) → (D.disk disk.new).out slot ≡ false }
    ensures faults { (D.disk disk.old).faults ≤ (D.disk disk.new).faults }
    ensures images { D.tells → (n : ℕ) → n < length files.items → ItemStands O.tells
        (item_in files.items n) ((D.disk disk.new).shelf n).now }
{
    let mut logs = logs;
    for file in files {
        logs.push(return_item(file, disk)).unwrap();
    }
    logs
}

/// The history of a file, which is given back to its slot.
fn return_item<O: Object, D: CacheDisk>(file: ItemBook<O, D::File>, disk: &mut D) -> FileLog
    requires out { (D.disk disk.old).out file.slot_id.0 ≡ true }
    requires sound { (n : ℕ) × (limit : ℕ) × IsSoundItem D.File.tells limit n file }
    ensures log { history_of result ≡ stored file }
    ensures legal { IsLegal file.log.past }
    ensures out { SetsOut file.slot_id.0 false (D.disk disk.old) (D.disk disk.new) }
    ensures faults { (D.disk disk.old).faults ≤ (D.disk disk.new).faults }
    ensures stands { D.tells → ItemStands O.tells file ((D.disk disk.new).shelf file.slot_id.0).now }
    ensures others { D.tells → (slot : ℕ) → slot ≢ file.slot_id.0
        → (D.disk disk.new).shelf slot ≡ (D.disk disk.old).shelf slot }
{
    file.images();
    let slot = file.slot_id();
    let Parts {
        file,
        entries,
        names,
    } = file.into_parts();
    disk.give_back(slot.0, file);
    FileLog { entries, names }
}
