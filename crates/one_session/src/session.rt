ghost use Rattle.std.specs.Prelude.{◌≡◌, ◌<◌, ◌≤◌, ◌+◌, ◌^◌, ℕ, List, [], map, length, reverse, false, OnOk, OnErr, IfOk, IfNone, IfSome};
ghost use Rattle.vfs_names.specs.declared.fingerprint.Fingerprint.{Fingerprint};
ghost use Rattle.vfs_names.specs.declared.who.Actor.TheVariants.{Main, Session};
ghost use Rattle.std.specs.List.{AllByRecursion};
ghost use Rattle.vfs_outside.specs.declared.tree.TreeEntry.{TreeEntry};
ghost use Rattle.downloaders.specs.Rules.{HasChunk};
ghost use Rattle.writeback_queue.specs.Legal.{IsNothingDue};
ghost use Rattle.session_text.specs.declared.reply.Record.{Record};
ghost use Rattle.one_session.specs.Causes.{AreGiven, AreSaved, HasRemoteCause};
ghost use Rattle.one_session.specs.Logs.{history_of};
ghost use Rattle.one_session.specs.Queued.{IsQueued, owed_in, queue_of};
ghost use Rattle.one_session.specs.Served.{Fits, IsServable, Knows, Served, Serves};
ghost use Rattle.one_session.specs.Sending.{SendsNext};
ghost use Rattle.one_session.specs.Slots.{ImagesStand, Lends};
ghost use Rattle.one_session.specs.Steps.{QueuesStep, TakesStep};
ghost use Rattle.one_session.specs.Views.{given_all, histories};
ghost use Rattle.one_session.specs.Whole.{IsUpTo, IsWhole};

use crate::files::Logs;
use crate::outcome::Outcome;
use crate::store::Store;
use crate::{EpochLog, Step};
use downloaders::Plan;
use item_upload::Ended;
use session_script::CallLine;
use session_text::Record;
use std::alloc::Global;
use std::marker::Model;
use std::snapshot::Snapshot;
use vfs_names::{By, NoMemory, QueueRow};
use vfs_outside::{CacheDisk, CacheFile, Object, Remote};
use writeback_queue::QueueTerms;

/// One session's calls. Contracts see its histories, its handles, its files and its records.
#[derive(Drop)]
pub struct OneSession<O: Object, F: CacheFile> {
    store: Store<O, F>,
    records: Vec<Record>,
    steps: Vec<Step<O, F>>,
}

impl<O: Object, F: CacheFile> Model for OneSession<O, F> {
    ghost use Rattle.std.specs.Prelude.{◌-◌, min, vec_len, vec_capacity};
    ghost use Rattle.one_session.specs.Standing.{IsSoundStore, state_of};
    ghost use Rattle.one_session.specs.State.{State};

    ghost Value = { State };

    ghost view = { λ s. state_of s.store s.records.items s.steps.items
        (min (vec_capacity s.records - vec_len s.records) (vec_capacity s.steps - vec_len s.steps)) };

    ghost invariant = { λ s. IsSoundStore F.tells s.store };
}

impl<O: Object, F: CacheFile> OneSession<O, F> {
    /// No call was served yet. Each history is to have at most `limit` places; the queue of files that wait for an upload
    /// is to keep to `terms`.
    pub fn new(alloc: Global, limit: u32, terms: QueueTerms) -> Result<OneSession<O, F>, NoMemory>
        requires small { terms.write_back ≤ 2 ^ 62 }
        ensures fits { (handed : List (Fingerprint × List ℕ))
            → IfOk result (λ s. Fits 1 (Knows F.tells O.tells handed) [] s) }
        ensures limit { IfOk result (λ s. s.limit ≡ limit) }
        ensures none { IfOk result (λ s. s.files ≡ []) }
        ensures tree { IfOk result (λ s. s.tree ≡ []) }
        ensures untouched { IfOk result (λ s. s.items ≡ []) }
        ensures steps { IfOk result (λ s. s.steps ≡ []) }
        ensures terms { IfOk result (λ s. s.terms ≡ terms) }
        ensures queue { IfOk result (λ s. s.queue ≡ []) }
    {
        match Store::new(alloc, limit, terms) {
            Ok(store) => Ok(OneSession {
                store,
                records: Vec::new(alloc),
                steps: Vec::new(alloc),
            }),
            Err(NoMemory) => Err(NoMemory),
        }
    }

    /// Makes room for the records of so many calls more.
    pub fn reserve(&mut self, calls: usize) -> Result<(), NoMemory>
        ensures ok { OnOk result (self.new ≡ record self.old { room = self.new.room }) }
        ensures room { OnOk result (calls ≤ self.new.room) }
        ensures err { OnErr result (self.new ≡ record self.old { room = self.new.room }) }
        ensures kept { self.old.room ≤ self.new.room }
    {
        match self.records.reserve(calls) {
            Ok(()) => match self.steps.reserve(calls) {
                Ok(()) => Ok(()),
                Err(_) => Err(NoMemory),
            },
            Err(_) => Err(NoMemory),
        }
    }

    /// Serves a call of the session: does it, and records its answer. Takes constant time beside the bytes and names that
    /// it handles, a look-up in the ranges of the file's bytes and the text of its metadata, but for the first open, which
    /// lists the root.
    pub fn serve<R: Remote<Object = O>, D: CacheDisk<File = F>>(
        &mut self,
        alloc: Global,
        remote: &mut R,
        disk: &mut D,
        plan: &Plan,
        by: By,
        line: &CallLine,
    )
        requires room { 0 < self.old.room }
        requires chunk { HasChunk plan.now.chunk }
        requires servable { IsServable line.now.call }
        requires session { line.now.session ≡ 1 }
        requires actor { by.who.actor ≡ Session 1 }
        requires pass { by.pass ≡ 0 }
        requires now { by.now ≤ 2 ^ 62 }
        requires later { IsUpTo by self.old.files }
        requires tree_later { AllByRecursion (λ (e : TreeEntry). e.by.who.phase ≤ by.who.phase)
            self.old.tree }
        requires lends { Lends D.tells (length self.old.files) (D.disk disk.old) }
        requires given { AreGiven O.tells (R.outside remote.old).handed (given_all self.old.items) }
        requires saved { AreSaved F.tells O.tells (R.outside remote.old).handed self.old.files }
        ensures served { (done : Record)
            × Serves 1 F.tells O.tells (R.outside remote.old).handed (R.outside remote.new).handed
            by line.now done self.old self.new
            × HasRemoteCause line.now.call done self.new.tree (R.outside remote.old)
            (R.outside remote.new)
            × TakesStep plan.now (D.disk disk.old).faults (D.disk disk.new).faults
            line.now.call done self.old self.new
            × QueuesStep by line.now.call done self.old self.new }
        ensures lends { Lends D.tells (length self.new.files) (D.disk disk.new) }
        ensures faults { (D.disk disk.old).faults ≤ (D.disk disk.new).faults }
        ensures given { AreGiven O.tells (R.outside remote.new).handed (given_all self.new.items) }
        ensures saved { AreSaved F.tells O.tells (R.outside remote.new).handed self.new.files }
        ensures later { IsUpTo by self.new.files }
        ensures room { self.old.room ≤ self.new.room + 1 }
    {
        let before = Snapshot::of(&self.store.files);
        let Outcome { reply, tree, file } = self
            .store
            .answer(alloc, remote, disk, plan, by, &line.call);
        let after = Snapshot::of(&self.store.files);
        let done = Record {
            line: line.line,
            reply,
            tree,
            file,
        };
        self.records.push(done).unwrap();
        self.steps.push(Step { before, after }).unwrap();
    }

    /// Uploads the file whose turn is first, where one is due at the maker's moment: its whole content, as the object at
    /// its path. One that fails waits again, for longer. Where memory for the queue is wanting none is uploaded. Takes a
    /// call on the store for each 131,072 bytes of the content, and a look-up of each file that waits.
    pub fn upload_next<R: Remote<Object = O>>(
        &mut self,
        alloc: Global,
        remote: &mut R,
        plan: &Plan,
        by: By,
    ) -> Result<Option<Ended>, NoMemory>
        requires actor { by.who.actor ≡ Main }
        requires pass { by.pass ≡ 0 }
        requires now { by.now ≤ 2 ^ 62 }
        requires later { IsUpTo by self.old.files }
        requires transfers { 0 < self.old.terms.transfers }
        requires chunk { HasChunk plan.now.chunk }
        requires given { AreGiven O.tells (R.outside remote.old).handed (given_all self.old.items) }
        requires saved { AreSaved F.tells O.tells (R.outside remote.old).handed self.old.files }
        ensures sent { IfOk result (λ ended. IfSome ended (SendsNext F.tells O.tells O.tells by
            self.old self.new (R.outside remote.old) (R.outside remote.new))) }
        ensures none { IfOk result (λ ended. IfNone ended (IsNothingDue
            self.old.terms.write_back (reverse self.old.queue) by.now)) }
        ensures still { IfOk result (λ ended. IfNone ended (self.new ≡ self.old)) }
        ensures uncalled { IfOk result (λ ended. IfNone ended
            (R.outside remote.new ≡ R.outside remote.old)) }
        ensures err { OnErr result (self.new ≡ self.old) }
        ensures err_uncalled { OnErr result (R.outside remote.new ≡ R.outside remote.old) }
        ensures fits { (served : List Served)
            → Fits 1 (Knows F.tells O.tells (R.outside remote.old).handed) served self.old
            → Fits 1 (Knows F.tells O.tells (R.outside remote.new).handed) served self.new }
        ensures given { AreGiven O.tells (R.outside remote.new).handed (given_all self.new.items) }
        ensures saved { AreSaved F.tells O.tells (R.outside remote.new).handed self.new.files }
        ensures later { IsUpTo by self.new.files }
        ensures count { length self.new.files ≡ length self.old.files }
    {
        self.store.upload_next(alloc, remote, plan, by)
    }

    /// The records of the calls so far, in their order.
    pub fn records(&self) -> &[Record]
        ensures { result.now ≡ self.now.records }
    {
        self.records.as_slice()
    }

    /// The rows of the files that wait for an upload, by their numbers. Each is looked up in the queue.
    pub fn queue_rows(&self, alloc: Global) -> Result<Vec<QueueRow>, NoMemory>
        ensures { IfOk result (λ rows. rows.items
            ≡ queue_of self.now.terms.write_back self.now.queue self.now.files) }
    {
        self.store.files.queue_rows(alloc)
    }

    /// The histories and the records, handed over, and each file given back to its slot; takes no memory. Where the disk
    /// tells, the image of each slot then stands, after any number of its calls, for the part of its file's history that was
    /// made by then.
    pub fn into_log<D: CacheDisk<File = F>>(self, disk: &mut D) -> EpochLog<O, F>
        requires lends { Lends D.tells (length self.files) (D.disk disk.old) }
        ensures tree { result.tree.items ≡ self.tree }
        ensures files { map history_of result.files.items ≡ self.files }
        ensures told { self.files ≡ histories self.items }
        ensures queue { result.queue.items ≡ self.queue }
        ensures queued { IsQueued self.terms (owed_in self.files) self.queue }
        ensures records { result.records.items ≡ self.records }
        ensures steps { result.steps.items ≡ self.steps }
        ensures whole { IsWhole 1 self.tree self.files }
        ensures back { (slot : ℕ) → (D.disk disk.new).out slot ≡ false }
        ensures faults { (D.disk disk.old).faults ≤ (D.disk disk.new).faults }
        ensures images { D.tells → (handed : List (Fingerprint × List ℕ))
            → AreGiven O.tells handed (given_all self.items) → AreSaved F.tells O.tells handed self.files
            → ImagesStand O.tells handed (D.disk disk.new) self.files }
    {
        let OneSession {
            store,
            records,
            steps,
        } = self;
        let Store { tree, files, .. } = store;
        let Logs { files, queue } = files.into_logs(disk);
        EpochLog {
            tree: tree.into_entries(),
            files,
            queue,
            records,
            steps,
        }
    }
}
