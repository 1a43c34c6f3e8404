ghost use Rattle.std.specs.Prelude.{◌≡◌, ◌≢◌, ◌<◌, ◌≤◌, ◌^◌, ℕ, List, [], None, length, IfOk};
ghost use Rattle.vfs_names.specs.declared.fingerprint.Fingerprint.{Fingerprint};
ghost use Rattle.vfs_names.specs.declared.who.Actor.TheVariants.{Session};
ghost use Rattle.downloaders.specs.Rules.{HasChunk};
ghost use Rattle.downloaders.specs.declared.Plan.{Plan as Rules};
ghost use Rattle.session_script.specs.declared.call.Call.TheVariants as call;
ghost use Rattle.one_session.specs.Causes.{AreGiven, AreSaved};
ghost use Rattle.one_session.specs.Served.{IsServable, Knows};
ghost use Rattle.one_session.specs.Slots.{Lends};
ghost use Rattle.one_session.specs.Standing.{Answered, IsCaused, IsSoundStore, Queued, Stepped};
ghost use Rattle.one_session.specs.State.{file_at};
ghost use Rattle.one_session.specs.Views.{given_all, histories};
ghost use Rattle.one_session.specs.Whole.{IsUpTo};

use crate::copy::copy_of;
use crate::files::Files;
use crate::handle::Handle;
use crate::outcome::Outcome;
use crate::paths::Paths;
use crate::tree::Tree;
use downloaders::Plan;
use session_script::Call;
use session_text::Reply;
use std::alloc::Global;
use vfs_names::{Access, By, ItemId, NoMemory, Payload, Refusal};
use vfs_outside::{CacheDisk, CacheFile, Object, Remote, TreeEntry, TreeKind};
use writeback_queue::QueueTerms;

/// The longest write, in bytes.
const LENGTH_LIMIT: u64 = 131_072;

/// The end of the longest file, in bytes.
const SIZE_LIMIT: u64 = 1 << 40;

/// What is kept for a session beside the records of its calls: the tree's history, the paths of the files, the files, and
/// what each handle has open.
#[derive(Drop)]
pub(crate) struct Store<O: Object, F: CacheFile> {
    pub(crate) tree: Tree,
    pub(crate) paths: Paths,
    pub(crate) files: Files<O, F>,
    pub(crate) table: Vec<Option<Handle>>,
}

impl<O: Object, F: CacheFile> Store<O, F> {
    /// Nothing was called yet. Each history is to have at most `limit` places.
    pub(crate) fn new(alloc: Global, limit: u32, terms: QueueTerms) -> Result<Store<O, F>, NoMemory>
        requires small { terms.write_back ≤ 2 ^ 62 }
        ensures sound { IfOk result (λ s. IsSoundStore F.tells s) }
        ensures tree { IfOk result (λ s. s.tree.entries ≡ []) }
        ensures files { IfOk result (λ s. s.files.items ≡ []) }
        ensures limit { IfOk result (λ s. s.files.limit ≡ limit) }
        ensures terms { IfOk result (λ s. s.files.queue.terms ≡ terms) }
        ensures queue { IfOk result (λ s. s.files.queue.entries ≡ []) }
        ensures handles { IfOk result (λ s. (handle : ℕ) → file_at s.table.items handle ≡ None) }
    {
        let Ok(table) = vec![in alloc; None; 256] else {
            return Err(NoMemory);
        };
        Ok(Store {
            tree: Tree::new(alloc, limit),
            paths: Paths::new(alloc),
            files: Files::new(alloc, limit, terms),
            table,
        })
    }

    /// What a handle has open.
    pub(crate) fn file_of(&self, handle: u8) -> Option<Handle>
        requires { length self.now.table.items ≡ 256 }
        ensures { result ≡ file_at self.now.table.items handle }
    {
        self.table[handle as usize]
    }

    /// The bytes that a handle's file has from `pos` on, at most `len`.
    pub(crate) fn read(&mut self, plan: &Plan, by: By, handle: u8, pos: u64, len: u64) -> Outcome
        requires sound { IsSoundStore F.tells self.old }
        requires actor { by.who.actor ≡ Session 1 }
        requires pass { by.pass ≡ 0 }
        requires later { IsUpTo by (histories self.old.files.items) }
        requires chunk { HasChunk plan.now.chunk }
        ensures sound { IsSoundStore F.tells self.new }
        ensures count { length self.new.files.items ≡ length self.old.files.items }
        ensures later { IsUpTo by (histories self.new.files.items) }
        ensures did { (handed : List (Fingerprint × List ℕ))
            → AreGiven O.tells handed (given_all self.old.files.items)
            → AreSaved F.tells O.tells handed (histories self.old.files.items)
            → Answered (Knows F.tells O.tells handed) by (call.Read handle pos len) result self.old self.new }
        ensures given { given_all self.new.files.items ≡ given_all self.old.files.items }
        ensures stepped { Stepped plan.now 0 0 (call.Read handle pos len) result self.old self.new }
        ensures queue { self.new.files.queue ≡ self.old.files.queue }
    {
        let Some(opened) = self.file_of(handle) else {
            return Outcome::bare(Refusal::BadHandle);
        };
        let place = self.files.end(opened.item);
        let file = Some((ItemId(opened.item), place));
        let by = By { tree: false, ..by };
        match self.files.read(plan, opened.item, by, pos, len) {
            Ok(found) => Outcome::of_file(Reply::Bytes(found), file),
            Err(why) => Outcome::of_refusal(why, file),
        }
    }

    /// Writes a payload into a handle's file.
    pub(crate) fn write(
        &mut self,
        alloc: Global,
        by: By,
        handle: u8,
        pos: u64,
        payload: &Payload,
    ) -> Outcome
        requires sound { IsSoundStore F.tells self.old }
        requires actor { by.who.actor ≡ Session 1 }
        requires pass { by.pass ≡ 0 }
        requires later { IsUpTo by (histories self.old.files.items) }
        ensures sound { IsSoundStore F.tells self.new }
        ensures count { length self.new.files.items ≡ length self.old.files.items }
        ensures later { IsUpTo by (histories self.new.files.items) }
        ensures did { (handed : List (Fingerprint × List ℕ))
            → AreGiven O.tells handed (given_all self.old.files.items)
            → Answered (Knows F.tells O.tells handed) by (call.Write handle pos payload.now) result self.old self.new }
        ensures given { given_all self.new.files.items ≡ given_all self.old.files.items }
        ensures stepped { (plan : Rules) → Stepped plan 0 0 (call.Write handle pos payload.now) result self.old self.new }
        ensures queued { Queued by (call.Write handle pos payload.now) result self.old self.new }
        ensures terms { self.new.files.queue.terms ≡ self.old.files.queue.terms }
    {
        let Some(opened) = self.file_of(handle) else {
            return Outcome::bare(Refusal::BadHandle);
        };
        if opened.access == Access::Read {
            return Outcome::bare(Refusal::NotWritable);
        }
        let len = payload.len();
        if len > LENGTH_LIMIT || pos > SIZE_LIMIT - len {
            return Outcome::bare(Refusal::TooBig);
        }
        let place = self.files.end(opened.item);
        let file = Some((ItemId(opened.item), place));
        let Ok(payload) = copy_of(alloc, payload) else {
            return Outcome::bare(Refusal::NoMemory);
        };
        let by = By { tree: false, ..by };
        match self.files.write(opened.item, by, pos, payload) {
            Ok(n) => Outcome::of_file(Reply::Wrote(n), file),
            Err(why) => Outcome::of_refusal(why, file),
        }
    }

    /// Sets the size of a handle's file.
    pub(crate) fn set_size(&mut self, by: By, handle: u8, size: u64) -> Outcome
        requires sound { IsSoundStore F.tells self.old }
        requires actor { by.who.actor ≡ Session 1 }
        requires pass { by.pass ≡ 0 }
        requires later { IsUpTo by (histories self.old.files.items) }
        ensures sound { IsSoundStore F.tells self.new }
        ensures count { length self.new.files.items ≡ length self.old.files.items }
        ensures later { IsUpTo by (histories self.new.files.items) }
        ensures did { (handed : List (Fingerprint × List ℕ))
            → AreGiven O.tells handed (given_all self.old.files.items)
            → Answered (Knows F.tells O.tells handed) by (call.Size handle size) result self.old self.new }
        ensures given { given_all self.new.files.items ≡ given_all self.old.files.items }
        ensures stepped { (plan : Rules) → Stepped plan 0 0 (call.Size handle size) result self.old self.new }
        ensures queued { Queued by (call.Size handle size) result self.old self.new }
        ensures terms { self.new.files.queue.terms ≡ self.old.files.queue.terms }
    {
        let Some(opened) = self.file_of(handle) else {
            return Outcome::bare(Refusal::BadHandle);
        };
        if opened.access == Access::Read {
            return Outcome::bare(Refusal::NotWritable);
        }
        let place = self.files.end(opened.item);
        let file = Some((ItemId(opened.item), place));
        let by = By { tree: false, ..by };
        match self.files.set_size(opened.item, by, size) {
            Ok(()) => Outcome::of_file(Reply::Done, file),
            Err(why) => Outcome::of_refusal(why, file),
        }
    }

    /// Closes a handle. Takes memory for the queue before anything is done, and where that is wanting the handle stays open.
    pub(crate) fn close(&mut self, by: By, handle: u8) -> Outcome
        requires sound { IsSoundStore F.tells self.old }
        requires actor { by.who.actor ≡ Session 1 }
        requires pass { by.pass ≡ 0 }
        requires now { by.now ≤ 2 ^ 62 }
        requires later { IsUpTo by (histories self.old.files.items) }
        ensures sound { IsSoundStore F.tells self.new }
        ensures count { length self.new.files.items ≡ length self.old.files.items }
        ensures later { IsUpTo by (histories self.new.files.items) }
        ensures did { (handed : List (Fingerprint × List ℕ))
            → AreGiven O.tells handed (given_all self.old.files.items)
            → Answered (Knows F.tells O.tells handed) by (call.Close handle) result self.old self.new }
        ensures given { given_all self.new.files.items ≡ given_all self.old.files.items }
        ensures stepped { (plan : Rules) → Stepped plan 0 0 (call.Close handle) result self.old self.new }
        ensures queued { Queued by (call.Close handle) result self.old self.new }
        ensures terms { self.new.files.queue.terms ≡ self.old.files.queue.terms }
    {
        let Some(opened) = self.file_of(handle) else {
            return Outcome::bare(Refusal::BadHandle);
        };
        let item = ItemId(opened.item);
        let in_tree = self.tree.len();
        let in_file = self.files.end(opened.item);
        let under = By { tree: true, ..by };
        let Ok(dirty) = self.files.close_handle(opened.item, under) else {
            return Outcome::bare(Refusal::NoMemory);
        };
        let kind = TreeKind::Closed { item, dirty };
        self.tree.push(TreeEntry { by, kind });
        self.table[handle as usize] = None;
        Outcome {
            reply: Reply::Done,
            tree: Some(in_tree),
            file: Some((item, in_file)),
        }
    }

    /// Answers a call.
    pub(crate) fn answer<R: Remote<Object = O>, D: CacheDisk<File = F>>(
        &mut self,
        alloc: Global,
        remote: &mut R,
        disk: &mut D,
        plan: &Plan,
        by: By,
        call: &Call,
    ) -> Outcome
        requires sound { IsSoundStore F.tells self.old }
        requires lends { Lends D.tells (length self.old.files.items) (D.disk disk.old) }
        requires chunk { HasChunk plan.now.chunk }
        requires servable { IsServable call.now }
        requires actor { by.who.actor ≡ Session 1 }
        requires pass { by.pass ≡ 0 }
        requires now { by.now ≤ 2 ^ 62 }
        requires later { IsUpTo by (histories self.old.files.items) }
        ensures sound { IsSoundStore F.tells self.new }
        ensures lends { Lends D.tells (length self.new.files.items) (D.disk disk.new) }
        ensures faults { (D.disk disk.old).faults ≤ (D.disk disk.new).faults }
        ensures later { IsUpTo by (histories self.new.files.items) }
        ensures did { AreGiven O.tells (R.outside remote.old).handed (given_all self.old.files.items)
            → AreSaved F.tells O.tells (R.outside remote.old).handed (histories self.old.files.items)
            → Answered (Knows F.tells O.tells (R.outside remote.new).handed) by call.now result self.old self.new }
        ensures given { AreGiven O.tells (R.outside remote.old).handed (given_all self.old.files.items)
            → AreGiven O.tells (R.outside remote.new).handed (given_all self.new.files.items) }
        ensures cause { IsCaused call.now result self.new (R.outside remote.old) (R.outside remote.new) }
        ensures stepped { Stepped plan.now (D.disk disk.old).faults (D.disk disk.new).faults
            call.now result self.old self.new }
        ensures queued { Queued by call.now result self.old self.new }
        ensures terms { self.new.files.queue.terms ≡ self.old.files.queue.terms }
    {
        match call {
            Call::Open { h, path, how } => self.open(alloc, remote, disk, by, *h, path, *how),
            Call::Read { h, pos, len } => self.read(plan, by, *h, *pos, *len),
            Call::Write { h, pos, payload } => self.write(alloc, by, *h, *pos, payload),
            Call::Size { h, size } => self.set_size(by, *h, *size),
            Call::Close { h } => self.close(by, *h),
            _ => unreachable!(),
        }
    }
}
