ghost use Rattle.std.specs.Prelude.{◌≡◌, ◌≢◌, ◌+◌, ◌++◌, ◌<◌, ◌≤◌, ℕ, [], ◌∷◌, IfOk, OnOk, OnErr, OnSome, if◌then◌else◌, is_ok, is_some, length, refl, vec_len};
ghost use Rattle.std.specs.Option.{option_copied};
ghost use Rattle.vfs_outside.specs.Outside.{IsCall, MayBeMissing, MayFail, Outside, StaysAlone, nothing};
ghost use Rattle.vfs_outside.specs.Told.{FindsObject, PutsObject};
ghost use Rattle.vfs_outside.specs.Store.{File, SameStore};
ghost use Rattle.remote_memory.specs.Nodes.{bytes_in, fingerprint_of, store_of, with_object, without};
ghost use Rattle.remote_memory.specs.Script.{CountsListing, changed_path};
ghost use Rattle.remote_memory.specs.Stores.{MetOthers, SameMarks, outside_of, plans_of, puts_of};
ghost use Rattle.remote_memory.specs.declared.object.MemoryObject.{MemoryObject};

use crate::node::object_at;
use crate::object::MemoryObject;
use crate::script::{Change, Fault, Planned, PullAt, RemoteCall, pulls_at};
use crate::stage::MemoryStage;
use crate::stock::Stock;
use std::alloc::Global;
use vfs_names::{Blob, Fingerprint, NoMemory, VPath};
use vfs_outside::{Listing, Remote, RemoteError};

/// A store in memory that does what a test plans. Calls count from 1.
#[derive(Drop)]
pub struct MemoryRemote {
    alloc: Global,
    stock: Stock,
    attaches: u64,
    opens: u64,
    stages: u64,
    appends: u64,
    commits: u64,
    // how many calls of any kind there were
    calls: u64,
    faults: u64,
    others: u64,
    planned: Vec<Planned>,
    fails: Vec<Fault>,
    pull_fails: Vec<PullAt>,
    pull_changes: Vec<PullAt>,
}

impl MemoryRemote {
    /// A store in which nothing stands.
    pub fn new(alloc: Global) -> MemoryRemote
        ensures store { (outside_of result).store ≡ store_of [] }
        ensures handed { (outside_of result).handed ≡ [] }
        ensures counts { ((outside_of result).faults ≡ 0) × ((outside_of result).changes ≡ 0) }
        ensures others { ((outside_of result).lists ≡ 0) × ((outside_of result).others ≡ 0) }
        ensures puts { puts_of result ≡ 0 }
        ensures plans { plans_of result ≡ record { changes = []; faults = []; failing_pulls = []; changing_pulls = [] } }
    {
        MemoryRemote {
            alloc,
            stock: Stock::new(alloc),
            attaches: 0,
            opens: 0,
            stages: 0,
            appends: 0,
            commits: 0,
            calls: 0,
            faults: 0,
            others: 0,
            planned: Vec::new(alloc),
            fails: Vec::new(alloc),
            pull_fails: Vec::new(alloc),
            pull_changes: Vec::new(alloc),
        }
    }

    /// Puts an object, with its modification time in milliseconds. The directories above it are made, and an object
    /// that stands in the place of one is gone, as is what stands at the path or below it.
    pub fn put(&mut self, path: VPath, bytes: Blob, mtime: u64) -> Result<Fingerprint, NoMemory>
        requires { path ≢ [] }
        ensures print { IfOk result (λ print. print ≡
            record { size = length bytes; mtime = mtime; rev = puts_of self.old + 1 }) }
        ensures puts { puts_of self.new ≡ (if is_ok result then puts_of self.old + 1 else puts_of self.old) }
        ensures stands { IfOk result (λ print. SameStore (outside_of self.new).store
            (with_object path (File print bytes) (outside_of self.old).store)) }
        ensures err { OnErr result ((outside_of self.new).store ≡ (outside_of self.old).store) }
        ensures marks { SameMarks (outside_of self.old) (outside_of self.new) }
        ensures plans { plans_of self.new ≡ plans_of self.old }
    {
        match self.stock.put(self.alloc, path, bytes, mtime) {
            Ok(print) => Ok(print),
            Err(why) => Err(why),
        }
    }

    /// Deletes what stands at a path, with all below.
    pub fn delete(&mut self, path: &VPath)
        requires { path.now ≢ [] }
        ensures gone { SameStore (outside_of self.new).store (without path.now (outside_of self.old).store) }
        ensures marks { SameMarks (outside_of self.old) (outside_of self.new) }
        ensures puts { puts_of self.new ≡ puts_of self.old }
        ensures plans { plans_of self.new ≡ plans_of self.old }
    {
        self.stock.delete(path);
    }

    /// The call of this kind and number is to fail.
    pub fn fail(&mut self, call: RemoteCall, nth: u64) -> Result<(), NoMemory>
        ensures ok { OnOk result (plans_of self.new ≡ record (plans_of self.old) {
          faults = (plans_of self.old).faults ++ record { call = call; nth = nth } ∷ [];
        }) }
        ensures err { OnErr result (plans_of self.new ≡ plans_of self.old) }
        ensures same { outside_of self.new ≡ outside_of self.old }
        ensures puts { puts_of self.new ≡ puts_of self.old }
    {
        match self.fails.push(Fault { call, nth }) {
            Ok(()) => Ok(()),
            Err(_) => Err(NoMemory),
        }
    }

    /// Somebody else does this before the store's call of that number, of any kind.
    pub fn outside(&mut self, before: u64, change: Change) -> Result<(), NoMemory>
        requires { changed_path change ≢ [] }
        ensures ok { OnOk result (plans_of self.new ≡ record (plans_of self.old) {
          changes = (plans_of self.old).changes ++ (before, change) ∷ [];
        }) }
        ensures err { OnErr result (plans_of self.new ≡ plans_of self.old) }
        ensures same { outside_of self.new ≡ outside_of self.old }
        ensures puts { puts_of self.new ≡ puts_of self.old }
    {
        match self.planned.push(Planned { before, change }) {
            Ok(()) => Ok(()),
            Err(_) => Err(NoMemory),
        }
    }

    /// The pull of this number is to fail, of each object that is opened at the path from now on.
    pub fn fail_pull(&mut self, path: VPath, nth: u64) -> Result<(), NoMemory>
        ensures ok { OnOk result (plans_of self.new ≡ record (plans_of self.old) {
          failing_pulls = (plans_of self.old).failing_pulls ++ record { path = path; nth = nth } ∷ [];
        }) }
        ensures err { OnErr result (plans_of self.new ≡ plans_of self.old) }
        ensures same { outside_of self.new ≡ outside_of self.old }
        ensures puts { puts_of self.new ≡ puts_of self.old }
    {
        match self.pull_fails.push(PullAt { path, nth }) {
            Ok(()) => Ok(()),
            Err(_) => Err(NoMemory),
        }
    }

    /// The pull of this number finds another object, of each object that is opened at the path from now on.
    pub fn change_at_pull(&mut self, path: VPath, nth: u64) -> Result<(), NoMemory>
        ensures ok { OnOk result (plans_of self.new ≡ record (plans_of self.old) {
          changing_pulls = (plans_of self.old).changing_pulls ++ record { path = path; nth = nth } ∷ [];
        }) }
        ensures err { OnErr result (plans_of self.new ≡ plans_of self.old) }
        ensures same { outside_of self.new ≡ outside_of self.old }
        ensures puts { puts_of self.new ≡ puts_of self.old }
    {
        match self.pull_changes.push(PullAt { path, nth }) {
            Ok(()) => Ok(()),
            Err(_) => Err(NoMemory),
        }
    }

    /// The bytes of the object that stands at a path.
    pub fn bytes_of(&self, path: &VPath) -> Option<&[u8]>
        ensures { option_copied result ≡ bytes_in ((outside_of self.now).store path.now) }
    {
        match object_at(self.stock.nodes.as_slice(), path) {
            Some(stored) => Some(stored.bytes.as_slice()),
            None => None,
        }
    }

    /// How often a directory was listed.
    pub fn list_calls(&self) -> u64
        ensures { result ≡ (outside_of self.now).lists }
    {
        self.stock.lists
    }

    /// The next planned change that is due.
    fn take_due(&mut self) -> Option<Planned>
        ensures rest { self.new ≡ record self.old { planned = self.new.planned } }
        ensures shorter { OnSome result (vec_len self.new.planned < vec_len self.old.planned) }
    {
        let now = self.calls;
        match self
            .planned
            .iter()
            .position(|planned| planned.before == now)
        {
            Some(at) => Some(self.planned.remove(at)),
            None => None,
        }
    }

    /// Somebody else does this.
    fn apply(&mut self, planned: Planned) -> Result<(), NoMemory>
        ensures met { MetOthers self.old self.new }
        ensures planned { self.new.planned ≡ self.old.planned }
    {
        self.others = self.others.saturating_add(1);
        let Planned { before: _, change } = planned;
        match change {
            Change::Put(path, bytes, mtime) => match self
                .stock
                .put(self.alloc, path, bytes, mtime)
            {
                Ok(_) => Ok(()),
                Err(why) => Err(why),
            },
            Change::Delete(path) => {
                self.stock.delete(&path);
                Ok(())
            }
        }
    }

    /// The changes of others that are due.
    fn meet_others(&mut self) -> Result<(), NoMemory>
        ensures { MetOthers self.old self.new }
    {
        while let Some(planned) = self.take_due() {
            match self.apply(planned) {
                Ok(()) => {}
                Err(why) => return Err(why),
            }
        }
        Ok(())
    }

    /// The number of this call among those of its kind; None where there is none.
    fn count(&mut self, call: RemoteCall) -> Option<u64>
        ensures rest { self.new ≡ record self.old {
          stock = record self.old.stock { lists = self.new.stock.lists };
          attaches = self.new.attaches;
          opens = self.new.opens;
          stages = self.new.stages;
          appends = self.new.appends;
          commits = self.new.commits;
        } }
        ensures counts { CountsListing call self.old.stock.lists self.new.stock.lists (is_some result) }
    {
        match call {
            RemoteCall::Attach => {
                self.attaches = self.attaches.saturating_add(1);
                Some(self.attaches)
            }
            RemoteCall::List => self.stock.next_listing(),
            RemoteCall::OpenObject => {
                self.opens = self.opens.saturating_add(1);
                Some(self.opens)
            }
            RemoteCall::Stage => {
                self.stages = self.stages.saturating_add(1);
                Some(self.stages)
            }
            RemoteCall::Append => {
                self.appends = self.appends.saturating_add(1);
                Some(self.appends)
            }
            RemoteCall::Commit => {
                self.commits = self.commits.saturating_add(1);
                Some(self.commits)
            }
        }
    }

    /// Begins a call: it is counted, the changes of others that are due are met, and it fails where that is planned.
    fn begin(&mut self, call: RemoteCall) -> Result<(), RemoteError>
        ensures call { IsCall MayFail nothing (outside_of self.old) (outside_of self.new) result }
        ensures lists { CountsListing call self.old.stock.lists self.new.stock.lists (is_ok result) }
        ensures revs { self.old.stock.revs ≤ self.new.stock.revs }
        ensures alone { StaysAlone (outside_of self.old) (outside_of self.new) }
    {
        self.calls = self.calls.saturating_add(1);
        let Some(nth) = self.count(call) else {
            self.faults = self.faults.saturating_add(1);
            return Err(RemoteError::Failed);
        };
        let Ok(()) = self.meet_others() else {
            return Err(RemoteError::NoMemory);
        };
        if self.fails.contains(&Fault { call, nth }) {
            self.faults = self.faults.saturating_add(1);
            return Err(RemoteError::Failed);
        }
        Ok(())
    }

    fn open_now(&mut self, alloc: Global, path: &VPath) -> Result<MemoryObject, RemoteError>
        ensures call { IsCall MayBeMissing (λ (o : MemoryObject). (fingerprint_of o.stored, o.stored.bytes) ∷ [])
            (outside_of self.old) (outside_of self.new) result }
        ensures lists { self.new.stock.lists ≡ self.old.stock.lists }
        ensures path { IfOk result (λ o. o.path ≡ path.now) }
        ensures unasked { IfOk result (λ o. o.asked.items ≡ []) }
        ensures counts { IfOk result (λ o. (o.faults ≡ 0) × (o.changes ≡ 0)) }
        ensures told { FindsObject (λ (o : MemoryObject). fingerprint_of o.stored)
            (λ (o : MemoryObject). o.stored.bytes) path.now
            (outside_of self.old) (outside_of self.new) result }
    {
        let Ok(fails) = pulls_at(alloc, self.pull_fails.as_slice(), path) else {
            return Err(RemoteError::NoMemory);
        };
        let Ok(finds_other) = pulls_at(alloc, self.pull_changes.as_slice(), path) else {
            return Err(RemoteError::NoMemory);
        };
        self.stock.open_object(alloc, path, fails, finds_other)
    }
}

impl Remote for MemoryRemote {
    type Object = MemoryObject;

    type Stage = MemoryStage;

    ghost tells = { Unit {0} };

    ghost outside = { outside_of };

    ghost staged = { λ s. s.bytes };

    ghost stage_len = { λ s. length s.bytes };

    ghost told_objects = { λ t. t };

    ghost told_by_objects = { λ t. t };

    ghost told_stages = { λ t s. refl };

    fn attach(&mut self, _name: &str) -> Result<(), RemoteError> {
        self.begin(RemoteCall::Attach)
    }

    fn list(&mut self, alloc: Global, dir: &VPath) -> Result<Listing, RemoteError> {
        match self.begin(RemoteCall::List) {
            Ok(()) => self.stock.list(alloc, dir),
            Err(why) => Err(why),
        }
    }

    fn open_object(&mut self, alloc: Global, path: &VPath) -> Result<MemoryObject, RemoteError> {
        match self.begin(RemoteCall::OpenObject) {
            Ok(()) => self.open_now(alloc, path),
            Err(why) => Err(why),
        }
    }

    fn stage(&mut self, alloc: Global) -> Result<MemoryStage, RemoteError> {
        match self.begin(RemoteCall::Stage) {
            Ok(()) => Ok(MemoryStage::new(alloc)),
            Err(why) => Err(why),
        }
    }

    fn append(&mut self, stage: &mut MemoryStage, bytes: &[u8]) -> Result<(), RemoteError> {
        match self.begin(RemoteCall::Append) {
            Ok(()) => match stage.append(bytes) {
                Ok(()) => Ok(()),
                Err(_) => Err(RemoteError::NoMemory),
            },
            Err(why) => Err(why),
        }
    }

    /// The object has the time that is given, and a revision that no object of this store had before.
    fn commit(
        &mut self,
        alloc: Global,
        stage: MemoryStage,
        path: &VPath,
        mtime: u64,
    ) -> Result<Fingerprint, RemoteError>
        requires { path.now ≢ [] }
        ensures call { IsCall MayBeMissing (λ print. (print, stage.bytes) ∷ [])
            (outside_of self.old) (outside_of self.new) result }
        ensures lists { (outside_of self.new).lists ≡ (outside_of self.old).lists }
        ensures size { IfOk result (λ print. print.size ≡ length stage.bytes) }
        ensures mtime { IfOk result (λ print. print.mtime ≡ mtime) }
        ensures rev { IfOk result (λ print. print.rev ≡ puts_of self.new) }
        ensures newer { OnOk result (puts_of self.old < puts_of self.new) }
        ensures told { PutsObject path.now stage.bytes (outside_of self.old) (outside_of self.new) result }
    {
        match self.begin(RemoteCall::Commit) {
            Ok(()) => self.stock.commit(alloc, path, stage.bytes, mtime),
            Err(why) => Err(why),
        }
    }
}
