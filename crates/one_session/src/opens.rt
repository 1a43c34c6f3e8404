ghost use Rattle.std.specs.Prelude.{◌≡◌, ◌≢◌, ◌<◌, ◌≤◌, ℕ, List, None, Some, [], length};
ghost use Rattle.vfs_names.specs.declared.fingerprint.Fingerprint.{Fingerprint};
ghost use Rattle.vfs_names.specs.declared.who.Actor.TheVariants.{Session};
ghost use Rattle.downloaders.specs.declared.Plan.{Plan as Rules};
ghost use Rattle.session_script.specs.declared.call.Call.TheVariants as call;
ghost use Rattle.one_session.specs.Causes.{AreGiven};
ghost use Rattle.one_session.specs.Served.{Knows};
ghost use Rattle.one_session.specs.Slots.{Lends};
ghost use Rattle.one_session.specs.Standing.{Answered, IsCaused, IsSoundStore, Stepped};
ghost use Rattle.one_session.specs.State.{file_at};
ghost use Rattle.one_session.specs.Tree.{item_of};
ghost use Rattle.one_session.specs.Views.{given_all, histories};
ghost use Rattle.one_session.specs.Whole.{IsUpTo};

use crate::open::{Names, lose, refresh, refuse};
use crate::opening::{make, unopened};
use crate::outcome::Outcome;
use crate::plan::{Met, Plan, make_plan};
use crate::store::Store;
use std::alloc::Global;
use vfs_names::{By, How, NoMemory, Refusal, VPath};
use vfs_outside::{CacheDisk, CacheFile, Object, Remote};

/// The places of the tree that an open of one name may need.
const TREE_PLACES: u32 = 5;

/// The places of a file that an open may need.
const FILE_PLACES: u32 = 4;

impl<O: Object, F: CacheFile> Store<O, F> {
    /// Opens a path that has a file.
    fn open_again<R: Remote<Object = O>>(
        &mut self,
        alloc: Global,
        remote: &mut R,
        by: By,
        handle: u8,
        path: &VPath,
        how: How,
        item: u32,
    ) -> Outcome
        requires sound { IsSoundStore F.tells self.old }
        requires actor { by.who.actor ≡ Session 1 }
        requires pass { by.pass ≡ 0 }
        requires later { IsUpTo by (histories self.old.files.items) }
        requires file { path.now ≢ [] }
        requires closed { file_at self.old.table.items handle ≡ None }
        requires room { 5 ≤ self.old.tree.spare }
        requires at { item_of self.old.tree.entries path.now ≡ Some item }
        requires inside { item < length self.old.files.items }
        ensures sound { IsSoundStore F.tells self.new }
        ensures later { IsUpTo by (histories self.new.files.items) }
        ensures did { (handed : List (Fingerprint × List ℕ))
            → Answered (Knows F.tells O.tells handed) by (call.Open handle path.now how) result self.old self.new }
        ensures given { AreGiven O.tells (R.outside remote.old).handed (given_all self.old.files.items)
            → AreGiven O.tells (R.outside remote.new).handed (given_all self.new.files.items) }
        ensures cause { IsCaused (call.Open handle path.now how) result self.new
            (R.outside remote.old) (R.outside remote.new) }
        ensures stepped { (plan : Rules) → Stepped plan 0 0
            (call.Open handle path.now how) result self.old self.new }
        ensures queue { self.new.files.queue ≡ self.old.files.queue }
    {
        if let Err(why) = self.files.reserve(item, FILE_PLACES) {
            return Outcome::bare(why);
        }
        let Ok(names) = Names::of(alloc, path) else {
            return Outcome::bare(Refusal::NoMemory);
        };
        let listed = match refresh(&mut self.tree, alloc, remote, by) {
            Ok(listed) => listed,
            Err(Refusal::NotFound) => {
                return refuse(&mut self.tree, by, names.own, Refusal::NotFound);
            }
            Err(Refusal::RemoteFault) => {
                return refuse(&mut self.tree, by, names.own, Refusal::RemoteFault);
            }
            Err(_) => return Outcome::bare(Refusal::NoMemory),
        };
        let met = Met {
            used: self.files.is_used(item),
            bound: self.files.is_bound(item),
            held: self.files.held(item),
            shown: self.tree.shows(path),
            create: how.create,
        };
        let plan = match make_plan(alloc, remote, path, met) {
            Ok(plan) => plan,
            Err(NoMemory) => return Outcome::starved(listed),
        };
        let Names { own, gone, file } = names;
        match plan {
            Plan::Begin(start) => {
                match self.put_again(by, handle, item, own, file, start, how.access) {
                    Ok(outcome) => outcome,
                    Err(why) => unopened(&mut self.tree, by, gone, listed, why),
                }
            }
            Plan::Refuse(why) => refuse(&mut self.tree, by, own, why),
            Plan::Lose => lose(&mut self.tree, by, gone, own),
        }
    }

    /// Opens a path that has no file yet.
    fn open_new<R: Remote<Object = O>, D: CacheDisk<File = F>>(
        &mut self,
        alloc: Global,
        remote: &mut R,
        disk: &mut D,
        by: By,
        handle: u8,
        path: &VPath,
        how: How,
    ) -> Outcome
        requires sound { IsSoundStore F.tells self.old }
        requires lends { Lends D.tells (length self.old.files.items) (D.disk disk.old) }
        requires actor { by.who.actor ≡ Session 1 }
        requires pass { by.pass ≡ 0 }
        requires later { IsUpTo by (histories self.old.files.items) }
        requires file { path.now ≢ [] }
        requires closed { file_at self.old.table.items handle ≡ None }
        requires room { 5 ≤ self.old.tree.spare }
        requires limit { 5 ≤ self.old.tree.limit }
        requires absent { item_of self.old.tree.entries path.now ≡ None }
        ensures sound { IsSoundStore F.tells self.new }
        ensures lends { Lends D.tells (length self.new.files.items) (D.disk disk.new) }
        ensures faults { (D.disk disk.old).faults ≤ (D.disk disk.new).faults }
        ensures later { IsUpTo by (histories self.new.files.items) }
        ensures did { (handed : List (Fingerprint × List ℕ))
            → Answered (Knows F.tells O.tells handed) by (call.Open handle path.now how) result self.old self.new }
        ensures given { AreGiven O.tells (R.outside remote.old).handed (given_all self.old.files.items)
            → AreGiven O.tells (R.outside remote.new).handed (given_all self.new.files.items) }
        ensures cause { IsCaused (call.Open handle path.now how) result self.new
            (R.outside remote.old) (R.outside remote.new) }
        ensures stepped { (plan : Rules) → Stepped plan (D.disk disk.old).faults (D.disk disk.new).faults
            (call.Open handle path.now how) result self.old self.new }
        ensures queue { self.new.files.queue ≡ self.old.files.queue }
    {
        let Ok(text) = make(&mut self.paths, &mut self.files, alloc, path) else {
            return Outcome::bare(Refusal::NoMemory);
        };
        let Ok(names) = Names::of(alloc, path) else {
            return Outcome::bare(Refusal::NoMemory);
        };
        let listed = match refresh(&mut self.tree, alloc, remote, by) {
            Ok(listed) => listed,
            Err(Refusal::NotFound) => {
                return refuse(&mut self.tree, by, names.own, Refusal::NotFound);
            }
            Err(Refusal::RemoteFault) => {
                return refuse(&mut self.tree, by, names.own, Refusal::RemoteFault);
            }
            Err(_) => return Outcome::bare(Refusal::NoMemory),
        };
        let met = Met {
            used: false,
            bound: false,
            held: None,
            shown: self.tree.shows(path),
            create: how.create,
        };
        let plan = match make_plan(alloc, remote, path, met) {
            Ok(plan) => plan,
            Err(NoMemory) => return Outcome::starved(listed),
        };
        let Names { own, gone, file } = names;
        let access = how.access;
        match plan {
            Plan::Begin(start) => {
                match self.put_new(alloc, disk, by, handle, text, own, file, start, access) {
                    Ok(outcome) => outcome,
                    Err(why) => unopened(&mut self.tree, by, gone, listed, why),
                }
            }
            Plan::Refuse(why) => refuse(&mut self.tree, by, own, why),
            Plan::Lose => lose(&mut self.tree, by, gone, own),
        }
    }

    /// Opens a path: the file that is held there, or the object that the root shows; or makes a file where nothing is and
    /// `how` asks for it.
    pub(crate) fn open<R: Remote<Object = O>, D: CacheDisk<File = F>>(
        &mut self,
        alloc: Global,
        remote: &mut R,
        disk: &mut D,
        by: By,
        handle: u8,
        path: &VPath,
        how: How,
    ) -> Outcome
        requires sound { IsSoundStore F.tells self.old }
        requires lends { Lends D.tells (length self.old.files.items) (D.disk disk.old) }
        requires actor { by.who.actor ≡ Session 1 }
        requires pass { by.pass ≡ 0 }
        requires file { path.now ≢ [] }
        requires later { IsUpTo by (histories self.old.files.items) }
        ensures sound { IsSoundStore F.tells self.new }
        ensures lends { Lends D.tells (length self.new.files.items) (D.disk disk.new) }
        ensures faults { (D.disk disk.old).faults ≤ (D.disk disk.new).faults }
        ensures later { IsUpTo by (histories self.new.files.items) }
        ensures did { (handed : List (Fingerprint × List ℕ))
            → Answered (Knows F.tells O.tells handed) by (call.Open handle path.now how) result self.old self.new }
        ensures given { AreGiven O.tells (R.outside remote.old).handed (given_all self.old.files.items)
            → AreGiven O.tells (R.outside remote.new).handed (given_all self.new.files.items) }
        ensures cause { IsCaused (call.Open handle path.now how) result self.new
            (R.outside remote.old) (R.outside remote.new) }
        ensures stepped { (plan : Rules) → Stepped plan (D.disk disk.old).faults (D.disk disk.new).faults
            (call.Open handle path.now how) result self.old self.new }
        ensures queue { self.new.files.queue ≡ self.old.files.queue }
    {
        if self.file_of(handle).is_some() {
            return Outcome::bare(Refusal::BadHandle);
        }
        if let Err(why) = self.tree.reserve(TREE_PLACES) {
            return Outcome::bare(why);
        }
        match self.paths.find(path) {
            Some(item) => self.open_again(alloc, remote, by, handle, path, how, item as u32),
            None => self.open_new(alloc, remote, disk, by, handle, path, how),
        }
    }
}
