ghost use Rattle.std.specs.Prelude.{◌≡◌, ◌⊎◌, ◌<◌, ◌≤◌, ◌++◌, true, Err, OnOk, IfOk, IfErr, IsOk, string_bytes};
ghost use Rattle.item_core.specs.History.{is_kept, is_owed};
ghost use Rattle.downloaders.specs.Rules.{HasChunk};
ghost use Rattle.item_upload.specs.Whole.{is_saved};
ghost use Rattle.sparse_item.specs.Sound.{is_begun};
ghost use Rattle.one_session.specs.Sending.{Sends};
ghost use Rattle.one_session.specs.Turns.{IfStored, IsGoal, ended_of, noted_by};

use crate::tree::Tree;
use downloaders::Plan;
use item_upload::{Ended, upload};
use sparse_item::ItemBook;
use std::alloc::Global;
use vfs_names::{By, Fingerprint, NoMemory, Refusal, VPath};
use vfs_outside::{CacheFile, Object, Remote};

/// Where a file's content goes: the path of its object, for the tree's entry, and its name among what the root shows.
#[derive(Drop)]
pub(crate) struct Goal {
    pub(crate) path: VPath,
    pub(crate) name: String,
}

/// How the turn of a file went whose upload was due.
#[derive(Drop)]
pub(crate) enum Turn {
    /// Its content is this object at the goal, and that is saved.
    Stored(Goal, Fingerprint),
    /// Its upload was begun, and dropped for this.
    Dropped(Refusal),
    /// Its upload couldn't be begun, for this.
    Unbegun(Refusal),
}

impl Turn {
    pub(crate) fn is_stored(&self) -> bool
        ensures { result ≡ is_saved (ended_of self.now) }
    {
        match self {
            Turn::Stored(..) => true,
            Turn::Dropped(_) | Turn::Unbegun(_) => false,
        }
    }
}

/// The goal of what is at a path.
fn goal_at(alloc: Global, path: &VPath) -> Result<Goal, NoMemory>
    ensures path { IfOk result (λ goal. goal.path ≡ path.now) }
    ensures name { IfOk result (λ goal. string_bytes goal.name ≡ path.now) }
{
    let Ok(name) = String::from_str(alloc, path.as_str()) else {
        return Err(NoMemory);
    };
    match path.copy(alloc) {
        Ok(path) => Ok(Goal { path, name }),
        Err(_) => Err(NoMemory),
    }
}

/// The goal of a kept file, where room was made for what is said of it.
fn goal_of<O: Object, F: CacheFile>(
    alloc: Global,
    file: &ItemBook<O, F>,
    ready: Result<(), Refusal>,
) -> Result<Goal, Refusal>
    requires kept { is_kept file.now.log.past ≡ true }
    requires causes { IfErr ready (λ why. (why ≡ Refusal.HistoryFull) ⊎ (why ≡ Refusal.NoMemory)) }
    ensures ok { IfOk result (IsGoal file.now) }
    ensures ready { OnOk result (IsOk ready) }
    ensures causes { IfErr result (λ why. (why ≡ Refusal.HistoryFull) ⊎ (why ≡ Refusal.NoMemory)) }
    ensures full { result ≡ Err Refusal.HistoryFull → ready ≡ Err Refusal.HistoryFull }
{
    match ready {
        Ok(()) => {
            let Some(path) = file.path() else {
                unreachable!()
            };
            match goal_at(alloc, path) {
                Ok(goal) => Ok(goal),
                Err(NoMemory) => Err(Refusal::NoMemory),
            }
        }
        Err(why) => Err(why),
    }
}

/// Uploads a file that waits, where room was made for what is said of it then.
pub(crate) fn send<R: Remote, F: CacheFile>(
    alloc: Global,
    file: &mut ItemBook<R::Object, F>,
    remote: &mut R,
    plan: &Plan,
    by: By,
    ready: Result<(), Refusal>,
) -> Turn
    requires owed { is_owed file.old.log.past ≡ true }
    requires kept { is_kept file.old.log.past ≡ true }
    requires begun { is_begun file.old.log.past ≡ true }
    requires chunk { HasChunk plan.now.chunk }
    requires causes { IfErr ready (λ why. (why ≡ Refusal.HistoryFull) ⊎ (why ≡ Refusal.NoMemory)) }
    ensures sends { Sends F.tells R.tells R.Object.tells by (ready ≡ Err Refusal.HistoryFull)
        file.old file.new (R.outside remote.old) (R.outside remote.new) (ended_of result) }
    ensures goal { IfStored result (λ goal print. IsOk ready × IsGoal file.old goal) }
{
    match goal_of(alloc, file, ready) {
        Ok(goal) => send_to(alloc, file, remote, plan, by, goal),
        Err(why) => Turn::Unbegun(why),
    }
}

/// Uploads a file that waits to its goal.
fn send_to<R: Remote, F: CacheFile>(
    alloc: Global,
    file: &mut ItemBook<R::Object, F>,
    remote: &mut R,
    plan: &Plan,
    by: By,
    goal: Goal,
) -> Turn
    requires owed { is_owed file.old.log.past ≡ true }
    requires kept { is_kept file.old.log.past ≡ true }
    requires begun { is_begun file.old.log.past ≡ true }
    requires chunk { HasChunk plan.now.chunk }
    ensures sends { Sends F.tells R.tells R.Object.tells by ⊥
        file.old file.new (R.outside remote.old) (R.outside remote.new) (ended_of result) }
    ensures goal { IfStored result (λ to print. to ≡ goal) }
{
    let _state = file.base_state();
    let under = By { tree: true, ..by };
    match upload(alloc, file, remote, plan, under) {
        Ended::Saved(print) => Turn::Stored(goal, print),
        Ended::Dropped(why) => Turn::Dropped(why),
        Ended::Unbegun(why) => Turn::Unbegun(why),
    }
}

/// Says in the tree what came of the turn of a file, for which room was made; takes no memory.
pub(crate) fn note_turn(tree: &mut Tree, by: By, turn: Turn) -> Ended
    requires place { IfStored turn (λ goal print. 1 ≤ tree.old.spare) }
    requires row { IfStored turn (λ goal print. 0 < tree.old.names) }
    requires name { IfStored turn (λ goal print. string_bytes goal.name ≡ goal.path) }
    ensures ended { result ≡ ended_of turn }
    ensures entries { tree.new.entries ≡ tree.old.entries ++ noted_by by turn }
    ensures limit { tree.new.limit ≡ tree.old.limit }
{
    match turn {
        Turn::Stored(goal, print) => {
            let Goal { path, name } = goal;
            tree.push_stored(by, path, name, print);
            Ended::Saved(print)
        }
        Turn::Dropped(why) => Ended::Dropped(why),
        Turn::Unbegun(why) => Ended::Unbegun(why),
    }
}
