ghost use Rattle.std.specs.Prelude.{◌≡◌, ◌<◌, ◌≤◌, [], ◌∷◌, OnErr, OnOk, vec_len};
ghost use Rattle.std.specs.Vec.{vec_capacity};
ghost use Rattle.vfs_outside.specs.Outside.{IsCause, MayBeMissing, MayFail};
ghost use Rattle.remote_folder.specs.Folder.{changes_after, faults_after, plain_error, remote_error, told_by};

use crate::trouble::Trouble;
use std::alloc::Global;
use std::snapshot::Snapshot;
use vfs_names::{Fingerprint, NoMemory};
use vfs_outside::RemoteError;

/// What a store tells of its calls.
#[derive(Drop)]
pub struct Told {
    pub handed: Vec<Snapshot<Fingerprint>>,
    pub faults: u64,
    pub changes: u64,
    pub lists: u64,
}

impl Told {
    pub fn new(alloc: Global) -> Told
        ensures handed { result.handed.items ≡ [] }
        ensures counts { (result.faults ≡ 0) × (result.changes ≡ 0) × (result.lists ≡ 0) }
    {
        Told {
            handed: Vec::new(alloc),
            faults: 0,
            changes: 0,
            lists: 0,
        }
    }

    /// The fingerprint of an object that is handed out.
    pub fn hand_out(&mut self, print: Fingerprint) -> Result<(), NoMemory>
        ensures ok { OnOk result (told_by self.new ≡ record (told_by self.old) {
          handed = (print, []) ∷ (told_by self.old).handed;
        }) }
        ensures err { OnErr result (told_by self.new ≡ told_by self.old) }
    {
        match self.handed.push(Snapshot::of(&print)) {
            Ok(()) => Ok(()),
            Err(_) => Err(NoMemory),
        }
    }

    /// Room for one more fingerprint.
    pub fn make_room(&mut self) -> Result<(), NoMemory>
        ensures same { told_by self.new ≡ told_by self.old }
        ensures room { OnOk result (vec_len self.new.handed < vec_capacity self.new.handed) }
    {
        match self.handed.reserve(1) {
            Ok(()) => Ok(()),
            Err(_) => Err(NoMemory),
        }
    }

    /// The fingerprint of an object that is handed out, for which there is room.
    pub fn hand_out_in_room(&mut self, print: Fingerprint)
        requires { vec_len self.old.handed < vec_capacity self.old.handed }
        ensures { told_by self.new ≡ record (told_by self.old) {
          handed = (print, []) ∷ (told_by self.old).handed;
        } }
    {
        self.handed.push_reserved(Snapshot::of(&print));
    }

    /// Counts what went wrong in a call that names nothing in the store, and gives the error for it.
    pub fn fail(&mut self, trouble: Trouble) -> RemoteError
        ensures error { result ≡ plain_error trouble }
        ensures rest { self.new ≡ record self.old { faults = self.new.faults } }
        ensures faults { self.old.faults ≤ self.new.faults }
        ensures may_come { MayFail result }
        ensures cause { IsCause (told_by self.old) (told_by self.new) result }
    {
        match trouble {
            Trouble::Gone => self.refuse(Trouble::Failed),
            Trouble::Failed => self.refuse(Trouble::Failed),
            Trouble::NoMemory => RemoteError::NoMemory,
        }
    }

    /// Counts what went wrong, and gives the error for it.
    pub fn refuse(&mut self, trouble: Trouble) -> RemoteError
        ensures error { result ≡ remote_error trouble }
        ensures rest { self.new ≡ record self.old {
          faults = faults_after trouble self.old.faults;
          changes = changes_after trouble self.old.changes;
        } }
        ensures faults { self.old.faults ≤ self.new.faults }
        ensures changes { self.old.changes ≤ self.new.changes }
        ensures may_come { MayBeMissing result }
        ensures cause { IsCause (told_by self.old) (told_by self.new) result }
    {
        match trouble {
            Trouble::Gone => {
                self.changes = self.changes.saturating_add(1);
                RemoteError::Missing
            }
            Trouble::Failed => {
                self.faults = self.faults.saturating_add(1);
                RemoteError::Failed
            }
            Trouble::NoMemory => RemoteError::NoMemory,
        }
    }
}
