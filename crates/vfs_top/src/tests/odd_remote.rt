use remote_folder::FolderObject;
use std::alloc::Global;
use vfs_names::{Blob, Fingerprint, VPath};
use vfs_outside::{Kind, Listing, Remote, RemoteError, Row, Rows};

/// A store whose root shows the file `shown`, or isn't there.
#[derive(Drop)]
pub struct OddRemote {
    lists: u64,
    faults: u64,
    changes: u64,
    missing: bool,
}

/// No stage of the odd store is ever made.
#[derive(Drop)]
pub struct NoStage;

impl OddRemote {
    pub fn new(missing: bool) -> OddRemote {
        OddRemote {
            lists: 0,
            faults: 0,
            changes: 0,
            missing,
        }
    }
}

impl Remote for OddRemote {
    type Object = FolderObject<HostRuntime>;

    type Stage = NoStage;

    ghost use Rattle.std.specs.Prelude.{None, []};

    ghost tells = { ⊥ };

    ghost outside = { λ r. record {
      store = λ path. None;
      handed = [];
      faults = r.faults;
      changes = r.changes;
      lists = r.lists;
      others = 0;
    } };

    ghost staged = { λ s. [] };

    ghost stage_len = { λ s. 0 };

    ghost told_objects = { λ t. absurd t };

    ghost told_by_objects = { λ t. absurd t };

    ghost told_stages = { λ t. absurd t };

    fn attach(&mut self, _name: &str) -> Result<(), RemoteError> {
        Ok(())
    }

    fn open_object(
        &mut self,
        _alloc: Global,
        _path: &VPath,
    ) -> Result<FolderObject<HostRuntime>, RemoteError> {
        self.changes = self.changes.saturating_add(1);
        Err(RemoteError::Missing)
    }

    #[tactic(auto, unfolding(vfs_names::specs::Path::is_name))]
    fn list(&mut self, alloc: Global, _dir: &VPath) -> Result<Listing, RemoteError> {
        if self.missing {
            self.changes = self.changes.saturating_add(1);
            return Err(RemoteError::Missing);
        }
        let Some(number) = self.lists.checked_add(1) else {
            self.faults = self.faults.saturating_add(1);
            return Err(RemoteError::Failed);
        };
        self.lists = number;
        let Ok(name) = Blob::from_slice(alloc, "shown".as_bytes()) else {
            return Err(RemoteError::NoMemory);
        };
        let row = Row {
            name,
            kind: Kind::File,
            print: Fingerprint {
                size: 3,
                mtime: 0,
                rev: 1,
            },
        };
        let mut rows = Vec::new(alloc);
        if rows.push(row).is_err() {
            return Err(RemoteError::NoMemory);
        }
        let rows = Rows::from_vec(rows);
        Ok(Listing { number, rows })
    }

    fn stage(&mut self, _alloc: Global) -> Result<NoStage, RemoteError> {
        self.faults = self.faults.saturating_add(1);
        Err(RemoteError::Failed)
    }

    fn append(&mut self, _stage: &mut NoStage, _bytes: &[u8]) -> Result<(), RemoteError> {
        self.faults = self.faults.saturating_add(1);
        Err(RemoteError::Failed)
    }

    fn commit(
        &mut self,
        _alloc: Global,
        _stage: NoStage,
        _path: &VPath,
        _mtime: u64,
    ) -> Result<Fingerprint, RemoteError> {
        self.faults = self.faults.saturating_add(1);
        Err(RemoteError::Failed)
    }
}
