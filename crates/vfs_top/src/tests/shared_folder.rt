use super::*;
use remote_folder::FolderObject;
use std::io;
use vfs_names::Fingerprint;
use vfs_outside::{Listing, RemoteError};

/// What somebody else does to a folder.
pub trait Other: Drop {
    /// Right before the object at the path is opened.
    fn before_open(&self, path: &str) -> io::Result<()>;

    /// Right before a stage is begun.
    fn before_stage(&mut self) -> io::Result<()>;
}

/// The store of a folder in which somebody else does something.
#[derive(Drop)]
pub struct SharedFolder<R: Remote, D: Other> {
    pub inner: R,
    pub other: D,
}

impl<R: Remote<Object = FolderObject<HostRuntime>>, D: Other> Remote for SharedFolder<R, D> {
    type Object = FolderObject<HostRuntime>;

    type Stage = R::Stage;

    ghost tells = { ⊥ };

    ghost outside = { λ r. R.outside r.inner };

    ghost staged = { R.staged };

    ghost stage_len = { R.stage_len };

    ghost told_objects = { λ t. absurd t };

    ghost told_by_objects = { λ t. absurd t };

    ghost told_stages = { λ t. absurd t };

    fn attach(&mut self, name: &str) -> Result<(), RemoteError> {
        self.inner.attach(name)
    }

    fn open_object(
        &mut self,
        alloc: Global,
        path: &VPath,
    ) -> Result<FolderObject<HostRuntime>, RemoteError> {
        match self.other.before_open(path.as_str()) {
            Ok(()) => self.inner.open_object(alloc, path),
            Err(_) => Err(RemoteError::NoMemory),
        }
    }

    fn list(&mut self, alloc: Global, dir: &VPath) -> Result<Listing, RemoteError> {
        self.inner.list(alloc, dir)
    }

    fn stage(&mut self, alloc: Global) -> Result<R::Stage, RemoteError> {
        match self.other.before_stage() {
            Ok(()) => self.inner.stage(alloc),
            Err(_) => Err(RemoteError::NoMemory),
        }
    }

    fn append(&mut self, stage: &mut R::Stage, bytes: &[u8]) -> Result<(), RemoteError> {
        self.inner.append(stage, bytes)
    }

    fn commit(
        &mut self,
        alloc: Global,
        stage: R::Stage,
        path: &VPath,
        mtime: u64,
    ) -> Result<Fingerprint, RemoteError> {
        self.inner.commit(alloc, stage, path, mtime)
    }
}
