ghost use Rattle.std.specs.Prelude.{◌≡◌, ◌≢◌, [], map, filter, IfOk};
ghost use Rattle.vfs_names.specs.Path.{same_text};
ghost use Rattle.remote_memory.specs.Script.{changed_path};
ghost use Rattle.remote_memory.specs.declared.script.PullAt.{PullAt};

use std::alloc::{AllocError, Global};
use vfs_names::{Blob, VPath};

/// A call of a store.
#[derive(Clone, Copy, Debug, PartialEq, Eq)]
pub enum RemoteCall {
    Attach,
    List,
    OpenObject,
    Stage,
    Append,
    Commit,
}

/// What somebody else does to a store: puts an object, with its modification time in milliseconds, or deletes what
/// stands at a path.
#[derive(Debug, Drop)]
pub enum Change {
    Put(VPath, Blob, u64),
    Delete(VPath),
}

/// A change of others that comes before the store's call of this number.
#[derive(Debug, Drop)]
pub struct Planned {
    pub before: u64,
    pub change: Change,
    ghost below_root: { changed_path change ≢ [] },
}

/// The call of this kind and number is to fail.
#[derive(Clone, Copy, Debug, PartialEq, Eq)]
pub struct Fault {
    pub call: RemoteCall,
    pub nth: u64,
}

/// The pull of this number, of each object that is opened at the path.
#[derive(Debug, Drop)]
pub struct PullAt {
    pub path: VPath,
    pub nth: u64,
}

/// The numbers of the pulls that are named at a path.
pub fn pulls_at(alloc: Global, pulls: &[PullAt], path: &VPath) -> Result<Vec<u64>, AllocError>
    ensures { IfOk result (λ v. v.items ≡
        map (λ (p : PullAt). p.nth) (filter (λ (p : PullAt). same_text p.path path.now) pulls.now)) }
{
    pulls
        .iter()
        .filter(|pull| pull.path == *path)
        .map(|pull| pull.nth)
        .collect(alloc)
}
