ghost use Rattle.std.specs.Prelude.{◌≡◌, ◌≢◌, ℕ, ◌+◌, ◌++◌, List, [], ◌∷◌, length, IfOk, OnOk};
ghost use Rattle.vfs_outside.specs.Outside.{IsCall, IsNumbered, MayBeMissing, MayFail, Outside, StaysAlone, nothing};
ghost use Rattle.vfs_outside.specs.Told.{FindsObject, PutsObject, ShowsRows};

use crate::{Listing, Object};
use std::alloc::Global;
use vfs_names::{Fingerprint, VPath};

/// Why a store did not do a call.
#[derive(Clone, Copy, Debug, PartialEq, Eq)]
pub enum RemoteError {
    /// What the call names isn't there.
    Missing,
    /// Something stands where the call makes something.
    Exists,
    /// Something lies in the directory.
    NotEmpty,
    Failed,
    NoMemory,
}

/// A store of objects. `OLD` and `NEW` in what follows are what it tells before and after a call.
pub trait Remote: Drop {
    type Object: Object;

    /// Bytes that are to become an object. One that is dropped leaves nothing.
    type Stage: Drop;

    // where it holds, `outside` has what stands in the store
    ghost tells: { Type 0 };

    ghost outside: { Self → Outside };

    // where the store tells, the bytes of a stage
    ghost staged: { Self.Stage → List ℕ };

    // how many bytes a stage has
    ghost stage_len: { Self.Stage → ℕ };

    /// The store of this name is ready.
    fn attach(&mut self, name: &str) -> Result<(), RemoteError>
        ensures call { IsCall MayFail nothing (outside self.old) (outside self.new) result }
        ensures lists { (outside self.new).lists ≡ (outside self.old).lists }
        ensures alone { StaysAlone (outside self.old) (outside self.new) };

    /// The rows of a directory, with a number greater than that of any earlier listing.
    fn list(&mut self, alloc: Global, dir: &VPath) -> Result<Listing, RemoteError>
        ensures call { IsCall MayBeMissing nothing (outside self.old) (outside self.new) result }
        ensures number { IsNumbered (outside self.old) (outside self.new) result }
        ensures told { tells → ShowsRows dir.now (outside self.old) (outside self.new) result };

    /// The object that stands there.
    fn open_object(&mut self, alloc: Global, path: &VPath) -> Result<Self::Object, RemoteError>
        ensures call { IsCall MayBeMissing (λ o. (Self.Object.print_of o, Self.Object.bytes o) ∷ [])
            (outside self.old) (outside self.new) result }
        ensures lists { (outside self.new).lists ≡ (outside self.old).lists }
        ensures path { IfOk result (λ o. Self.Object.path o ≡ path.now) }
        ensures unasked { IfOk result (λ o. Self.Object.asked o ≡ []) }
        ensures counts { IfOk result (λ o. (Self.Object.faults o ≡ 0) × (Self.Object.changes o ≡ 0)) }
        ensures told { tells → FindsObject Self.Object.print_of Self.Object.bytes path.now
            (outside self.old) (outside self.new) result };

    /// A stage with no bytes.
    fn stage(&mut self, alloc: Global) -> Result<Self::Stage, RemoteError>
        ensures call { IsCall MayFail nothing (outside self.old) (outside self.new) result }
        ensures lists { (outside self.new).lists ≡ (outside self.old).lists }
        ensures alone { StaysAlone (outside self.old) (outside self.new) }
        ensures empty { IfOk result (λ s. stage_len s ≡ 0) }
        ensures staged { IfOk result (λ s. tells → staged s ≡ []) };

    /// The stage is longer by these bytes. After an error it is only to be dropped.
    fn append(&mut self, stage: &mut Self::Stage, bytes: &[u8]) -> Result<(), RemoteError>
        ensures call { IsCall MayFail nothing (outside self.old) (outside self.new) result }
        ensures lists { (outside self.new).lists ≡ (outside self.old).lists }
        ensures alone { StaysAlone (outside self.old) (outside self.new) }
        ensures longer { OnOk result (stage_len stage.new ≡ stage_len stage.old + length bytes.now) }
        ensures staged { OnOk result (tells → staged stage.new ≡ staged stage.old ++ bytes.now) };

    /// The object at the path is the stage's bytes whole, in place of the one that stood there. An error leaves what
    /// stood there: Missing where the path's parent is no directory, or a directory stands at the path.
    fn commit(
        &mut self,
        alloc: Global,
        stage: Self::Stage,
        path: &VPath,
        mtime: u64,
    ) -> Result<Fingerprint, RemoteError>
        requires { path.now ≢ [] }
        ensures call { IsCall MayBeMissing (λ print. (print, staged stage) ∷ [])
            (outside self.old) (outside self.new) result }
        ensures lists { (outside self.new).lists ≡ (outside self.old).lists }
        ensures size { IfOk result (λ print. print.size ≡ stage_len stage) }
        ensures told { tells → PutsObject path.now (staged stage) (outside self.old) (outside self.new) result };

    // an object of a store that tells is one that tells
    ghost told_objects: { tells → Self.Object.tells };

    // and one whose objects tell is one that tells
    ghost told_by_objects: { Self.Object.tells → tells };

    // a stage of a store that tells has as many bytes as it tells
    ghost told_stages: { tells → (s : Self.Stage) → stage_len s ≡ length (staged s) };
}
