ghost use Rattle.std.specs.Prelude.{◌≡◌, ◌≢◌, ◌⊎◌, ◌+◌, ◌++◌, [], length, Some, OnOk, IfOk, IfErr};
ghost use Rattle.vfs_outside.specs.Outside.{MayBeMissing, StaysAlone};
ghost use Rattle.sparse_item.specs.Stores.{HandsCommitted, IsCommitCause, IsLaterStore, IsStageCause, PutsCommitted, refusal_at};
ghost use Rattle.sparse_item.specs.Uploading.{Uploading, why_after};

use std::alloc::Global;
use std::marker::Model;
use vfs_names::{Fingerprint, ItemId, Refusal, VPath};
use vfs_outside::{Remote, RemoteError};

/// An upload of a file that began, and that is to end by a save or a drop. It keeps for what one of
/// its calls was refused last.
#[derive(Debug, Drop)]
pub struct Upload {
    pub(crate) item: ItemId,
    // the index of its start in the file's history
    pub(crate) start: u32,
    pub(crate) version: u64,
    pub(crate) size: u64,
    pub(crate) why: Option<Refusal>,
}

impl Model for Upload {
    ghost use Rattle.std.specs.Prelude.{⊤};
    ghost use Rattle.sparse_item.specs.Uploading.{Uploading};

    ghost Value = { Uploading };

    ghost view = { λ u. record {
      item = u.item;
      start = u.start;
      version = u.version;
      size = u.size;
      why = u.why;
    } };

    ghost invariant = { λ u. ⊤ };
}

impl Upload {
    /// The file's number.
    pub fn item(&self) -> ItemId
        ensures { result ≡ self.now.item }
    {
        self.item
    }

    /// The index of its start in the file's history, whose oldest entry has the index 0.
    pub fn start(&self) -> u32
        ensures { result ≡ self.now.start }
    {
        self.start
    }

    /// The version of the content that is uploaded.
    pub fn version(&self) -> u64
        ensures { result ≡ self.now.version }
    {
        self.version
    }

    /// How many bytes that version has.
    pub fn size(&self) -> u64
        ensures { result ≡ self.now.size }
    {
        self.size
    }

    /// For what one of its calls was refused last.
    pub fn why(&self) -> Option<Refusal>
        ensures { result ≡ self.now.why }
    {
        self.why
    }

    /// The upload is to end for want of places or of memory.
    pub fn note(&mut self, why: Refusal)
        requires { (why ≡ Refusal.HistoryFull) ⊎ (why ≡ Refusal.NoMemory) }
        ensures { self.new ≡ record self.old { why = Some why } }
    {
        self.why = Some(why);
    }

    /// A stage with no bytes, for the upload's content.
    pub fn stage<R: Remote>(&mut self, alloc: Global, remote: &mut R) -> Result<R::Stage, Refusal>
        ensures empty { IfOk result (λ stage. R.stage_len stage ≡ 0) }
        ensures store { IsLaterStore (R.outside remote.old) (R.outside remote.new) }
        ensures handed { (R.outside remote.new).handed ≡ (R.outside remote.old).handed }
        ensures alone { StaysAlone (R.outside remote.old) (R.outside remote.new) }
        ensures causes { IfErr result
            (IsStageCause (R.outside remote.old) (R.outside remote.new)) }
        ensures why { self.new ≡ record self.old { why = why_after result self.old.why } }
    {
        match remote.stage(alloc) {
            Ok(stage) => Ok(stage),
            Err(why) => Err(self.keep(refusal_of(why))),
        }
    }

    /// Puts these bytes at a stage's end. After a refusal it is only to be dropped.
    pub fn append<R: Remote>(
        &mut self,
        remote: &mut R,
        stage: &mut R::Stage,
        bytes: &[u8],
    ) -> Result<(), Refusal>
        ensures longer { OnOk result
            (R.stage_len stage.new ≡ R.stage_len stage.old + length bytes.now) }
        ensures staged { OnOk result
            (R.tells → R.staged stage.new ≡ R.staged stage.old ++ bytes.now) }
        ensures store { IsLaterStore (R.outside remote.old) (R.outside remote.new) }
        ensures handed { (R.outside remote.new).handed ≡ (R.outside remote.old).handed }
        ensures alone { StaysAlone (R.outside remote.old) (R.outside remote.new) }
        ensures causes { IfErr result
            (IsStageCause (R.outside remote.old) (R.outside remote.new)) }
        ensures why { self.new ≡ record self.old { why = why_after result self.old.why } }
    {
        match remote.append(stage, bytes) {
            Ok(()) => Ok(()),
            Err(why) => Err(self.keep(refusal_of(why))),
        }
    }

    /// The object at the path is the stage's bytes, in place of the one that stood there.
    pub fn commit<R: Remote>(
        &mut self,
        alloc: Global,
        remote: &mut R,
        stage: R::Stage,
        path: &VPath,
        mtime: u64,
    ) -> Result<Fingerprint, Refusal>
        requires file { path.now ≢ [] }
        ensures size { IfOk result (λ print. print.size ≡ R.stage_len stage) }
        ensures store { IsLaterStore (R.outside remote.old) (R.outside remote.new) }
        ensures handed { HandsCommitted
            (R.staged stage) (R.outside remote.old) (R.outside remote.new) result }
        ensures put { R.tells → PutsCommitted path.now
            (R.staged stage) (R.outside remote.old) (R.outside remote.new) result }
        ensures causes { IfErr result
            (IsCommitCause (R.outside remote.old) (R.outside remote.new)) }
        ensures why { self.new ≡ record self.old { why = why_after result self.old.why } }
    {
        match remote.commit(alloc, stage, path, mtime) {
            Ok(print) => Ok(print),
            Err(why) => Err(self.keep(refusal_of(why))),
        }
    }

    /// Keeps for what a call of the upload is refused.
    pub(crate) fn keep(&mut self, why: Refusal) -> Refusal
        ensures why { result ≡ why }
        ensures kept { self.new ≡ record self.old { why = Some why } }
    {
        self.why = Some(why);
        why
    }
}

/// With what an upload is refused for its store.
fn refusal_of(why: RemoteError) -> Refusal
    requires { MayBeMissing why }
    ensures { result ≡ refusal_at why }
{
    match why {
        RemoteError::Missing => Refusal::NotFound,
        RemoteError::Failed => Refusal::RemoteFault,
        RemoteError::NoMemory => Refusal::NoMemory,
        RemoteError::Exists | RemoteError::NotEmpty => unreachable!(),
    }
}
