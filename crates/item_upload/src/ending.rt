ghost use Rattle.std.specs.Prelude.{◌≡◌, ◌≢◌, ◌≤◌, ◌+◌, ℕ, true, List, OnOk, OnErr, IfOk, IfErr};
ghost use Rattle.vfs_names.specs.declared.fingerprint.Fingerprint.{Fingerprint as Print};
ghost use Rattle.item_core.specs.declared.entry.FileKind.TheVariants as kinds;
ghost use Rattle.item_core.specs.History.{held_by, is_kept, version_of};
ghost use Rattle.item_core.specs.Legal.{EndsUpload};
ghost use Rattle.item_image.specs.Premise.{IsHanded};
ghost use Rattle.item_upload.specs.Blocks.{IsPresent};
ghost use Rattle.item_upload.specs.Finishing.{IsCommitted, IsFinishCause, IsStaged, IsUnsaved, MayHand};
ghost use Rattle.sparse_item.specs.Answers.{Enters};
ghost use Rattle.sparse_item.specs.Moves.{GoesOn};
ghost use Rattle.sparse_item.specs.Stores.{HandsCommitted, IsCommitCause, IsLaterStore};
ghost use Rattle.sparse_item.specs.Uploading.{IsOpen, unbound_base, why_after};

use sparse_item::{ItemBook, Upload};
use std::alloc::Global;
use vfs_names::{By, Fingerprint, Refusal};
use vfs_outside::{CacheFile, Remote};

/// How an upload ended that wasn't refused.
#[derive(Clone, Copy, Debug, PartialEq, Eq)]
pub enum Finished {
    /// The content is this object now, and that is saved.
    Done(Fingerprint),
    /// Another version is present than the one that was noted; nothing was done.
    Cancelled { was: u64, now: u64 },
}

/// Commits a stage to the file's path.
fn commit_to_path<R: Remote, F: CacheFile>(
    alloc: Global,
    item: &ItemBook<R::Object, F>,
    remote: &mut R,
    upload: &mut Upload,
    stage: R::Stage,
) -> Result<Fingerprint, Refusal>
    requires kept { is_kept item.now.log.past ≡ true }
    ensures size { IfOk result (λ print. print.size ≡ R.stage_len stage) }
    ensures store { IsLaterStore (R.outside remote.old) (R.outside remote.new) }
    ensures handed { HandsCommitted
        (R.staged stage) (R.outside remote.old) (R.outside remote.new) result }
    ensures put { R.tells → IfOk result (IsCommitted item.now
        (R.staged stage) (R.outside remote.old) (R.outside remote.new)) }
    ensures nothing { R.tells → OnErr result ((R.outside remote.new).others ≡ 0
        → (R.outside remote.new).store ≡ (R.outside remote.old).store) }
    ensures causes { IfErr result
        (IsCommitCause (R.outside remote.old) (R.outside remote.new)) }
    ensures why { upload.new ≡ record upload.old { why = why_after result upload.old.why } }
{
    let mtime = item.look().mtime;
    let Some(path) = item.path() else {
        unreachable!()
    };
    upload.commit(alloc, remote, stage, path, mtime)
}

/// Ends an upload whose content stands in a stage: where the noted version is still the present one,
/// the stage is committed to the file's path, and it is saved that the file is that object. After a
/// refusal the file is as changed as before, also where its content was committed, and the upload
/// hasn't ended.
pub fn finish<R: Remote, F: CacheFile>(
    alloc: Global,
    item: &mut ItemBook<R::Object, F>,
    remote: &mut R,
    by: By,
    upload: &mut Upload,
    stage: R::Stage,
) -> Result<Finished, Refusal>
    requires tree { by.tree ≡ true }
    requires upload { IsOpen item.old.log.past by.pass upload.old }
    requires staged { IsPresent item.old upload.old → IsStaged F.tells R.tells R.Object.tells
        item.old (R.stage_len stage) (R.staged stage) }
    ensures cancelled { upload.old.version ≢ version_of item.old.log.past → result
        ≡ Ok (Finished.Cancelled upload.old.version (version_of item.old.log.past)) }
    ensures untouched { upload.old.version ≢ version_of item.old.log.past
        → (item.new ≡ item.old) × (R.outside remote.new ≡ R.outside remote.old) }
    ensures ok { IsPresent item.old upload.old → OnOk result ((print : Print)
        × (result ≡ Ok (Finished.Done print))) }
    ensures done { (print : Print) → result ≡ Ok (Finished.Done print)
        → Enters by (kinds.Uploaded upload.old.start print) item.old item.new }
    ensures saved { (print : Print) → result ≡ Ok (Finished.Done print)
        → item.new ≡ record item.old {
          log = item.new.log;
          base = unbound_base print;
          pending = item.new.pending;
          slot = item.new.slot;
        } }
    ensures handed { (print : Print) → result ≡ Ok (Finished.Done print)
        → HandsCommitted (R.staged stage)
        (R.outside remote.old) (R.outside remote.new) (Ok print) }
    ensures put { R.tells → (print : Print) → result ≡ Ok (Finished.Done print)
        → IsCommitted item.old (R.staged stage)
        (R.outside remote.old) (R.outside remote.new) print }
    ensures err { OnErr result (item.new ≡ record item.old {
      pending = item.new.pending;
      slot = item.new.slot;
    }) }
    ensures unsaved { R.tells → OnErr result (IsUnsaved item.old (R.staged stage)
        (R.outside remote.old) (R.outside remote.new)) }
    ensures may_hand { OnErr result (MayHand (R.staged stage)
        (R.outside remote.old) (R.outside remote.new)) }
    ensures whole { F.tells → R.tells → IsHanded R.Object.tells (R.outside remote.old).handed
        item.old.slot.told.first item.old.log.past item.old.pairs
        → IsHanded R.Object.tells (R.outside remote.new).handed
        item.old.slot.told.first item.new.log.past item.new.pairs }
    ensures causes { IfErr result (IsFinishCause item.old item.new
        (R.outside remote.old) (R.outside remote.new)) }
    ensures ends { IfErr result (EndsUpload (held_by item.old.log.past)) }
    ensures why { upload.new ≡ record upload.old { why = why_after result upload.old.why } }
    ensures limit { item.new.log.limit ≡ item.old.log.limit }
    ensures room { item.old.log.spare ≤ item.new.log.spare }
    ensures store { IsLaterStore (R.outside remote.old) (R.outside remote.new) }
    ensures slot { GoesOn F.tells item.old.slot item.new.slot }
{
    let (was, now) = (upload.version(), item.version());
    if was != now {
        return Ok(Finished::Cancelled { was, now });
    }
    // the history is legal, so that a changed file is kept
    let _ = item.entries();
    match commit_to_path(alloc, item, remote, upload, stage) {
        Ok(print) => match item.upload_save(by, upload, print) {
            Ok(()) => Ok(Finished::Done(print)),
            Err(why) => Err(why),
        },
        Err(why) => Err(why),
    }
}
