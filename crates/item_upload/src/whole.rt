ghost use Rattle.std.specs.Prelude.{◌≡◌, ◌↔◌, ℕ, true, not, OnOk, OnErr, IfOk, IfErr};
ghost use Rattle.byte_ranges.specs.Ranges.{has};
ghost use Rattle.item_core.specs.declared.entry.FileKind.TheVariants as kinds;
ghost use Rattle.item_core.specs.History.{base_end_of, held_by, is_dirty, is_owed, size_of};
ghost use Rattle.item_core.specs.Legal.{EndsUpload};
ghost use Rattle.item_image.specs.Premise.{IsHanded};
ghost use Rattle.downloaders.specs.Rules.{HasChunk};
ghost use Rattle.base_object.specs.Base.{IsLaterOf};
ghost use Rattle.base_object.specs.Pulls.{Loses};
ghost use Rattle.item_upload.specs.Whole.{EntersUpload, IfDropped, IfSaved, IfUnbegun, IsCurrent, IsDropCause, IsEndCause, LeavesBase, MayCommitWhole, MayHandWhole, UploadsWhole, is_saved};
ghost use Rattle.sparse_item.specs.Answers.{Enters, IsFull};
ghost use Rattle.sparse_item.specs.Item.{IsAllHere, IsSupplied};
ghost use Rattle.sparse_item.specs.Moves.{GoesOn};
ghost use Rattle.sparse_item.specs.Stores.{IsLaterStore};
ghost use Rattle.sparse_item.specs.Uploading.{IsOpen, unbound_base, why_after};

use crate::staging::stage_whole;
use crate::{Finished, finish, give_up, start};
use downloaders::Plan;
use sparse_item::{ItemBook, Upload};
use std::alloc::Global;
use vfs_names::{By, Fingerprint, Refusal};
use vfs_outside::{CacheFile, Remote};

/// How one upload went.
#[derive(Clone, Copy, Debug, PartialEq, Eq)]
pub enum Ended {
    /// The content is this object now, and that is saved.
    Saved(Fingerprint),
    /// It was begun, and dropped for this.
    Dropped(Refusal),
    /// It couldn't be begun, for this.
    Unbegun(Refusal),
}

/// Carries out an upload that began of the present version: stages the whole content, commits it and
/// saves that. After a refusal the file is as changed as before, also where its content was
/// committed, and the upload hasn't ended.
fn carry_out<R: Remote, F: CacheFile>(
    alloc: Global,
    item: &mut ItemBook<R::Object, F>,
    remote: &mut R,
    plan: &Plan,
    by: By,
    upload: &mut Upload,
) -> Result<Fingerprint, Refusal>
    requires tree { by.tree ≡ true }
    requires chunk { HasChunk plan.now.chunk }
    requires current { IsCurrent item.old upload.old }
    requires pass { IsOpen item.old.log.past by.pass upload.old }
    ensures done { IfOk result (λ print.
        Enters by (kinds.Uploaded upload.old.start print) item.old item.new) }
    ensures base { IfOk result (λ print. item.new.base ≡ unbound_base print) }
    ensures got { OnOk result (IsAllHere item.new.here (size_of item.old.log.past)) }
    ensures uploads { IfOk result (UploadsWhole F.tells R.tells R.Object.tells item.old
        (R.outside remote.old) (R.outside remote.new)) }
    ensures err { OnErr result (item.new.log ≡ item.old.log) }
    ensures object { OnErr result (IsLaterOf item.old.base.object item.new.base.object) }
    ensures state { OnErr result (Loses result item.old.base.state item.new.base.state) }
    ensures unsaved { R.tells → OnErr result (MayCommitWhole F.tells R.Object.tells item.old
        (R.outside remote.old) (R.outside remote.new)) }
    ensures may_hand { OnErr result (MayHandWhole F.tells R.tells R.Object.tells item.old
        (R.outside remote.old) (R.outside remote.new)) }
    ensures whole { F.tells → R.tells → IsHanded R.Object.tells (R.outside remote.old).handed
        item.old.slot.told.first item.old.log.past item.old.pairs
        → IsHanded R.Object.tells (R.outside remote.new).handed
        item.old.slot.told.first item.new.log.past item.new.pairs }
    ensures causes { IfErr result (IsDropCause item.old item.new
        (R.outside remote.old) (R.outside remote.new)) }
    ensures ends { IfErr result (EndsUpload (held_by item.old.log.past)) }
    ensures why { upload.new ≡ record upload.old { why = why_after result upload.old.why } }
    ensures here { (p : ℕ) → has item.old.here p ≡ true → has item.new.here p ≡ true }
    ensures limit { item.new.log.limit ≡ item.old.log.limit }
    ensures slot { GoesOn F.tells item.old.slot item.new.slot }
    ensures store { IsLaterStore (R.outside remote.old) (R.outside remote.new) }
    ensures same { item.new ≡ record item.old {
      log = item.new.log;
      base = item.new.base;
      here = item.new.here;
      pending = item.new.pending;
      slot = item.new.slot;
    } }
{
    match stage_whole(alloc, item, remote, plan, upload) {
        Ok(stage) => match finish(alloc, item, remote, by, upload, stage) {
            Ok(Finished::Done(print)) => Ok(print),
            Ok(Finished::Cancelled { .. }) => unreachable!(),
            Err(why) => Err(why),
        },
        Err(why) => Err(why),
    }
}

/// Uploads the present content of a file whole, or nothing of it: the upload begins, the content is
/// staged block by block, committed to the file's path, and it is saved that the file is that object.
/// After a refusal past the start the upload is dropped for it, and the file is as changed as before
/// and still owed, also where its content was committed and then that couldn't be saved.
///
/// It isn't begun with HistoryFull where fewer than two places are left in the history. It is dropped
/// with RemoteFault where the store failed or the object behind the file did, with NotFound where
/// nothing can be put at the path, with DiskFault where a call on the slot's file failed, and with
/// Stale where the object that the file holds can't be had. Either may be for NoMemory.
///
/// Each block of 131,072 bytes is brought into the slot's file, as `block` does it, and then put to
/// the stage by one call on the store; a stage and a commit are one call each. Nobody else uses the
/// file meanwhile, so that the version stays the one that was noted.
pub fn upload<R: Remote, F: CacheFile>(
    alloc: Global,
    item: &mut ItemBook<R::Object, F>,
    remote: &mut R,
    plan: &Plan,
    by: By,
) -> Ended
    requires tree { by.tree ≡ true }
    requires owed { is_owed item.old.log.past ≡ true }
    requires supplied { IsSupplied
        item.old.base.state item.old.here (base_end_of item.old.log.past) }
    requires chunk { HasChunk plan.now.chunk }

    // what is added to the history, and what it says of the file then
    ensures past { EntersUpload by item.old item.new result }
    ensures dirty { is_dirty item.new.log.past ≡ not (is_saved result) }
    ensures owed { is_owed item.new.log.past ≡ not (is_saved result) }

    // saved
    ensures uploads { IfSaved result (UploadsWhole F.tells R.tells R.Object.tells item.old
        (R.outside remote.old) (R.outside remote.new)) }
    ensures got { IfSaved result (λ _. IsAllHere item.new.here (size_of item.old.log.past)) }

    // dropped
    ensures unsaved { R.tells → IfDropped result (λ _. MayCommitWhole F.tells R.Object.tells
        item.old (R.outside remote.old) (R.outside remote.new)) }
    ensures may_hand { IfDropped result (λ _. MayHandWhole F.tells R.tells R.Object.tells
        item.old (R.outside remote.old) (R.outside remote.new)) }
    ensures ends { IfDropped result (EndsUpload (held_by item.old.log.past)) }

    // unbegun
    ensures untouched { IfUnbegun result (λ _. item.new ≡ record item.old { log = item.new.log }) }
    ensures uncalled { IfUnbegun result (λ _. R.outside remote.new ≡ R.outside remote.old) }
    ensures full { (result ≡ Ended.Unbegun Refusal.HistoryFull) ↔ IsFull item.old 2 }

    // however it went
    ensures causes { IsEndCause item.old item.new
        (R.outside remote.old) (R.outside remote.new) result }
    ensures whole { F.tells → R.tells → IsHanded R.Object.tells (R.outside remote.old).handed
        item.old.slot.told.first item.old.log.past item.old.pairs
        → IsHanded R.Object.tells (R.outside remote.new).handed
        item.old.slot.told.first item.new.log.past item.new.pairs }
    ensures base { LeavesBase item.old.base item.new.base result }
    ensures supplied { IsSupplied
        item.new.base.state item.new.here (base_end_of item.new.log.past) }
    ensures here { (p : ℕ) → has item.old.here p ≡ true → has item.new.here p ≡ true }
    ensures limit { item.new.log.limit ≡ item.old.log.limit }
    ensures slot { GoesOn F.tells item.old.slot item.new.slot }
    ensures store { IsLaterStore (R.outside remote.old) (R.outside remote.new) }
    ensures same { item.new ≡ record item.old {
      log = item.new.log;
      base = item.new.base;
      here = item.new.here;
      pending = item.new.pending;
      slot = item.new.slot;
    } }
{
    match start(item, by) {
        Ok(mut upload) => match carry_out(alloc, item, remote, plan, by, &mut upload) {
            Ok(print) => Ended::Saved(print),
            Err(why) => {
                give_up(item, by, upload);
                Ended::Dropped(why)
            }
        },
        Err(why) => Ended::Unbegun(why),
    }
}
