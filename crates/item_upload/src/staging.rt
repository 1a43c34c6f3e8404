ghost use Rattle.std.specs.Prelude.{◌≡◌, ◌<◌, ◌≤◌, ◌+◌, ℕ, true, OnOk, IfOk, IfErr};
ghost use Rattle.byte_ranges.specs.Ranges.{has};
ghost use Rattle.vfs_outside.specs.Outside.{StaysAlone};
ghost use Rattle.item_core.specs.History.{held_by, size_of};
ghost use Rattle.item_core.specs.Legal.{EndsUpload};
ghost use Rattle.downloaders.specs.Rules.{HasChunk};
ghost use Rattle.base_object.specs.Base.{IsLaterOf};
ghost use Rattle.base_object.specs.Pulls.{Loses};
ghost use Rattle.item_upload.specs.Finishing.{IsStaged};
ghost use Rattle.item_upload.specs.Whole.{IsCurrent, IsDropCause, IsStagedTo};
ghost use Rattle.sparse_item.specs.Moves.{GoesOn};
ghost use Rattle.sparse_item.specs.Stores.{IsLaterStore};
ghost use Rattle.sparse_item.specs.Uploading.{why_after};

use crate::{Step, block};
use downloaders::Plan;
use sparse_item::{ItemBook, Upload};
use std::alloc::Global;
use vfs_names::Refusal;
use vfs_outside::{CacheFile, Remote};

/// Puts the block of the content from `pos` on at a stage's end. Says how many bytes it has.
fn put_block<R: Remote, F: CacheFile>(
    item: &mut ItemBook<R::Object, F>,
    remote: &mut R,
    plan: &Plan,
    upload: &mut Upload,
    stage: &mut R::Stage,
    pos: u64,
) -> Result<u64, Refusal>
    requires chunk { HasChunk plan.now.chunk }
    requires current { IsCurrent item.old upload.old }
    requires below { pos < size_of item.old.log.past }
    requires front { IsStagedTo F.tells R.tells R.Object.tells item.old pos
        (R.stage_len stage.old) (R.staged stage.old) }
    ensures some { IfOk result (λ len. 0 < len) }
    ensures most { IfOk result (λ len. pos + len ≤ size_of item.old.log.past) }
    ensures staged { IfOk result (λ len. IsStagedTo F.tells R.tells R.Object.tells item.new
        (pos + len) (R.stage_len stage.new) (R.staged stage.new)) }
    ensures here { (p : ℕ) → has item.old.here p ≡ true → has item.new.here p ≡ true }
    ensures object { IsLaterOf item.old.base.object item.new.base.object }
    ensures state { Loses result item.old.base.state item.new.base.state }
    ensures causes { IfErr result (IsDropCause item.old item.new
        (R.outside remote.old) (R.outside remote.new)) }
    ensures ends { IfErr result (EndsUpload (held_by item.old.log.past)) }
    ensures why { upload.new ≡ record upload.old { why = why_after result upload.old.why } }
    ensures slot { GoesOn F.tells item.old.slot item.new.slot }
    ensures store { IsLaterStore (R.outside remote.old) (R.outside remote.new) }
    ensures handed { (R.outside remote.new).handed ≡ (R.outside remote.old).handed }
    ensures alone { StaysAlone (R.outside remote.old) (R.outside remote.new) }
    ensures same { item.new ≡ record item.old {
      base = item.new.base;
      here = item.new.here;
      pending = item.new.pending;
      slot = item.new.slot;
    } }
{
    match block(item, plan, upload, pos) {
        Ok(Step::Bytes(bytes)) => match upload.append(remote, stage, bytes.as_slice()) {
            Ok(()) => Ok(bytes.as_slice().len() as u64),
            Err(why) => Err(why),
        },
        Ok(Step::Cancelled { .. }) => unreachable!(),
        Err(why) => Err(why),
    }
}

/// Puts the whole content into an empty stage, block after block.
fn fill<R: Remote, F: CacheFile>(
    item: &mut ItemBook<R::Object, F>,
    remote: &mut R,
    plan: &Plan,
    upload: &mut Upload,
    stage: &mut R::Stage,
) -> Result<(), Refusal>
    requires chunk { HasChunk plan.now.chunk }
    requires current { IsCurrent item.old upload.old }
    requires empty { R.stage_len stage.old ≡ 0 }
    ensures staged { OnOk result (IsStaged F.tells R.tells R.Object.tells item.new
        (R.stage_len stage.new) (R.staged stage.new)) }
    ensures here { (p : ℕ) → has item.old.here p ≡ true → has item.new.here p ≡ true }
    ensures object { IsLaterOf item.old.base.object item.new.base.object }
    ensures state { Loses result item.old.base.state item.new.base.state }
    ensures causes { IfErr result (IsDropCause item.old item.new
        (R.outside remote.old) (R.outside remote.new)) }
    ensures ends { IfErr result (EndsUpload (held_by item.old.log.past)) }
    ensures why { upload.new ≡ record upload.old { why = why_after result upload.old.why } }
    ensures slot { GoesOn F.tells item.old.slot item.new.slot }
    ensures store { IsLaterStore (R.outside remote.old) (R.outside remote.new) }
    ensures handed { (R.outside remote.new).handed ≡ (R.outside remote.old).handed }
    ensures alone { StaysAlone (R.outside remote.old) (R.outside remote.new) }
    ensures same { item.new ≡ record item.old {
      base = item.new.base;
      here = item.new.here;
      pending = item.new.pending;
      slot = item.new.slot;
    } }
{
    let mut pos = 0;
    while pos < upload.size() {
        match put_block(item, remote, plan, upload, stage, pos) {
            Ok(len) => pos += len,
            Err(why) => return Err(why),
        }
    }
    Ok(())
}

/// A stage that has the whole content. Each of its bytes is in the slot's file then.
pub fn stage_whole<R: Remote, F: CacheFile>(
    alloc: Global,
    item: &mut ItemBook<R::Object, F>,
    remote: &mut R,
    plan: &Plan,
    upload: &mut Upload,
) -> Result<R::Stage, Refusal>
    requires chunk { HasChunk plan.now.chunk }
    requires current { IsCurrent item.old upload.old }
    ensures staged { IfOk result (λ stage. IsStaged F.tells R.tells R.Object.tells item.new
        (R.stage_len stage) (R.staged stage)) }
    ensures here { (p : ℕ) → has item.old.here p ≡ true → has item.new.here p ≡ true }
    ensures object { IsLaterOf item.old.base.object item.new.base.object }
    ensures state { Loses result item.old.base.state item.new.base.state }
    ensures causes { IfErr result (IsDropCause item.old item.new
        (R.outside remote.old) (R.outside remote.new)) }
    ensures ends { IfErr result (EndsUpload (held_by item.old.log.past)) }
    ensures why { upload.new ≡ record upload.old { why = why_after result upload.old.why } }
    ensures slot { GoesOn F.tells item.old.slot item.new.slot }
    ensures store { IsLaterStore (R.outside remote.old) (R.outside remote.new) }
    ensures handed { (R.outside remote.new).handed ≡ (R.outside remote.old).handed }
    ensures alone { StaysAlone (R.outside remote.old) (R.outside remote.new) }
    ensures same { item.new ≡ record item.old {
      base = item.new.base;
      here = item.new.here;
      pending = item.new.pending;
      slot = item.new.slot;
    } }
{
    match upload.stage(alloc, remote) {
        Ok(mut stage) => match fill(item, remote, plan, upload, &mut stage) {
            Ok(()) => Ok(stage),
            Err(why) => Err(why),
        },
        Err(why) => Err(why),
    }
}
