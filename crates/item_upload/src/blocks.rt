ghost use Rattle.std.specs.Prelude.{◌≡◌, ◌≢◌, ◌⊎◌, ◌<◌, ◌≤◌, ◌+◌, ◌||◌, ◌↔◌, ℕ, List, length, true, false, OnOk, OnErr, IfOk, IfErr};
ghost use Rattle.byte_ranges.specs.Ranges.{has, is_in};
ghost use Rattle.vfs_names.specs.declared.fingerprint.Fingerprint.{Fingerprint};
ghost use Rattle.vfs_names.specs.declared.refusal.Found.{Found};
ghost use Rattle.item_core.specs.declared.entry.FileKind.TheVariants as kinds;
ghost use Rattle.item_core.specs.History.{base_end_of, held_by, is_dirty, is_owed, version_of};
ghost use Rattle.item_core.specs.Legal.{EndsUpload};
ghost use Rattle.downloaders.specs.declared.Ask.{Ask};
ghost use Rattle.downloaders.specs.Orders.{here_in_the_end};
ghost use Rattle.downloaders.specs.Rules.{AreAsks, HasChunk};
ghost use Rattle.base_object.specs.Base.{IsLaterOf};
ghost use Rattle.base_object.specs.Pulls.{Loses, progress_of};
ghost use Rattle.base_object.specs.Reads.{Reads};
ghost use Rattle.item_upload.specs.Blocks.{IsPresent, IsStep};
ghost use Rattle.sparse_item.specs.Answers.{Enters, IsFull};
ghost use Rattle.sparse_item.specs.Fetching.{AreHere, IsFetchCause, Lacks};
ghost use Rattle.sparse_item.specs.Item.{IsSupplied};
ghost use Rattle.sparse_item.specs.Moves.{GoesOn};
ghost use Rattle.sparse_item.specs.Reading.{needed, shown};
ghost use Rattle.sparse_item.specs.Uploading.{IsDroppable, IsOf, IsOpen, begun_upload, block_len, dropped_as, past_object, why_after};

use downloaders::Plan;
use sparse_item::{BaseState, ItemBook, Upload};
use vfs_names::{Blob, By, Refusal};
use vfs_outside::{CacheFile, Object};

/// What a block of an upload is answered.
#[derive(Debug, Drop)]
pub enum Step {
    /// Its bytes.
    Bytes(Blob),
    /// Another version is present than the one that was noted.
    Cancelled { was: u64, now: u64 },
}

/// Begins an upload of the present version, and keeps a place for its end.
pub fn start<O: Object, F: CacheFile>(item: &mut ItemBook<O, F>, by: By) -> Result<Upload, Refusal>
    requires owed { is_owed item.old.log.past ≡ true }
    requires supplied { IsSupplied
        item.old.base.state item.old.here (base_end_of item.old.log.past) }
    ensures ok { OnOk result (Enters by
        (kinds.UploadStart (version_of item.old.log.past)) item.old item.new) }
    ensures upload { IfOk result (λ upload. upload ≡ begun_upload item.old.id item.old.log.past) }
    ensures err { OnErr result (item.new.log.past ≡ item.old.log.past) }
    ensures full { (result ≡ Err Refusal.HistoryFull) ↔ IsFull item.old 2 }
    ensures causes { IfErr result (λ why. (why ≡ Refusal.HistoryFull) ⊎ (why ≡ Refusal.NoMemory)) }
    ensures limit { item.new.log.limit ≡ item.old.log.limit }
    ensures same { item.new ≡ record item.old { log = item.new.log } }
{
    item.upload_begin(by)
}

/// The bytes of an upload from `pos` on, 131,072 of them or as many as there are, each of which is in
/// the slot's file then; or that another version is present than the one that was noted, and then
/// nothing was done.
pub fn block<O: Object, F: CacheFile>(
    item: &mut ItemBook<O, F>,
    plan: &Plan,
    upload: &mut Upload,
    pos: u64,
) -> Result<Step, Refusal>
    requires chunk { HasChunk plan.now.chunk }
    requires upload { IsOf item.old.log.past upload.old }
    requires dirty { IsPresent item.old upload.old → is_dirty item.old.log.past ≡ true }
    ensures step { IfOk result (IsStep F.tells O.tells item.old upload.old pos) }
    ensures refused { OnErr result (IsPresent item.old upload.old) }
    ensures untouched { upload.old.version ≢ version_of item.old.log.past → item.new ≡ item.old }
    ensures asks { IsPresent item.old upload.old → (asks : List Ask)
        → AreAsks plan.now (needed item.old.log.past pos block_len)
        (base_end_of item.old.log.past) (has item.old.here) item.old.base.crew asks
        → Reads asks (progress_of item.old.base) (progress_of item.new.base) result }
    ensures all { IsPresent item.old upload.old → (asks : List Ask)
        → AreAsks plan.now (needed item.old.log.past pos block_len)
        (base_end_of item.old.log.past) (has item.old.here) item.old.base.crew asks
        → OnOk result ((p : ℕ) → has item.new.here p
        ≡ (here_in_the_end asks (base_end_of item.old.log.past) (has item.old.here) p
        || is_in (past_object item.old.log.past pos) p)) }
    ensures got { IsPresent item.old upload.old → OnOk result
        (AreHere item.new.here pos (pos + shown item.old.log.past pos block_len)) }
    ensures settled { IsPresent item.old upload.old
        → OnOk result (0 < shown item.old.log.past pos block_len → item.new.pending ≡ false) }
    ensures here { (p : ℕ) → has item.old.here p ≡ true → has item.new.here p ≡ true }
    ensures object { IsLaterOf item.old.base.object item.new.base.object }
    ensures state { Loses result item.old.base.state item.new.base.state }
    ensures lost { IsPresent item.old upload.old → (held : Fingerprint) (found : Found)
        → item.old.base.state ≡ BaseState.Lost held found
        → Lacks item.old.here (needed item.old.log.past pos block_len)
        → (result ≡ Err Refusal.NoMemory) ⊎ (result ≡ Err (Refusal.Stale held found)) }
    ensures causes { IfErr result (IsFetchCause item.old item.new
        (needed item.old.log.past pos block_len)) }
    ensures ends { IfErr result (EndsUpload (held_by item.old.log.past)) }
    ensures why { upload.new ≡ record upload.old { why = why_after result upload.old.why } }
    ensures slot { GoesOn F.tells item.old.slot item.new.slot }
    ensures same { item.new ≡ record item.old {
      base = item.new.base;
      here = item.new.here;
      pending = item.new.pending;
      slot = item.new.slot;
    } }
{
    let (was, now) = (upload.version(), item.version());
    if was != now {
        return Ok(Step::Cancelled { was, now });
    }
    // the history is legal, so that a changed file is kept
    let _ = item.entries();
    match item.upload_bytes(plan, upload, pos) {
        Ok(bytes) => Ok(Step::Bytes(bytes)),
        Err(why) => Err(why),
    }
}

/// Ends an upload that saved nothing: it is cancelled where another version is present, and else it
/// failed, for what it keeps, or since the file has nothing to upload any more. Takes no memory.
pub fn give_up<O: Object, F: CacheFile>(item: &mut ItemBook<O, F>, by: By, upload: Upload)
    requires open { IsOpen item.old.log.past by.pass upload }
    requires cause { IsDroppable item.old.log.past upload }
    ensures past { Enters by (kinds.UploadDropped upload.start
        (dropped_as item.old.log.past upload)) item.old item.new }
    ensures limit { item.new.log.limit ≡ item.old.log.limit }
    ensures room { item.old.log.spare ≤ item.new.log.spare }
    ensures same { item.new ≡ record item.old { log = item.new.log } }
{
    item.upload_drop(by, upload);
}
