ghost use Rattle.std.specs.Prelude.{◌≡◌, ◌<◌, ◌≤◌, ◌+◌, ◌^◌, ℕ, None, length, min, OnOk, OnErr, IfOk};
ghost use Rattle.byte_ranges.specs.Ranges.{has};
ghost use Rattle.vfs_outside.specs.Slot.{HasFault, Slot};
ghost use Rattle.item_meta.specs.InRange.{IsMeta};
ghost use Rattle.base_object.specs.Pulls.{here_with};
ghost use Rattle.sparse_item.specs.Fetching.{Beside, Puts, Stores, taken};
ghost use Rattle.sparse_item.specs.Moves.{GoesOn};

use crate::settle::save;
use crate::slot::SlotFile;
use base_object::Block;
use byte_ranges::{RangeSet, Span};
use item_image::fetched;
use item_meta::Meta;
use std::alloc::Global;
use vfs_outside::{CacheFile, DiskError};

/// Writes the first run of a block's bytes from `at` on and before `end` that aren't here. Says up
/// to where they all are then.
fn put_run<F: CacheFile>(
    slot: &mut SlotFile<F>,
    here: &RangeSet,
    block: &Block,
    at: u64,
    end: u64,
) -> Result<u64, DiskError>
    requires from { block.now.pos ≤ at }
    requires some { at < end }
    requires within { end ≤ block.now.pos + length block.now.bytes }
    requires small { end ≤ 2 ^ 40 }
    ensures ok { IfOk result (λ next. (before : Slot)
        → Puts F.tells here.now block.now at before slot.old
        → Puts F.tells here.now block.now next before slot.new) }
    ensures further { IfOk result (λ next. at < next) }
    ensures most { IfOk result (λ next. next ≤ end) }
    ensures beside { Beside F.tells here.now slot.old slot.new }
    ensures fault { HasFault slot.old.faults slot.new.faults result }
    ensures goes { GoesOn F.tells slot.old slot.new }
{
    let Some(run) = here.first_missing(Span { start: at, end }) else {
        return Ok(end);
    };
    let from = (run.start - block.pos) as usize;
    let to = (run.end - block.pos) as usize;
    match slot.write_at(run.start, &block.bytes.as_slice()[from..to]) {
        Ok(()) => Ok(run.end),
        Err(why) => Err(why),
    }
}

/// Writes those of a block's bytes before `end` that aren't here, each run of them by one call.
pub fn put_runs<F: CacheFile>(
    slot: &mut SlotFile<F>,
    here: &RangeSet,
    block: &Block,
    end: u64,
) -> Result<(), DiskError>
    requires some { block.now.pos ≤ end }
    requires within { end ≤ block.now.pos + length block.now.bytes }
    requires small { end ≤ 2 ^ 40 }
    ensures ok { OnOk result (Puts F.tells here.now block.now end slot.old slot.new) }
    ensures beside { Beside F.tells here.now slot.old slot.new }
    ensures fault { HasFault slot.old.faults slot.new.faults result }
    ensures goes { GoesOn F.tells slot.old slot.new }
{
    let mut at = block.pos;
    while at < end {
        match put_run(slot, here, block, at, end) {
            Ok(next) => at = next,
            Err(why) => return Err(why),
        }
    }
    Ok(())
}

/// Stores a block: those of its bytes below the base end that aren't here are written, and then it
/// is saved that they are here.
pub fn store<F: CacheFile>(
    alloc: Global,
    slot: &mut SlotFile<F>,
    meta: &mut Meta,
    block: &Block,
) -> Result<(), DiskError>
    requires meta { IsMeta meta.old }
    requires some { 1 ≤ length block.now.bytes }
    requires below { block.now.pos < meta.old.base_end }
    ensures ok { OnOk result (Stores F.tells block.now meta.old slot.old meta.new slot.new) }
    ensures here { OnOk result ((p : ℕ) → has meta.new.ranges p
        ≡ here_with block.now meta.old.base_end (has meta.old.ranges) p) }
    ensures beside { OnErr result (Beside F.tells meta.old.ranges slot.old slot.new) }
    ensures same { OnErr result (meta.new ≡ meta.old) }
    ensures fault { HasFault slot.old.faults slot.new.faults result }
    ensures goes { GoesOn F.tells slot.old slot.new }
{
    let len = block.bytes.as_slice().len() as u64;
    let end = block.pos.saturating_add(len).min(meta.base_end);
    let span = Span {
        start: block.pos,
        end,
    };
    let Ok(next) = fetched(alloc, meta, span) else {
        return Err(DiskError::NoMemory);
    };
    match put_runs(slot, &meta.ranges, block, end) {
        Ok(()) => match save(alloc, slot, &next) {
            Ok(_) => {
                *meta = next;
                Ok(())
            }
            Err(why) => Err(why),
        },
        Err(why) => Err(why),
    }
}
