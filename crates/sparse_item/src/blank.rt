ghost use Rattle.std.specs.Prelude.{◌≡◌, ◌<◌, ◌≤◌, ◌+◌, None, OnOk, OnErr};
ghost use Rattle.vfs_outside.specs.Slot.{HasFault};
ghost use Rattle.item_meta.specs.InRange.{IsMeta};
ghost use Rattle.sparse_item.specs.Answers.{Adds};
ghost use Rattle.sparse_item.specs.Blanking.{Blanks, Fills};
ghost use Rattle.sparse_item.specs.Fetching.{Beside};
ghost use Rattle.sparse_item.specs.Moves.{GoesOn};

use crate::runs::zeros;
use crate::settle::save;
use crate::slot::SlotFile;
use crate::store::put_runs;
use base_object::Block;
use byte_ranges::Span;
use item_image::fetched;
use item_meta::Meta;
use std::alloc::Global;
use vfs_names::Blob;
use vfs_outside::{CacheFile, DiskError};

/// Writes zeros where bytes of a gap aren't here, each run of them by one call, and then saves that
/// all of it is here.
fn put_zeros<F: CacheFile>(
    alloc: Global,
    slot: &mut SlotFile<F>,
    meta: &mut Meta,
    gap: Span,
) -> Result<(), DiskError>
    requires meta { IsMeta meta.old }
    requires some { gap.start < gap.end }
    requires within { gap.end ≤ meta.old.size }
    ensures ok { OnOk result (Blanks F.tells gap meta.old slot.old meta.new slot.new) }
    ensures fits { OnOk result (IsMeta meta.new) }
    ensures beside { OnErr result (Beside F.tells meta.old.ranges slot.old slot.new) }
    ensures same { OnErr result (meta.new ≡ meta.old) }
    ensures fault { HasFault slot.old.faults slot.new.faults result }
    ensures goes { GoesOn F.tells slot.old slot.new }
{
    let Ok(bytes) = zeros(alloc, gap.end - gap.start) else {
        return Err(DiskError::NoMemory);
    };
    let block = Block {
        pos: gap.start,
        bytes: Blob::from_vec(bytes),
    };
    let Ok(next) = fetched(alloc, meta, gap) else {
        return Err(DiskError::NoMemory);
    };
    match put_runs(slot, &meta.ranges, &block, gap.end) {
        Ok(()) => match save(alloc, slot, &next) {
            Ok(_) => {
                *meta = next;
                Ok(())
            }
            Err(why) => Err(why),
        },
        Err(why) => Err(why),
    }
}

/// Makes all of a gap here, which the object behind the file doesn't give: what isn't here becomes
/// zeros. Where all of it is here, no call is made.
pub fn blank<F: CacheFile>(
    alloc: Global,
    slot: &mut SlotFile<F>,
    meta: &mut Meta,
    gap: Span,
) -> Result<(), DiskError>
    requires meta { IsMeta meta.old }
    requires settled { meta.old.intent ≡ None }
    requires within { gap.end ≤ meta.old.size }
    ensures ok { OnOk result (Fills F.tells gap meta.old slot.old meta.new slot.new) }
    ensures here { OnOk result (Adds meta.old.ranges meta.new.ranges gap) }
    ensures beside { OnErr result (Beside F.tells meta.old.ranges slot.old slot.new) }
    ensures kept { OnErr result (meta.new ≡ meta.old) }
    ensures same { meta.new ≡ record meta.old { ranges = meta.new.ranges } }
    ensures fault { HasFault slot.old.faults slot.new.faults result }
    ensures goes { GoesOn F.tells slot.old slot.new }
{
    if gap.end <= gap.start {
        return Ok(());
    }
    if meta.ranges.covers(gap) {
        return Ok(());
    }
    put_zeros(alloc, slot, meta, gap)
}
