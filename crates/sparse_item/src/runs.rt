ghost use Rattle.std.specs.Prelude.{◌≡◌, ◌<◌, ◌≤◌, ◌+◌, ◌^◌, ℕ, List, Option, length, slice_index, OnOk, IfOk};
ghost use Rattle.vfs_outside.specs.Slot.{HasFault, Slot};
ghost use Rattle.item_meta.specs.declared.meta.Meta.{Meta};
ghost use Rattle.sparse_item.specs.Moves.{GoesOn, Moves};
ghost use Rattle.sparse_item.specs.Reading.{Fills, SameData};

use crate::slot::SlotFile;
use byte_ranges::{RangeSet, Span};
use std::alloc::Global;
use vfs_names::NoMemory;
use vfs_outside::{CacheFile, DiskError};

/// So many bytes, each of them 0.
pub fn zeros(alloc: Global, len: u64) -> Result<Vec<u8>, NoMemory>
    ensures count { IfOk result (λ bytes. length bytes.items ≡ len) }
    ensures zero { IfOk result (λ bytes. (i : ℕ) → i < length bytes.items
        → slice_index bytes.items i ≡ 0) }
{
    let mut bytes = Vec::new(alloc);
    match bytes.resize(len as usize, 0) {
        Ok(()) => Ok(bytes),
        Err(_) => Err(NoMemory),
    }
}

/// Reads the first run of bytes from `at` on that are here into its place of a buffer, whose first
/// byte is that at `pos`. Says up to where all that are here were read.
fn read_run<F: CacheFile>(
    slot: &mut SlotFile<F>,
    here: &RangeSet,
    pos: u64,
    at: u64,
    into: &mut [u8],
) -> Result<u64, DiskError>
    requires from { pos ≤ at }
    requires some { at < pos + length into.old }
    requires small { pos + length into.old ≤ 2 ^ 40 }
    ensures ok { IfOk result (λ next. (first : Slot) (before : List ℕ)
        → SameData F.tells first slot.old → Fills F.tells first here.now pos at before into.old
        → Fills F.tells first here.now pos next before into.new) }
    ensures further { IfOk result (λ next. at < next) }
    ensures most { IfOk result (λ next. next ≤ pos + length into.old) }
    ensures moves { (meta : Option Meta) → Moves F.tells meta slot.old meta slot.new }
    ensures data { SameData F.tells slot.old slot.new }
    ensures fault { HasFault slot.old.faults slot.new.faults result }
    ensures goes { GoesOn F.tells slot.old slot.new }
{
    let end = pos + into.len() as u64;
    let Some(run) = here.first_present(Span { start: at, end }) else {
        return Ok(end);
    };
    let from = (run.start - pos) as usize;
    let to = (run.end - pos) as usize;
    match slot.read_at(run.start, &mut into[from..to]) {
        Ok(()) => Ok(run.end),
        Err(why) => Err(why),
    }
}

/// Reads those of the bytes from `pos` on that are here into a buffer, each run of them by one
/// call. The buffer's other bytes stay as they are.
pub fn read_runs<F: CacheFile>(
    slot: &mut SlotFile<F>,
    here: &RangeSet,
    pos: u64,
    into: &mut [u8],
) -> Result<(), DiskError>
    requires small { pos + length into.old ≤ 2 ^ 40 }
    ensures ok { OnOk result (Fills F.tells slot.old here.now pos (pos + length into.old)
        into.old into.new) }
    ensures moves { (meta : Option Meta) → Moves F.tells meta slot.old meta slot.new }
    ensures fault { HasFault slot.old.faults slot.new.faults result }
    ensures goes { GoesOn F.tells slot.old slot.new }
{
    let end = pos + into.len() as u64;
    let mut at = pos;
    while at < end {
        match read_run(slot, here, pos, at, into) {
            Ok(next) => at = next,
            Err(why) => return Err(why),
        }
    }
    Ok(())
}
