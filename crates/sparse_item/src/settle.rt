ghost use Rattle.std.specs.Prelude.{◌≡◌, ◌≤◌, ◌+◌, Some, None, is_some, IfOk, OnOk, OnErr};
ghost use Rattle.vfs_outside.specs.Slot.{HasFault};
ghost use Rattle.item_meta.specs.InRange.{IsMeta};
ghost use Rattle.item_image.specs.Next.{settled_meta};
ghost use Rattle.item_image.specs.Stands.{Means};
ghost use Rattle.sparse_item.specs.Moves.{GoesOn, Idles, Moves, Saves, Settles, settling};

use crate::slot::SlotFile;
use item_image::without_intent;
use item_meta::{Meta, write_meta};
use std::alloc::Global;
use vfs_names::Blob;
use vfs_outside::{CacheFile, DiskError};

/// Writes the data of a write that is pending, where one is.
pub fn settle<F: CacheFile>(slot: &mut SlotFile<F>, meta: &mut Meta) -> Result<(), DiskError>
    requires { IsMeta meta.old }
    ensures moves { Moves F.tells (Some meta.old) slot.old (Some meta.new) slot.new }
    ensures ok { OnOk result (meta.new ≡ settled_meta meta.old) }
    ensures same { meta.new ≡ record meta.old { intent = meta.new.intent } }
    ensures calls { meta.new.intent ≡ None
        → slot.new.calls ≡ slot.old.calls + settling (is_some meta.old.intent) }
    ensures most { slot.new.calls ≤ slot.old.calls + 1 }
    ensures fault { HasFault slot.old.faults slot.new.faults result }
    ensures goes { GoesOn F.tells slot.old slot.new }
{
    let Some(intent) = &meta.intent else {
        return Ok(());
    };
    match slot.write_at(intent.pos, intent.bytes.as_slice()) {
        Ok(()) => {
            without_intent(meta);
            Ok(())
        }
        Err(why) => Err(why),
    }
}

/// Saves metadata. Says the number of the save.
pub fn save<F: CacheFile>(
    alloc: Global,
    slot: &mut SlotFile<F>,
    meta: &Meta,
) -> Result<u64, DiskError>
    requires { IsMeta meta.now }
    ensures ok { OnOk result (Saves F.tells meta.now slot.old slot.new) }
    ensures at { IfOk result (λ at. at ≡ slot.new.calls) }
    ensures err { OnErr result (Idles F.tells slot.old slot.new) }
    ensures fault { HasFault slot.old.faults slot.new.faults result }
    ensures goes { GoesOn F.tells slot.old slot.new }
{
    let Ok(text) = write_meta(alloc, meta) else {
        return Err(DiskError::NoMemory);
    };
    match slot.save(text.as_slice()) {
        Ok(()) => Ok(slot.calls()),
        Err(why) => Err(why),
    }
}

/// Settles a write that is pending, and then saves the metadata that come next, whose text this is.
/// Says the number of the save.
pub fn commit<F: CacheFile>(
    slot: &mut SlotFile<F>,
    meta: &mut Meta,
    next: Meta,
    text: &Blob,
) -> Result<u64, DiskError>
    requires meta { IsMeta meta.old }
    requires means { Means text.now next }
    ensures ok { OnOk result (meta.new ≡ next) }
    ensures saves { OnOk result (Settles F.tells meta.old slot.old meta.new slot.new) }
    ensures at { IfOk result (λ at. at ≡ slot.new.calls) }
    ensures calls { OnOk result (slot.new.calls
        ≡ slot.old.calls + settling (is_some meta.old.intent) + 1) }
    ensures moves { OnErr result (Moves F.tells
        (Some meta.old) slot.old (Some meta.new) slot.new) }
    ensures same { OnErr result (meta.new ≡ record meta.old { intent = meta.new.intent }) }
    ensures fault { HasFault slot.old.faults slot.new.faults result }
    ensures goes { GoesOn F.tells slot.old slot.new }
{
    match settle(slot, meta) {
        Ok(()) => match slot.save(text.as_slice()) {
            Ok(()) => {
                *meta = next;
                Ok(slot.calls())
            }
            Err(why) => Err(why),
        },
        Err(unsettled) => Err(unsettled),
    }
}
