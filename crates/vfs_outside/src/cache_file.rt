ghost use Rattle.std.specs.Prelude.{◌≡◌, ◌+◌, ◌^◌, ◌≤◌, length, IfOk, OnOk};
ghost use Rattle.vfs_outside.specs.Image.{meta_in};
ghost use Rattle.vfs_outside.specs.Slot.{IsCall, Makes, Reads, Slot, Writes, image};
ghost use Rattle.vfs_outside.specs.declared.file_call.FileCall.TheVariants.{Quiet, Saved, Cleared};

use crate::DiskError;
use vfs_names::Blob;

/// A slot's file of the cache: the text of its metadata, and its data by positions below 2^40.
pub trait CacheFile: Drop {
    // where it holds, `slot` has what was done to the file
    ghost tells: { Type 0 };

    ghost slot: { Self → Slot };

    /// The saved metadata; None where there is none.
    fn read_meta(&mut self) -> Result<Option<Blob>, DiskError>
        ensures call { IsCall (slot self.old) (slot self.new) result }
        ensures told { tells → Makes Quiet (slot self.old).told (slot self.new).told result }
        ensures text { IfOk result (λ text. tells → text ≡ meta_in (image (slot self.old).told)) };

    /// The metadata is this text; a failure leaves the old metadata.
    fn save_meta(&mut self, text: &[u8]) -> Result<(), DiskError>
        ensures call { IsCall (slot self.old) (slot self.new) result }
        ensures told { tells →
            Makes (Saved text.now) (slot self.old).told (slot self.new).told result };

    /// The bytes from `pos` on, as many as fit. Those that nobody wrote may be any.
    fn read_at(&mut self, pos: u64, into: &mut [u8]) -> Result<(), DiskError>
        requires end { pos + length into.old ≤ 2 ^ 40 }
        ensures call { IsCall (slot self.old) (slot self.new) result }
        ensures told { tells → Makes Quiet (slot self.old).told (slot self.new).told result }
        ensures bytes { OnOk result (tells → Reads (image (slot self.old).told) pos into.new) };

    /// These bytes stand from `pos` on; a failure leaves any bytes in their range, and all others as
    /// they were.
    fn write_at(&mut self, pos: u64, bytes: &[u8]) -> Result<(), DiskError>
        requires end { pos + length bytes.now ≤ 2 ^ 40 }
        ensures call { IsCall (slot self.old) (slot self.new) result }
        ensures told { tells →
            Writes pos bytes.now (slot self.old).told (slot self.new).told result };

    /// There is no metadata, and with `keep` all data stays as it was; a failure leaves all as it
    /// was.
    fn clear(&mut self, keep: bool) -> Result<(), DiskError>
        ensures call { IsCall (slot self.old) (slot self.new) result }
        ensures told { tells →
            Makes (Cleared keep) (slot self.old).told (slot self.new).told result };

    // a file that tells counts the calls that it tells
    ghost counted: { tells → (file : Self) → length (slot file).told.since ≡ (slot file).calls };
}
