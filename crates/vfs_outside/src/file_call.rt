ghost use Rattle.std.specs.Prelude.{◌≡◌, IfOk};

use std::alloc::Global;
use vfs_names::{Blob, NoMemory};

/// What one call on a slot's file left in it.
#[derive(Debug, Drop)]
pub enum FileCall {
    /// Nothing: a read, or a save or a clear that failed.
    Quiet,
    /// Metadata with this text.
    Saved(Blob),
    /// Data from this position on: those of a write, or what a write that failed left in its range.
    Wrote { pos: u64, bytes: Blob },
    /// No metadata, and no data unless it was kept.
    Cleared { keep: bool },
}

impl FileCall {
    pub fn copy(&self, alloc: Global) -> Result<FileCall, NoMemory>
        ensures { IfOk result (λ call. call ≡ self.now) }
    {
        match self {
            FileCall::Quiet => Ok(FileCall::Quiet),
            FileCall::Saved(text) => match Blob::from_slice(alloc, text.as_slice()) {
                Ok(text) => Ok(FileCall::Saved(text)),
                Err(why) => Err(why),
            },
            FileCall::Wrote { pos, bytes } => match Blob::from_slice(alloc, bytes.as_slice()) {
                Ok(bytes) => Ok(FileCall::Wrote { pos: *pos, bytes }),
                Err(why) => Err(why),
            },
            FileCall::Cleared { keep } => Ok(FileCall::Cleared { keep: *keep }),
        }
    }
}
