ghost use Rattle.std.specs.Prelude.{◌≡◌, [], ◌++◌, OnOk};

use std::alloc::Global;
use vfs_names::{Blob, NoMemory};

/// Bytes that are to become an object of a store in memory.
#[derive(Debug, Drop)]
pub struct MemoryStage {
    pub(crate) bytes: Blob,
}

impl MemoryStage {
    /// A stage with no bytes; takes no memory.
    pub(crate) fn new(alloc: Global) -> MemoryStage
        ensures { result.bytes ≡ [] }
    {
        MemoryStage {
            bytes: Blob::new(alloc),
        }
    }

    /// Puts these bytes at the stage's end.
    pub(crate) fn append(&mut self, bytes: &[u8]) -> Result<(), NoMemory>
        ensures { OnOk result (self.new.bytes ≡ self.old.bytes ++ bytes.now) }
    {
        self.bytes.append(bytes)
    }
}
