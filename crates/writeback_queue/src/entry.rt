use vfs_names::{By, ItemId};

/// What an entry of the queue's history says. Due moments are in milliseconds.
#[derive(Clone, Copy, Debug, PartialEq, Eq)]
pub enum QueueKind {
    /// The item waits from now on, with no failures.
    Add { item: ItemId, due: u64 },
    /// The item is no member any more.
    Remove { item: ItemId },
    /// The waiting item is due at another moment.
    SetDue { item: ItemId, due: u64 },
    /// The item's upload begins.
    Take { item: ItemId },
    /// The item's upload failed: it waits again.
    Fail { item: ItemId },
}

/// One entry of the queue's history.
#[derive(Clone, Copy, Debug, PartialEq, Eq)]
pub struct QueueEntry {
    pub by: By,
    pub kind: QueueKind,
}

/// What a queue keeps to as long as it lives: the write-back time, in milliseconds, and how many members may be uploading
/// at once.
#[derive(Clone, Copy, Debug, PartialEq, Eq)]
pub struct QueueTerms {
    pub write_back: u64,
    pub transfers: u32,
}
