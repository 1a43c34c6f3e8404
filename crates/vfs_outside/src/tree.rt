use crate::Listing;
use vfs_names::{By, Fingerprint, ItemId, Refusal, VPath, Verb};

/// What an entry of the tree's history says.
#[derive(Debug, Drop)]
pub enum TreeKind {
    /// A file that the cache had at the start, or whose open was refused after it took an object.
    Kept {
        path: VPath,
        item: ItemId,
        dirty: bool,
    },
    Listed {
        dir: VPath,
        listing: Listing,
    },
    /// A file was opened; the fingerprint of its base, None where it has none.
    Opened {
        path: VPath,
        item: ItemId,
        print: Option<Fingerprint>,
    },
    /// A file was made and opened.
    Created {
        path: VPath,
        item: ItemId,
    },
    /// A handle was closed, and whether the file is still dirty.
    Closed {
        item: ItemId,
        dirty: bool,
    },
    /// An object was written to the remote.
    Stored {
        path: VPath,
        print: Fingerprint,
    },
    /// The row of the object is no longer shown.
    Gone(VPath),
    Removed(VPath),
    Renamed {
        from: VPath,
        to: VPath,
    },
    MadeDir(VPath),
    UnmadeDir(VPath),
    /// How many directories this poll forgets; None where the remote doesn't poll.
    Polled(Option<u32>),
    Forgot(VPath),
    DirectRead {
        path: VPath,
        print: Fingerprint,
    },
    /// A direct writer begins.
    Direct(VPath),
    /// A direct writer ends without a commit.
    Undirect(VPath),
    /// A stat or a list.
    Asked {
        verb: Verb,
        path: VPath,
    },
    Refused {
        verb: Verb,
        path: VPath,
        why: Refusal,
    },
}

/// One entry of the tree's history.
#[derive(Debug, Drop)]
pub struct TreeEntry {
    pub by: By,
    pub kind: TreeKind,
}
