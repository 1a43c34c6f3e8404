use vfs_names::{Access, By, Fingerprint, Payload, Refusal, VPath, Verb};

/// How an upload ended that didn't save.
#[derive(Clone, Copy, Debug, PartialEq, Eq)]
pub enum Dropped {
    /// The version that was noted at the start, and the one that stood when the upload was to end.
    Cancelled { was: u64, now: u64 },
    Refused(Refusal),
}

/// What an entry of a file says. Sizes, positions and lengths are in bytes.
#[derive(Debug, Drop, PartialEq, Eq)]
pub enum FileKind {
    /// A new file of size 0.
    Create,
    /// The file as the cache had it when the epoch began. `base_end` is the end of what the base object gives.
    Recovered {
        size: u64,
        base_end: u64,
        dirty: bool,
        base: Option<Fingerprint>,
    },
    /// An object was opened that agrees with the one held.
    Bind(Fingerprint),
    /// The file takes the content of an object.
    Adopt(Fingerprint),
    Write {
        pos: u64,
        payload: Payload,
    },
    SetSize(u64),
    Read {
        pos: u64,
        len: u64,
    },
    Stat,
    Opened(Access),
    Closed,
    Rename(VPath),
    /// An upload begins, of this version.
    UploadStart(u64),
    /// The upload that began at the entry `start` saved the content as this object.
    Uploaded {
        start: u32,
        print: Fingerprint,
    },
    /// The upload that began at the entry `start` ended without saving.
    UploadDropped {
        start: u32,
        why: Dropped,
    },
    /// The cached copy is given up; nothing is lost by it.
    Evict,
    /// The file is removed, and what wasn't uploaded is lost.
    Discard,
    Refused {
        verb: Verb,
        why: Refusal,
    },
}

/// One entry of a file's history: who made it, the number of calls on the file's cache file when it took effect, and
/// what it says.
#[derive(Debug, Drop, PartialEq, Eq)]
pub struct Entry {
    pub by: By,
    pub at: u64,
    pub kind: FileKind,
}

/// An upload that has begun and not ended: the version that it noted, and the pass that began it.
#[derive(Clone, Copy, Debug, PartialEq, Eq)]
pub struct Upload {
    pub version: u64,
    pub pass: u64,
}
