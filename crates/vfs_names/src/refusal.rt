use crate::Fingerprint;

/// What stood where the object that a file holds was looked for.
#[derive(Clone, Copy, Debug, PartialEq, Eq)]
pub enum Found {
    /// No object.
    Missing,
    /// An object whose fingerprint doesn't agree with the one held.
    Other(Fingerprint),
    /// An object that changed while it was read.
    Changed,
}

/// What a call was to do, as its refusal names it.
#[derive(Clone, Copy, Debug, PartialEq, Eq)]
pub enum Verb {
    Open,
    Read,
    Write,
    Size,
    Close,
    Stat,
    List,
    MakeDir,
    RemoveDir,
    Unlink,
    Rename,
    Clean,
    Poll,
    Upload,
    Refresh,
}

/// Why a call was refused.
#[derive(Clone, Copy, Debug, PartialEq, Eq)]
pub enum Refusal {
    /// The path, or the parent of what is to be made, isn't shown.
    NotFound,
    /// The path is shown, and the call asks that it isn't.
    Exists,
    /// The path is a directory, and the call is for files.
    IsDir,
    /// A name on the way is a file.
    NotDir,
    /// The directory shows a name.
    NotEmpty,
    /// The handle isn't open, or an open names one that is.
    BadHandle,
    /// The handle was opened for writing alone.
    NotReadable,
    /// The handle was opened for reading alone.
    NotWritable,
    /// No further file can be kept in this epoch.
    TableFull,
    /// The file has a handle that stands in the way.
    InUse,
    /// The call can't be done in this mode, or not yet.
    Unsupported,
    /// A length above 131,072 bytes, or an end above 2^40.
    TooBig,
    /// The remote failed.
    RemoteFault,
    /// The cache disk failed.
    DiskFault,
    /// The object that the file holds can't be had: what is held, and what was found in its place.
    Stale { held: Fingerprint, found: Found },
    /// No place is left in the history that the call would add to.
    HistoryFull,
    /// Memory was wanting.
    NoMemory,
}
