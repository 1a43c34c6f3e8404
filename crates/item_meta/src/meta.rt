use byte_ranges::RangeSet;
use vfs_names::{Blob, Fingerprint, VPath};

/// What is saved of a file beside its bytes. Sizes and positions are in bytes, moments in
/// milliseconds.
#[derive(Debug, Drop)]
pub struct Meta {
    pub path: VPath,
    pub size: u64,
    /// Up to here the bytes that aren't present are those of the base.
    pub base_end: u64,
    /// The bytes that are present.
    pub ranges: RangeSet,
    /// The object that the file was taken from.
    pub base: Option<Fingerprint>,
    /// The file has changes that no object has.
    pub dirty: bool,
    pub mtime: u64,
    pub atime: u64,
    /// A write whose bytes may not stand in the file yet.
    pub intent: Option<Intent>,
}

/// Bytes that are to stand in a file from a position on.
#[derive(Debug, Drop)]
pub struct Intent {
    pub pos: u64,
    pub bytes: Blob,
}
