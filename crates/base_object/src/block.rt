use vfs_names::Blob;

/// Bytes of an object, as one pull gives them.
#[derive(Debug, Drop)]
pub struct Block {
    /// Where the first of them stands in the object.
    pub pos: u64,
    /// At least one, and at most 131,072.
    pub bytes: Blob,
}
