/// What a look at a file tells. Sizes are in bytes, times in milliseconds.
#[derive(Clone, Copy, Debug, PartialEq, Eq)]
pub struct Look {
    pub size: u64,
    /// There is content that no upload saved.
    pub dirty: bool,
    /// The open handles.
    pub opens: u32,
    /// How many versions of the content began.
    pub version: u64,
    /// When the file was last used.
    pub atime: u64,
    /// When the content of a kept file last changed.
    pub mtime: u64,
    /// How many of its bytes the cache has.
    pub kept: u64,
}
