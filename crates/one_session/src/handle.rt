use vfs_names::Access;

/// An open handle: the number of its file, and what it was opened for.
#[derive(Clone, Copy, Debug, PartialEq, Eq)]
pub struct Handle {
    pub item: u32,
    pub access: Access,
}
