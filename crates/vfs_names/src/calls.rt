use crate::ItemId;

/// Where a write goes: at a position in bytes, or at the end.
#[derive(Clone, Copy, Debug, PartialEq, Eq)]
pub enum At {
    Pos(u64),
    End,
}

/// What a handle is opened for.
#[derive(Clone, Copy, Debug, PartialEq, Eq)]
pub enum Access {
    Read,
    Write,
    Both,
}

/// How a path is opened.
#[derive(Clone, Copy, Debug, PartialEq, Eq)]
pub struct How {
    pub access: Access,
    /// Make the file where there is none.
    pub create: bool,
    /// Refuse where there is one.
    pub excl: bool,
    /// Begin with size 0.
    pub trunc: bool,
    /// Write always at the end.
    pub append: bool,
}

/// A file that waits for its upload: when it is due, in milliseconds, and how often it failed since it was added.
#[derive(Clone, Copy, Debug, PartialEq, Eq)]
pub struct QueueRow {
    pub item: ItemId,
    pub due: u64,
    pub fails: u32,
}
