use vfs_names::{ItemId, Who};

/// The atomic step that comes next.
#[derive(Clone, Copy, Debug, PartialEq, Eq)]
pub enum Point {
    TreeLock,
    ItemLock(ItemId),
    QueueLock,
    Stage,
    Commit,
}

/// Is called before each atomic step, so that a test can hold one back.
pub trait Gate: Sync {
    fn before(&self, point: Point, who: Who);
}

/// The gate that holds nothing back.
#[derive(Clone, Copy, Debug)]
pub struct OpenGate;

impl Gate for OpenGate {
    fn before(&self, _point: Point, _who: Who) {}
}
