use crate::Step;
use item_core::Entry;
use session_text::Record;
use vfs_names::VPath;
use vfs_outside::{CacheFile, Object, TreeEntry};
use writeback_queue::QueueEntry;

/// A file's history, its oldest entry first, and beside it a path for each entry that names the
/// file anew.
#[derive(Debug, Drop)]
pub struct FileLog {
    pub entries: Vec<Entry>,
    pub names: Vec<VPath>,
}

/// What was kept of an epoch: the tree's history, the files' histories by number, that of the queue, and the records of its calls, beside
/// each what the call did to the files.
#[derive(Drop)]
pub struct EpochLog<O: Object, F: CacheFile> {
    pub tree: Vec<TreeEntry>,
    pub files: Vec<FileLog>,
    pub queue: Vec<QueueEntry>,
    pub records: Vec<Record>,
    pub steps: Vec<Step<O, F>>,
}
