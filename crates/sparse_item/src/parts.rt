use item_core::Entry;
use vfs_names::VPath;

/// What is left of a file's book: its slot's file, its history, the oldest entry first, and beside
/// it a path for each entry that names the file anew.
#[derive(Drop)]
pub struct Parts<F> {
    pub file: F,
    pub entries: Vec<Entry>,
    pub names: Vec<VPath>,
}
