/// Why the cache's disk, or a slot's file of it, did not do a call.
#[derive(Clone, Copy, Debug, PartialEq, Eq)]
pub enum DiskError {
    Failed,
    NoMemory,
}
