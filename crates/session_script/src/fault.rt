use crate::Why;
use vfs_names::NoMemory;

/// Why a line couldn't be read.
#[derive(Clone, Copy, Debug, PartialEq, Eq)]
pub(crate) enum Fault {
    Bad(Why),
    NoMemory,
}
