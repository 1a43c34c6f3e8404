//! A cache disk in memory, with the faults that a test plans. It tells all that is done to its
//! files, and gives the disk as it was between any two calls on them.
#![tactic(auto)]

mod disk;
mod file;
mod held;
mod plan;
mod script;
mod slot;

pub use disk::MemoryDisk;
pub use file::MemoryFile;
pub use script::DiskCall;

#[cfg(test)]
mod tests;
