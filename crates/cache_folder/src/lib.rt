//! The cache's disk in a folder of the file system. What is in slot `n` stands in two files of it: `n.meta`, the text of
//! the metadata, and `n.data`, the data by position, in which a range that nobody wrote may be a hole. `n.meta.new` is
//! the text that is about to become `n.meta`, and `lock` is the file whose lock says that the folder is in use. No other
//! name is touched, and no link that has one of these names is followed.
//!
//! What stands in the folder is not told. Proved are the counts, which slots' files are out, the names of the files and
//! their order, and that nothing is listed or taken before a folder is held. That the file system does as it is told is
//! trusted. No call makes anything durable: what is promised holds where the process stops, and not where power is lost.
#![tactic(auto)]

mod counts;
mod disk;
mod file;
mod held;
mod names;
mod plain;
mod slot_files;
mod trouble;

pub use disk::FolderDisk;
pub use file::FolderFile;

#[cfg(test)]
mod tests;
