//! What lies outside of `vfs`: the script's source, the sink of the transcript, the clock, the gate, the remote and the
//! cache disk, each a trait with a written meaning, with fakes in memory and adapters over the real things.
#![tactic(auto)]

mod cache_file;
mod clock;
mod disk;
mod disk_error;
mod file_call;
mod gate;
mod listing;
mod object;
mod remote;
mod sink;
mod source;
mod tree;

pub use cache_file::CacheFile;
pub use clock::{Clock, ScriptClock, StdClock};
pub use disk::CacheDisk;
pub use disk_error::DiskError;
pub use file_call::FileCall;
pub use gate::{Gate, OpenGate, Point};
pub use listing::{Kind, Listing, NameRow, Names, Row, Rows, is_row_name};
pub use object::{Object, ObjectError};
pub use remote::{Remote, RemoteError};
pub use sink::{MemorySink, Sink, StdSink};
pub use source::{MemorySource, Source, StdSource};
pub use tree::{TreeEntry, TreeKind};

/// The call failed: the thing outside did not do it. It is the one error of a source or a sink.
#[derive(Clone, Copy, Debug, PartialEq, Eq)]
pub struct Failed;

#[cfg(test)]
mod tests;
