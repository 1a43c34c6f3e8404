//! The bytes of a file in memory. What was never written is 0 and takes no memory.
#![tactic(auto)]

mod block;
mod sparse;

pub use sparse::SparseBytes;
