//! The text of a cache file's metadata: what is written for them, and which texts are read.
#![tactic(auto)]

mod field;
mod fields;
mod intent;
mod meta;
mod object;
mod read;
mod write;

pub use field::{Field, MetaError};
pub use meta::{Intent, Meta};
pub use read::read_meta;
pub use write::write_meta;

#[cfg(test)]
mod tests;
