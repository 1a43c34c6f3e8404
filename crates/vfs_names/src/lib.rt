//! The words that every layer of `vfs` speaks: paths, bytes and payloads, fingerprints, makers of entries, refusals.
#![tactic(auto)]

mod blob;
mod calls;
mod fingerprint;
mod no_memory;
mod path;
mod payload;
mod refusal;
mod who;

pub use blob::Blob;
pub use calls::{Access, At, How, QueueRow};
pub use fingerprint::Fingerprint;
pub use no_memory::NoMemory;
pub use path::{NameError, VPath, is_name};
pub use payload::Payload;
pub use refusal::{Found, Refusal, Verb};
pub use who::{Actor, By, ItemId, SlotId, Who};

#[cfg(test)]
mod tests;
