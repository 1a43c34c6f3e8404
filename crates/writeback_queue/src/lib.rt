//! The write-back queue: which files wait for their upload, until when, and which are being uploaded. It is told by its
//! history alone, a list of entries that only grows.
#![tactic(auto)]

mod book;
mod delay;
mod entry;
mod member;

pub use book::QueueBook;
pub use entry::{QueueEntry, QueueKind, QueueTerms};

#[cfg(test)]
mod tests;
