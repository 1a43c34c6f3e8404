//! A kept file of the cache: each write that was acknowledged is on the cache disk, and after any
//! number of calls on its slot's file the image there stands for the part of its history that was
//! made by then.
#![tactic(auto)]

mod begin;
mod bind;
mod blank;
mod book;
mod bytes;
mod clear;
mod cut;
mod fetch;
mod look;
mod note;
mod parts;
mod read;
mod rename;
mod runs;
mod settle;
mod slot;
mod store;
mod upload;
mod uploads;
mod write;

pub use base_object::BaseState;
pub use book::ItemBook;
pub use look::Look;
pub use parts::Parts;
pub use upload::Upload;

#[cfg(test)]
mod tests;
