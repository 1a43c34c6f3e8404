//! Uploads of a kept file: what an upload commits is the whole content of the version that it noted
//! at its start, or nothing is committed.
#![tactic(auto)]

mod blocks;
mod ending;
mod staging;
mod whole;

pub use blocks::{Step, block, give_up, start};
pub use ending::{Finished, finish};
pub use whole::{Ended, upload};

#[cfg(test)]
mod tests;
