//! The words of the command line of `vfs run`: its options in any order, read exactly.
#![tactic(auto)]

mod digits;
mod dir;
mod laws;
mod name;
mod number;
mod option;
mod read;
mod size;
mod time;
mod values;

pub use laws::one_meaning;
pub use read::{NotWords, RunWords, read_words};

#[cfg(test)]
mod tests;
