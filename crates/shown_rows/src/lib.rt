//! What a directory shows, found by name.
#![tactic(auto)]

mod rows;

pub use rows::{Shown, ShownRows};

#[cfg(test)]
mod tests;
