//! Which files of the cache are evicted: those that nobody used for long, and then as many as the quota asks for.
#![tactic(auto)]

mod choice;
mod pins;
mod turn;

pub use choice::{CleanRow, choose};
pub use pins::{ListedPins, PinRule, PinTest, covers};

#[cfg(test)]
mod tests;
