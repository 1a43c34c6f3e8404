//! Sets of bytes, kept as sorted spans: what of a file is present.
#![tactic(auto)]

mod range_set;
mod search;

pub use range_set::{RangeSet, is_canonical, law_one_list};

/// The bytes from `start` on and before `end`.
///
/// Each call that takes one has the condition that it has a byte.
#[derive(Clone, Copy, Debug, PartialEq, Eq)]
pub struct Span {
    pub start: u64,
    pub end: u64,
}

#[cfg(test)]
mod tests;
