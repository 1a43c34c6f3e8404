//! The calls of one session: opens of what the remote's root shows or what is made there, reads, writes, changes of size and closes.
#![tactic(auto)]

mod copy;
mod files;
mod handle;
mod laws;
mod log;
mod open;
mod opening;
mod opens;
mod outcome;
mod paths;
mod plan;
mod queue;
mod session;
mod slots;
mod start;
mod step;
mod store;
mod tree;
mod tree_entry;
mod turn;
mod uploads;

pub use handle::Handle;
pub use laws::what_a_call_does_matches;
pub use log::{EpochLog, FileLog};
pub use session::OneSession;
pub use step::Step;

#[cfg(test)]
mod tests;
