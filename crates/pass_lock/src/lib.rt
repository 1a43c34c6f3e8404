//! A lock round a state, whose passes remember what they have seen.
//!
//! The state tells a list of entries that only grows, and each entry tells to which numbers it belongs.
//! A pass holds numbers, and remembers the list as it last saw it. Whoever locks finds a list that goes
//! on from there, in which no later entry belongs to the pass's own numbers: what a thread did itself
//! stays known to it, whatever others did meanwhile.
#![tactic(auto)]

mod held;
mod law;
mod lock;
mod logged;
mod name;
mod pass;
mod plays;
mod share;
#[cfg(test)]
mod tests;
mod view;

pub use held::Held;
pub use lock::{NoLock, PassLock};
pub use logged::Logged;
pub use name::LockName;
pub use pass::{Pass, PassOf};
pub use view::View;
