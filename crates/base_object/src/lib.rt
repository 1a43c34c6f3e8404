//! The object behind a kept file, with the downloaders that pull its bytes by the rules of
//! requests.
#![tactic(auto)]

mod base;
mod block;
mod downloads;
mod read;
mod state;
mod streams;

pub use base::BaseObject;
pub use block::Block;
pub use state::BaseState;

#[cfg(test)]
mod tests;
