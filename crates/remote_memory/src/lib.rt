//! A store of objects in memory, with the faults and the changes of others that a test plans. It tells all that stands
//! in it.
#![tactic(auto)]

mod below;
mod node;
mod object;
mod remote;
mod rows;
mod script;
mod stage;
mod stock;

pub use object::{MemoryObject, MemoryStream};
pub use remote::MemoryRemote;
pub use script::{Change, RemoteCall};
pub use stage::MemoryStage;

#[cfg(test)]
mod tests;
