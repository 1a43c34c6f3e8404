//! A store of objects over a folder of the file system. What stands in the folder is not told: another program may change
//! it at any time, and the calls here find that out as far as the system lets them.
#![tactic(auto)]

mod held;
mod named;
mod object;
mod place;
mod remote;
mod rows;
mod stage;
mod stage_name;
mod stamp;
mod told;
mod trouble;

pub use object::{FolderObject, FolderStream};
pub use remote::FolderRemote;
pub use stage::FolderStage;

#[cfg(test)]
mod tests;
