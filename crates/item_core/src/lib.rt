//! A file's history: what its entries are, which may follow which, and what follows from them.
#![tactic(auto)]

mod allow;
mod content;
mod effects;
mod entry;
mod facts;
mod history;
mod laws;
pub mod plain;

pub use allow::{allows, is_legal, is_timely};
pub use content::{Source, byte_at, read_at};
pub use entry::{Dropped, Entry, FileKind, Upload};
pub use history::Core;
pub use laws::{
    a_growth_shows_zeros, an_upload_is_of_its_start, changed_files_are_kept,
    dirt_ends_by_upload_or_discard, quiet_entries_change_nothing,
};

#[cfg(test)]
mod tests;
