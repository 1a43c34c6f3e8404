//! What the image of a kept file's slot stands for, after each call on it, and which metadata each
//! call on the file saves next.
#![tactic(auto)]

mod build;
mod laws;

pub use build::{adopted, cut_to, fetched, fresh, grown, renamed, uploaded, without_intent};
pub use laws::{
    a_clear_brings_each_history_that_is_not_kept, a_quiet_call_changes_nothing,
    a_restart_finds_the_file, a_save_brings_the_history_that_it_tells,
    a_write_beside_the_ranges_or_in_the_intent_changes_nothing,
    each_image_stands_for_what_was_made_by_then,
};

#[cfg(test)]
mod tests;
