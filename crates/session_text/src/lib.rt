//! The transcript: what the program prints of a script's calls, of the histories and of the queue, byte for byte. The
//! script language itself is read by `session_script`, whose items stand here too.
#![tactic(auto)]

mod file;
mod names;
mod put;
mod queue;
mod refusal;
mod reply;
mod shown;
mod tree;
mod word;

pub use file::print_file;
pub use queue::print_queue;
pub use reply::{Record, Reply, print_reply};
pub use session_script::{
    Call, CallLine, Limit, Line, MAX_LINES, MAX_READ, MAX_READS, MAX_SCRIPT, Script, ScriptError,
    What, Why, check_lines, check_reads, check_size, read_script,
};
pub use shown::{
    Shown, print_advance, print_clean, print_damaged, print_end, print_join, print_poll,
    print_restart, print_shown, print_start, print_tick,
};
pub use tree::print_tree;

#[cfg(test)]
mod tests;
