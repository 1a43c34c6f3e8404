//! The script of a session: its lines, read exactly, and the limits on it.
#![tactic(auto)]

mod built;
mod call;
mod escape;
mod fault;
mod flags;
mod laws;
mod limits;
mod line;
mod lines;
mod number;
mod path;
mod payload;
mod places;
mod read;
mod verb;
mod verbs;
mod why;
mod words;

pub use call::{Call, CallLine, Line, Script, What};
pub use laws::{one_refusal, one_script, script_or_refusal};
pub use limits::{
    Limit, MAX_LINES, MAX_READ, MAX_READS, MAX_SCRIPT, check_lines, check_reads, check_size,
};
pub use read::read_script;
pub use why::{ScriptError, Why};

#[cfg(test)]
mod tests;
