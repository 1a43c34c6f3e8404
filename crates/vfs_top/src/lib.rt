//! The program but for its devices: the words, the script and its calls, the transcript.
#![tactic(auto)]

mod epoch;
mod input;
mod laws;
mod lines;
mod phase;
mod prepare;
mod print;
mod runner;
mod script;
mod start;
mod stop;
mod tick;
mod write;

pub use laws::each_file_that_is_due_is_uploaded;
pub use runner::{Ended, run};

#[cfg(test)]
mod tests;
