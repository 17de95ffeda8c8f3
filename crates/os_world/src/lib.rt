//! The world of the operating system: standard output, standard error, and the program's words.
#![tactic(auto)]

mod std_port;
#[cfg(test)]
mod tests;
mod words;

pub use std_port::{StdPort, StdWorld};
pub use words::{ProgramWords, SystemWords, TooLong, program_words};
