//! From a script's text to the commands that a shell runs.
#![tactic(auto)]

mod program;

pub use ksh_parser::Unparsed;
pub use program::read_program;
