//! The builtins that write and read.
#![tactic(auto)]

mod join;
mod output;
mod print;

pub use print::run_io;
