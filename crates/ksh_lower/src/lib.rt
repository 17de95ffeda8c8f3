//! From a script's tree to the commands that a shell runs so far.
//!
//! `print` with words of bytes and `$name`, assignments of such words, and subshells are run; every other command is one that isn't
//! built, in its place.
#![tactic(auto)]

mod lists;
mod simple;
#[cfg(test)]
mod tests;

pub use lists::lower;
