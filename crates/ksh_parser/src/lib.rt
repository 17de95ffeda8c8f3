//! From a script's text to its tree, or to its first fault.
//!
//! The scanner reads all tokens, up to the first with which no script goes on. Then a builder hears them one after another, the body
//! of each here-document at its operator.
#![tactic(auto)]

mod build;
mod parse;
mod refused;

pub use parse::parse_script;
pub use refused::Unparsed;
