//! The tree of a script, made of its tokens as they come.
//!
//! What stands on top of the frames decides which rule a token follows. Whatever is decided, what is built was read by the grammar's
//! rules alone.
#![tactic(auto)]

mod between;
mod hear;

pub use hear::{hear_mark, hear_token};
