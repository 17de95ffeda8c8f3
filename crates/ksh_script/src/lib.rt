//! The tree of a script: plain data, which contracts compare by value.
#![tactic(auto)]

mod tree;

pub use tree::{Assign, Command, Item, List, Piece, Word};
