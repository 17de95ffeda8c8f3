//! The canonical text of a script: one text for each tree, which is read as that tree.
//!
//! A tree's marks are a fold over it (`specs/Tree.antt`), and its text is how these are laid out (`specs/Layout.antt`).
//! The code makes them from a list of what is left to write, so that no depth of a tree is a depth of calls.
#![tactic(auto)]

mod arith;
mod assigns;
mod branches;
mod commands;
mod conditions;
mod ends;
mod left;
mod paper;
mod quoting;
mod sections;
mod words;
mod write;

pub use write::write_script;
