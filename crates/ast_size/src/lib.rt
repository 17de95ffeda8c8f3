//! The size of a tree of a script: how many nodes it has.
//!
//! The parts of a tree that weren't counted yet wait in a list, and are opened one level at a time, so that no depth is too much.
#![tactic(auto)]

mod count;
mod left;
mod open;
mod open_assigns;
mod open_commands;
mod open_conditions;
mod open_exprs;
mod open_words;
mod part;

pub use count::{items_size, script_size, word_size};
