//! Whether trees of scripts are equal.
//!
//! Two trees are compared by value, level by level: what lies further in waits in a list, so that no depth is too much.
#![tactic(auto)]

mod equal;
mod equal_assigns;
mod equal_commands;
mod equal_conditions;
mod equal_exprs;
mod equal_forms;
mod equal_redirects;
mod equal_words;
mod unsettled;

pub use equal::{assigns_equal, lists_equal, redirects_equal, scripts_equal, words_equal};
