//! Runs lists of commands, and a shell for each list in parentheses.
#![tactic(auto)]

mod child;
mod plain;
mod shell;

pub use shell::{eval_list, run_job};
