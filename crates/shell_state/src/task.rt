use crate::state::Flow;
use kernel_ask::{Answer, Call};
use ksh_script::List;

/// A command that the shell has of its own.
#[derive(Clone, Copy, Debug, PartialEq, Eq)]
pub enum Builtin {
    Print,
}

/// What a builtin asks of the shell that runs it.
#[derive(Drop)]
pub enum Task {
    /// An ask of the world, for one unit.
    Ask(Call),
    /// A list is run.
    Run(List),
}

/// What the shell tells a builtin of a task.
#[derive(Drop)]
pub enum Told {
    Answered(Answer),
    Ran(Flow),
}
