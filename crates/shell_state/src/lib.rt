//! The state of a shell, what a forked shell begins with, and what a builtin asks of its shell.
#![tactic(auto)]

mod start;
mod state;
mod task;
mod variables;

pub use start::Start;
pub use state::{Flow, ShellState, Stop};
pub use task::{Builtin, Task, Told};
pub use variables::{Vars, named, put_text};
