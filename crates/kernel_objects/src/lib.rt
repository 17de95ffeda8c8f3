//! What the kernel in memory consists of: files by path, open rows, shells with their handles.
#![tactic(auto)]

mod files;
mod opened;
mod plan;
mod shell;

pub use files::{Files, Node, refused_before};
pub use opened::{Held, Opened, Side, Stream};
pub use plan::{BoxEntry, BoxFault, BoxPlan};
pub use shell::{Forked, Shell};
