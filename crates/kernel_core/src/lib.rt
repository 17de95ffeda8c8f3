//! The kernel in memory: shells, their handles, files, pipes and programs, one ask at a time.
#![tactic(auto)]

mod act;
mod forks;
mod handles;
mod kernel;
mod look;
mod open;
mod opening;
mod programs;
mod transfer;

pub use kernel::{Kernel, Opens, Shells, Stores};
pub use programs::Run;
