//! What a path stands for, where rows are references.
#![tactic(auto)]

mod chain;
mod fault;
mod target;

pub use fault::RefFault;
pub use target::{Resolved, resolve};

#[cfg(test)]
mod tests;
