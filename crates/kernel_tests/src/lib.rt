//! Tests of the kernel in memory, as tables of what a shell asks and what it is answered.
#![tactic(auto)]

#[cfg(test)]
mod tests;
