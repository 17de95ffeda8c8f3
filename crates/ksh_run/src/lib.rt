//! Runs scripts and checks them: the calls that the program makes.
#![tactic(auto)]

mod check;
mod ended;
mod laws;
mod refuse;
mod run;
#[cfg(test)]
mod tests;
mod texts;

pub use check::{Checked, check_script};
pub use ended::{Ended, Why};
pub use laws::causes_are_exact;
pub use run::{MOST_READ, run_shell};
