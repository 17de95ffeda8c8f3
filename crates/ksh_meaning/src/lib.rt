//! What scripts mean, and how a builtin asks its shell.
#![tactic(auto)]

mod answers;
mod serve;
mod texts;
mod units;

pub use answers::{is_broken, settle_text, write_refused};
pub use serve::{ask, run_list};
pub use texts::{fault_text, refusal_words, refused_text, var_refused_text};
pub use units::spend;
