//! From a script's text to the tokens that the grammar reads, or to the first fault: that of the first token with which no
//! script goes on.
#![tactic(auto)]

mod after;
mod arithmetic;
mod check;
mod opening;
mod refusal;
mod scanner;
mod see;
mod state;

pub use after::{ReadToken, slice};
pub use check::check_text;
pub use opening::{HereOperator, Opened, Opening};
pub use refusal::SyntaxRefused;
pub use scanner::Scanner;
pub use see::Seen;
pub use state::{Source, State};
