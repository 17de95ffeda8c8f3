//! The grammar of scripts: which tokens make a script, and which may come next.
#![tactic(auto)]

mod compounds;
mod conditions;
mod kind;
mod lists;
mod members;
mod parameters;
mod part;
mod reading;
mod simple;
mod text;
mod value_words;
mod values;
mod words;

pub use kind::{Kind, Mode};
pub use part::{Ending, Mark, Part, Terminal, Words};
pub use reading::{Next, Reading};
