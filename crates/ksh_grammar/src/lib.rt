//! Grammars by rules, read from the left with one token in hand.
#![tactic(auto)]

mod symbol;

pub use symbol::{Place, Symbol};
