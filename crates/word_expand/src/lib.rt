//! What words give, and assignments.
#![tactic(auto)]

mod assigns;
mod words;

pub use assigns::assign;
pub use words::{word_text, words_of};

#[cfg(test)]
mod tests;
