//! Patterns: `*`, `?`, brackets, and groups with their repetitions, against texts.
#![tactic(auto)]

mod alike;
mod build;
mod byte_test;
mod cell;
mod marked;
mod part;
mod pattern;
mod search;
mod token;

pub use byte_test::{ByteTest, Class, Member};
pub use marked::Marked;
pub use part::{Kind, Part};
pub use pattern::{Pattern, one_reading};
