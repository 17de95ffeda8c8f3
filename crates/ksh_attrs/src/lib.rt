//! The attributes of a variable: what they make of a text that is assigned, and what a value shows under them.
#![tactic(auto)]

mod blanks;
mod fault;
mod joins;
mod number;
mod shapes;
mod width;

pub use fault::AttrFault;
pub use joins::{joined, with_widths};
pub use shapes::{shape, show};

#[cfg(test)]
mod tests;
