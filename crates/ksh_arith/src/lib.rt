//! Arithmetic: an expression's value, with its effects on variables.
#![tactic(auto)]

mod ask;
mod compute;
mod eval;
mod fault;
mod numeral;
mod parse;
mod part;
mod path;
mod scan;

pub use ask::{VarAnswer, VarAsk};
pub use eval::eval_arith;
pub use fault::{ArithFault, ArithRefused, NumFault};
pub use parse::parse_arith;
