//! The tree of an arithmetic expression: plain data, which contracts compare by value.
#![tactic(auto)]

mod copies;
mod expr;

pub use expr::{ArithExpr, ArithLink, ArithPart, ArithPath, BinaryOp, ChainOp, StepWay, UnaryOp};
