//! The tree of a script: plain data, which contracts compare by value.
//!
//! A word is the list of its pieces, and a list of commands is shared: each is, in a contract, the list of what it holds.
//! A copy equals what it was made of, and shares the lists of commands in it; so there are copies of words,
//! assignments and redirections, and a command is never copied by itself.
#![tactic(auto)]

mod assign_copies;
mod digit;
mod kinds;
mod redirect;
mod redirect_copies;
mod tree;
mod word_copies;

pub use assign_copies::{copy_arguments, copy_assign, copy_assigns, copy_words};
pub use digit::Digit;
pub use kinds::{BinaryTest, Replaced, SubstKind, UnaryTest};
pub use redirect::{Redirect, RedirectForm, RedirectTo};
pub use redirect_copies::copy_redirects;
pub use tree::{
    Argument, Arith, Arm, Assign, AssignValue, CaseItem, Command, Condition, FunctionDef, Item,
    Link, List, Member, Pair, Param, ParamForm, ParamOf, Piece, Script, Term, Test, TreePart,
    TreePath, Word,
};
pub use word_copies::{copy_arith, copy_param, copy_path, copy_piece, copy_word};
