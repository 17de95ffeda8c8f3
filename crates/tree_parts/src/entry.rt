use ksh_ast::{Assign, FunctionDef, List, Pair, Word};
use ksh_base::Shared;

/// A part of a value in parentheses.
#[derive(Drop)]
pub enum Entry {
    /// A word, and the place of its first byte.
    Word(Word, usize),
    /// The word `typeset`.
    Typeset,
    Assign(Assign),
    Pair(Pair<Word>),
    Function(Shared<FunctionDef<List>>),
    /// A newline or `;`.
    Break,
}
