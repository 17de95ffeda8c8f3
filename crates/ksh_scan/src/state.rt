//! How far a text was read.
use crate::opening::{HereOperator, Opening};
use ksh_base::Items;
use ksh_lexer::Lexer;

/// A text that is being read, and what is open in it: the script's, or the body of a here-document.
#[derive(Drop)]
pub struct Source<'a> {
    pub lexer: Lexer<'a>,
    /// Whether tabs at the start of its lines are removed.
    pub tabs: bool,
    /// Whether a body holds expansions.
    pub expands: bool,
    /// What is open, the innermost last.
    pub openings: Items<Opening>,
}

/// How far a script was read.
#[derive(Drop)]
pub struct State<'a> {
    /// The text that is being read.
    pub source: Source<'a>,
    /// Those that go on behind it, the innermost last.
    pub outer: Items<Source<'a>>,
    /// The operator of a here-document, whose word comes next.
    pub here: Option<HereOperator>,
    /// The place of the last token, where that is a whole word which begins a command and can't name a function.
    pub command_word: Option<u32>,
}
