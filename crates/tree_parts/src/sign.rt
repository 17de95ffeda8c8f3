//! Tokens without their bytes.
use ksh_lexer::TokenKind;
use ksh_syntax::{Kind, Mode};

/// A token of a script, without its bytes.
#[derive(Clone, Copy, Debug, PartialEq, Eq)]
pub struct Sign {
    pub mode: Mode,
    pub kind: Kind,
    pub token: TokenKind,
    /// The place of its first byte in the script.
    pub from: usize,
    /// The place behind its last byte.
    pub to: usize,
    /// The line of its first byte, counted from 1.
    pub line: u32,
}

/// Where a mark is told: between two tokens.
#[derive(Clone, Copy, Debug, PartialEq, Eq)]
pub struct Moment {
    /// The place behind the last byte of the token before it.
    pub to: usize,
    /// The place of the first byte of the token behind it.
    pub from: usize,
    /// The line of that byte, counted from 1.
    pub line: u32,
}
