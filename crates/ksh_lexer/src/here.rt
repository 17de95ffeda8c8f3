ghost use Rattle.std.specs.Prelude.{◌≡◌, ◌+◌, ◌≤◌, length, drop, MatchOption};
ghost use Rattle.bstr.specs.Bytes.{not_in};
ghost use Rattle.ksh_lexer.specs.Bodies.{IsBehindLine, IsEnd, NoEnd, is_end_line, line, past_tabs};
ghost use Rattle.ksh_lexer.specs.Reach.{IsRun, at_byte};

use crate::scan::find_set;
use bstr::ByteSlice;
use ksh_base::Text;

/// A here-document whose body is still to come.
#[derive(Debug, Drop, PartialEq, Eq)]
pub struct HereDocument {
    /// The place of its `<<`.
    pub operator: u32,
    /// The line that ends the body.
    pub word: Text,
    /// Whether tabs at the start of its lines are removed.
    pub tabs: bool,
    /// Whether the body holds expansions: no part of the word was quoted.
    pub expands: bool,
}

/// The bytes of a here-document's body: those from one place of the text to another.
#[derive(Clone, Copy, Debug, PartialEq, Eq)]
pub struct Body {
    pub from: usize,
    pub to: usize,
    /// Whether tabs at the start of its lines are removed.
    pub tabs: bool,
    /// Whether it holds expansions.
    pub expands: bool,
}

/// The first line at a place where a line begins, or behind it, that is the word.
pub(crate) fn find_end(text: &[u8], word: &[u8], tabs: bool, from: usize) -> Option<usize>
    requires { from ≤ length text.now }
    ensures { MatchOption result (NoEnd text.now word.now tabs from) (λ to. IsEnd text.now word.now tabs from to) }
{
    let mut at = from;
    loop {
        if is_end_line(word, tabs, &text[at..]) {
            return Some(at);
        }
        let newline = find_set(text, at, b"\n");
        if newline >= text.len() {
            return None;
        }
        at = newline + 1;
    }
}

/// Whether the line in front is the word.
fn is_end_line(word: &[u8], tabs: bool, rest: &[u8]) -> bool
    ensures { result ≡ is_end_line word.now tabs rest.now }
{
    let rest = if tabs { past_tabs(rest) } else { rest };
    line(rest) == word
}

fn past_tabs(rest: &[u8]) -> &[u8]
    ensures { result.now ≡ past_tabs rest.now }
{
    let mut left = rest;
    while let Some((b'\t', behind)) = left.split_first() {
        left = behind;
    }
    left
}

/// The bytes before the first newline.
fn line(rest: &[u8]) -> &[u8]
    ensures { result.now ≡ line rest.now }
{
    match rest.find_byte(b'\n') {
        Some(end) => &rest[..end],
        None => rest,
    }
}

/// The place behind the line at a place.
pub(crate) fn behind_line(text: &[u8], at: usize) -> usize
    requires { at ≤ length text.now }
    ensures behind { IsBehindLine text.now at result }
    ensures within { result ≤ length text.now }
{
    let newline = find_set(text, at, b"\n");
    if newline < text.len() {
        newline + 1
    } else {
        newline
    }
}
