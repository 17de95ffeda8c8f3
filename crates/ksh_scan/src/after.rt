//! What becomes of the state by a token that was read.
ghost use Rattle.std.specs.Prelude.{◌≡◌, ◌≤◌, Some, None, OnOk, MatchOption, length};
ghost use Rattle.ksh_lexer.specs.Place.{longest_text};
ghost use Rattle.ksh_scan.specs.After.{after, awaiting, before_less, body_source, command_word, ends_here_word, entered, operator_of, operator_within, source_after, tells_command_word, word_by};
ghost use Rattle.ksh_scan.specs.Openings.{innermost};
ghost use Rattle.ksh_scan.specs.Seeing.{slice, text_of, IsWithin};

use crate::opening::{HereOperator, Opened, Opening, innermost, opened_by, part, tell};
use crate::see::Seen;
use crate::state::{Source, State};
use ksh_base::{Items, Memory};
use ksh_lexer::{Body, HereDocument, Redirection, Token, TokenKind, end_word, is_quoted};
use ksh_syntax::{Mark, Mode};
use std::alloc::Global;
use std::mem::replace;

/// A token that was read.
#[derive(Clone, Copy, Debug, PartialEq, Eq)]
pub struct ReadToken {
    /// What it stands in.
    pub mode: Mode,
    pub seen: Seen,
    /// Whether it ends the word of a here-document, whose body stands behind a later newline.
    pub ends_here_word: bool,
}

/// The bytes of a text from one place to another, as far as there are any.
pub fn slice(text: &[u8], from: usize, to: usize) -> &[u8]
    ensures { result.now ≡ slice text.now from to }
{
    let behind = &text[from.min(text.len())..];
    let count = to.saturating_sub(from);
    &behind[..count.min(behind.len())]
}

/// How many bytes stand before the first `<`.
fn before_less(bytes: &[u8]) -> usize
    ensures count { result ≡ before_less bytes.now }
    ensures within { result ≤ length bytes.now }
{
    for (i, byte) in bytes.iter().enumerate() {
        if *byte == b'<' {
            return i;
        }
    }
    bytes.len()
}

/// The operator of a here-document that a token is.
fn operator_of(text: &[u8], token: Token) -> Option<HereOperator>
    requires { (token.from ≤ token.to) × (token.to ≤ longest_text) }
    ensures { result ≡ operator_of text.now token }
{
    let tabs = match token.kind {
        TokenKind::Redirect(Redirection::HereTabs, _) => true,
        TokenKind::Redirect(Redirection::HereDocument, _) => false,
        _ => return None,
    };
    let before = before_less(slice(text, token.from, token.to));
    Some(HereOperator {
        byte: (token.from + before) as u32,
        tabs,
    })
}

/// The operator whose word is open.
fn operator_within(opened: Opened) -> Option<HereOperator>
    ensures { result ≡ operator_within opened }
{
    match opened {
        Opened::HereWord(operator) => Some(operator),
        _ => None,
    }
}

/// The word of a here-document that a token ends, and its operator.
fn word_by<'t>(
    text: &'t [u8],
    token: Token,
    here: Option<HereOperator>,
    last: Option<Opening>,
) -> Option<(HereOperator, &'t [u8])>
    ensures { MatchOption result (word_by token.kind text.now token here last ≡ None) (λ w. word_by token.kind text.now token here last ≡ Some (w.0, w.1.now)) }
{
    match (token.kind, here, last) {
        (TokenKind::Bare, Some(operator), _) => {
            Some((operator, slice(text, token.from, token.to)))
        }
        (TokenKind::WordEnd, _, Some(opening)) => match operator_within(opening.opened) {
            Some(operator) => Some((operator, slice(text, opening.byte as usize, token.from))),
            None => None,
        },
        _ => None,
    }
}

/// Whether the next token begins a command.
fn tells_command_word(marks: &[Mark]) -> bool
    ensures { result ≡ tells_command_word marks.now }
{
    for mark in marks {
        if *mark == Mark::CommandWord {
            return true;
        }
    }
    false
}

/// The place of a token that begins a command and can't name a function.
fn command_word(marks: &[Mark], seen: Seen) -> Option<u32>
    requires { (seen.token.from ≤ seen.token.to) × (seen.token.to ≤ longest_text) }
    ensures { result ≡ command_word marks.now seen }
{
    if tells_command_word(marks) {
        Some(seen.token.from as u32)
    } else {
        None
    }
}

impl<'a> Source<'a> {
    /// Awaits the body of a here-document behind its word, and opens and closes what the token does.
    fn read(
        &mut self,
        alloc: Global,
        here: Option<HereOperator>,
        seen: Seen,
        marks: &[Mark],
    ) -> Result<(), Memory>
        requires { (seen.token.from ≤ seen.token.to) × (seen.token.to ≤ longest_text) }
        ensures { OnOk result (self.new ≡ source_after here seen marks.now self.old) }
    {
        let last = innermost(self.openings.as_slice());
        let text = self.lexer.text();
        if let Some((operator, word)) = word_by(text, seen.token, here, last) {
            let document = HereDocument {
                operator: operator.byte,
                word: end_word(alloc, word)?,
                tabs: operator.tabs,
                expands: !is_quoted(word),
            };
            self.lexer.await_body(document)?;
        }
        let opening = Opening {
            opened: opened_by(seen.token.kind, here),
            byte: seen.token.from as u32,
            part: seen.token.to as u32,
            is_later: false,
        };
        tell(&mut self.openings, marks, opening)?;
        part(&mut self.openings, seen.kind, seen.token.to as u32)
    }
}

impl<'a> State<'a> {
    /// Whether a token that was seen ends the word of a here-document.
    pub(crate) fn ends_here_word(&self, seen: Seen) -> bool
        ensures { result ≡ ends_here_word self.now seen }
    {
        let last = innermost(self.source.openings.as_slice());
        let text = self.source.lexer.text();
        match word_by(text, seen.token, self.here, last) {
            Some(_) => true,
            None => false,
        }
    }

    /// Goes behind a token that was seen and read.
    pub(crate) fn read(&mut self, alloc: Global, seen: Seen, marks: &[Mark]) -> Result<(), Memory>
        requires token { (seen.token.from ≤ seen.token.to) × (seen.token.to ≤ longest_text) }
        requires body { IsWithin (text_of self.old) seen.body }
        ensures { OnOk result (self.new ≡ after self.old seen marks.now) }
    {
        self.source.read(alloc, self.here, seen, marks)?;
        self.here = operator_of(self.source.lexer.text(), seen.token);
        self.command_word = command_word(marks, seen);
        match seen.body {
            Some(body) => self.enter(alloc, body),
            None => Ok(()),
        }
    }

    /// Goes into a body.
    fn enter(&mut self, alloc: Global, body: Body) -> Result<(), Memory>
        requires { (body.from ≤ body.to) × (body.to ≤ length (text_of self.old)) }
        ensures { OnOk result (self.new ≡ entered (Some body) self.old) }
    {
        let inner = Source {
            lexer: self.source.lexer.inside(alloc, body),
            tabs: body.tabs,
            expands: body.expands,
            openings: Items::new(alloc),
        };
        let outer = replace(&mut self.source, inner);
        self.outer.push(outer)?;
        Ok(())
    }
}
