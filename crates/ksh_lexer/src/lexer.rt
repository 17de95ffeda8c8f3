ghost use Rattle.std.specs.Prelude.{◌≡◌, ◌≢◌, ℕ, [], ◌∷◌, ◌++◌, ◌+◌, ◌<◌, ◌≤◌, ◌↔◌, List, length, take, drop, Some, None, Ok, IfOk, IfErr, OnOk, OnErr, IsErrOf, IsOk};
ghost use Rattle.ksh_lexer.specs.Awaited.{HasNoBody, IsBody, Misses, Takes, missing};
ghost use Rattle.ksh_lexer.specs.Place.{fault_at, longest_text, newlines, too_long};
ghost use Rattle.ksh_lexer.specs.Tok.{Comes, IsFault, Tok};
ghost use Rattle.ksh_lexer.specs.declared.fault.SyntaxKind.TheVariants as SyntaxKind;

use crate::count::{FIRST, Mark, fault_at, mark_at};
use crate::fault::{SyntaxFault, SyntaxKind};
use crate::here::{Body, HereDocument, behind_line, find_end};
use crate::kind::Token;
use crate::lex::{Clear, lex};
use crate::mode::LexMode;
use ksh_base::{Items, Memory};
use std::alloc::Global;
use std::marker::Model;

/// How many bytes a text may have.
pub const LONGEST_TEXT: usize = 16_777_216;

/// A text, the place to which it is read, and the here-documents whose bodies are still to come.
#[derive(Drop)]
pub struct Lexer<'a> {
    text: &'a [u8],
    at: usize,
    clear: Clear,
    here: Items<HereDocument>,
    begun: usize,
    mark: Mark,
}

impl<'a> Model for Lexer<'a> {
    ghost use Rattle.std.specs.Prelude.{ℕ, List, ◌≤◌, length, drop};
    ghost use Rattle.ksh_lexer.specs.declared.here.HereDocument.{HereDocument};
    ghost use Rattle.ksh_lexer.specs.Clear.{IsClear};
    ghost use Rattle.ksh_lexer.specs.Place.{IsMark, longest_text};
    ghost use Rattle.std.specs.Coded.{codes};
    ghost use Rattle.ksh_lexer.specs.contracts.here.HereDocument as h;

    ghost Value = { List ℕ × ℕ × List HereDocument };

    ghost coded = { Prim.hlevel (codes, h.the_row.coded) };

    ghost view = { λ l. (l.text.now, l.at, drop l.begun l.here) };

    ghost invariant = { λ l. (l.at ≤ length l.text.now) × (length l.text.now ≤ longest_text) × IsClear l.text.now l.clear × (l.begun ≤ length l.here) × IsMark l.text.now l.mark };
}

impl<'a> Lexer<'a> {
    /// A lexer at the text's first byte. `TooLong` exactly for a text of more than `LONGEST_TEXT` bytes,
    /// at the byte past the last that it may have. Takes no memory.
    pub fn new(alloc: Global, text: &'a [u8]) -> Result<Lexer<'a>, SyntaxFault>
        ensures ok { IfOk result (λ l. l ≡ (text.now, 0, [])) }
        ensures long { IsOk result ↔ (length text.now ≤ longest_text) }
        ensures fault { IfErr result (λ f. f ≡ too_long text.now) }
    {
        if text.len() > LONGEST_TEXT {
            return Err(fault_at(text, SyntaxKind::TooLong, 16_777_216));
        }
        Ok(Lexer {
            text,
            at: 0,
            clear: Clear { from: 0, to: 0 },
            here: Items::new(alloc),
            begun: 0,
            mark: FIRST,
        })
    }

    /// The whole text.
    pub fn text(&self) -> &'a [u8]
        ensures { result.now ≡ self.now.0 }
    {
        self.text
    }

    /// The token that comes next under the mode, or the fault where none does. A fault leaves the
    /// lexer as it was. Takes no memory.
    pub fn next(&mut self, mode: LexMode) -> Result<Token, SyntaxFault>
        ensures token { IfOk result (λ t. Tok mode self.old.0 self.old.1 t) }
        ensures place { IfOk result (λ t. self.new ≡ (self.old.0, t.to, self.old.2)) }
        ensures within { IfOk result (λ t. (self.old.1 ≤ t.from) × (t.from ≤ t.to) × (t.to ≤ length self.old.0)) }
        ensures size { length self.old.0 ≤ longest_text }
        ensures fault { IfErr result (λ f. IsFault mode self.old.0 self.old.1 f.kind f.place.byte) }
        ensures line { IfErr result (λ f. f ≡ fault_at self.old.0 f.kind f.place.byte) }
        ensures err { OnErr result (self.new ≡ self.old) }
    {
        match lex(mode, self.text, self.at, &mut self.clear) {
            Ok(token) => {
                self.at = token.to;
                Ok(token)
            }
            Err(fault) => Err(fault_at(self.text, fault.kind, fault.byte)),
        }
    }

    /// Awaits the body of a here-document, behind the bodies that are awaited already.
    pub fn await_body(&mut self, here: HereDocument) -> Result<(), Memory>
        ensures ok { OnOk result (self.new ≡ (self.old.0, self.old.1, self.old.2 ++ here ∷ [])) }
        ensures err { OnErr result (self.new ≡ self.old) }
    {
        self.here.push(here)?;
        Ok(())
    }

    /// The fault of a text that ends before a body which is awaited: `HereDocMissing` at the operator of the first. None
    /// where no body is awaited. Takes no memory.
    pub fn missing(&self) -> Option<SyntaxFault>
        ensures { result ≡ missing self.now.0 self.now.2 }
    {
        if self.begun >= self.here.len() {
            return None;
        }
        let here = &self.here.as_slice()[self.begun];
        Some(fault_at(self.text, SyntaxKind::HereDocMissing, here.operator))
    }

    /// Goes to another place of the text. Takes no memory.
    pub fn go_to(&mut self, at: usize)
        requires { at ≤ length self.old.0 }
        ensures { self.new ≡ (self.old.0, at, self.old.2) }
    {
        self.at = at;
    }

    /// Takes the body that is awaited first, which begins at the lexer's place, and goes on behind the
    /// line that ends it. None where no body is awaited. `HereDocMissing` at the operator where no line
    /// is the word; this leaves the lexer as it was. Takes no memory.
    pub fn take_body(&mut self) -> Result<Option<Body>, SyntaxFault>
        ensures taken { IfOk result (λ o. Takes self.old self.new o) }
        ensures missing { IfErr result (λ f. Misses self.old f) }
        ensures err { OnErr result (self.new ≡ self.old) }
    {
        if self.begun >= self.here.len() {
            return Ok(None);
        }
        let here = &self.here.as_slice()[self.begun];
        match take_one(self.text, self.at, here) {
            Ok((body, at)) => {
                self.at = at;
                self.begun += 1;
                Ok(Some(body))
            }
            Err(fault) => Err(fault),
        }
    }

    /// A lexer over a body that was taken: its text ends with the body. Takes no memory.
    pub fn inside(&self, alloc: Global, body: Body) -> Lexer<'a>
        requires { (body.from ≤ body.to) × (body.to ≤ length self.now.0) }
        ensures { result ≡ (take body.to self.now.0, body.from, []) }
    {
        Lexer {
            text: &self.text[..body.to],
            at: body.from,
            clear: Clear { from: 0, to: 0 },
            here: Items::new(alloc),
            begun: 0,
            mark: if self.mark.byte <= body.to {
                self.mark
            } else {
                FIRST
            },
        }
    }

    /// The line of a byte: one more than the newlines before it. It is counted on from the byte that was
    /// asked for last, where that stands before it.
    pub fn line_at(&mut self, byte: usize) -> u32
        requires { byte ≤ length self.old.0 }
        ensures line { result ≡ 1 + newlines (take byte self.old.0) }
        ensures same { self.new ≡ self.old }
    {
        self.mark = mark_at(self.text, self.mark, byte);
        self.mark.line
    }

    /// A fault at a byte of the text, on the byte's line.
    pub fn fault(&self, kind: SyntaxKind, byte: u32) -> SyntaxFault
        ensures { result ≡ fault_at self.now.0 kind byte }
    {
        fault_at(self.text, kind, byte)
    }
}

/// The body of a here-document from a place on, and the place behind the line that ends it.
fn take_one(text: &[u8], from: usize, here: &HereDocument) -> Result<(Body, usize), SyntaxFault>
    requires from { from ≤ length text.now }
    requires size { length text.now ≤ longest_text }
    ensures ok { IfOk result (λ r. IsBody text.now here.now from r.0 r.1) }
    ensures within { IfOk result (λ r. r.1 ≤ length text.now) }
    ensures missing { IfErr result (λ f. HasNoBody text.now here.now from f) }
{
    match find_end(text, here.word.bytes(), here.tabs, from) {
        Some(to) => {
            let body = Body {
                from,
                to,
                tabs: here.tabs,
                expands: here.expands,
            };
            Ok((body, behind_line(text, to)))
        }
        None => Err(fault_at(text, SyntaxKind::HereDocMissing, here.operator)),
    }
}
