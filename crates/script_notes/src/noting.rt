//! How far a script was noted.
ghost use Rattle.std.specs.Prelude.{◌≡◌, ◌++◌, slice_set, IfOk, OnOk};
ghost use Rattle.script_notes.specs.Noted.{awaits, begin, ends_body, enters, finished, goes, leaves, marked, moment_of, noted_on, noted_token, opened, sign_of};

use crate::note::{Note, Notes};
use crate::stack::Stack;
use crate::waiting::Waiting;
use ksh_base::{Items, Memory};
use ksh_lexer::Token;
use ksh_scan::ReadToken;
use ksh_syntax::{Kind, Mark};
use std::alloc::Global;
use std::mem::replace;
use tree_parts::{Moment, Sign};

/// A text that is being noted: the script, or the body of a here-document.
#[derive(Drop)]
pub struct OpenText {
    /// The script's number is 0.
    pub number: usize,
    pub notes: Items<Note>,
    /// The numbers of the bodies that are awaited in it, the next first.
    pub waiting: Waiting,
}

/// How far a script was noted.
#[derive(Drop)]
pub struct Noting {
    /// The notes of the texts that ended, and an empty place for each other.
    pub texts: Items<Items<Note>>,
    /// The text that is being read.
    pub text: OpenText,
    /// Those that go on behind it, the innermost first.
    pub outer: Stack<OpenText>,
    /// The place behind the last token.
    pub behind: usize,
}

impl OpenText {
    fn new(alloc: Global, number: usize) -> OpenText
        ensures { result ≡ opened number }
    {
        OpenText {
            number,
            notes: Items::new(alloc),
            waiting: Waiting::new(alloc),
        }
    }
}

/// A token without its bytes.
fn sign_of(read: ReadToken, line: u32) -> Sign
    ensures { result ≡ sign_of read line }
{
    Sign {
        mode: read.mode,
        kind: read.seen.kind,
        token: read.seen.token.kind,
        from: read.seen.token.from,
        to: read.seen.token.to,
        line,
    }
}

/// Where the marks before a token are told.
fn moment_of(behind: usize, token: Token, line: u32) -> Moment
    ensures { result ≡ moment_of behind token line }
{
    Moment {
        to: behind,
        from: token.from,
        line,
    }
}

/// Whether a token is the end of a body, which isn't heard.
fn ends_body(kind: Kind) -> bool
    ensures { result ≡ ends_body kind }
{
    matches!(kind, Kind::BodyNext | Kind::BodyLast)
}

/// Notes marks.
fn add_marks(notes: &mut Items<Note>, marks: &[Mark], moment: Moment) -> Result<(), Memory>
    ensures { OnOk result (notes.new ≡ notes.old ++ marked marks.now moment) }
{
    for mark in marks {
        notes.push(Note::Mark(*mark, moment))?;
    }
    Ok(())
}

/// Puts the notes of a text that ended in their place.
#[tactic(auto, using(crate::proofs::Keeping::none_kept))]
fn keep(texts: &mut Items<Items<Note>>, text: OpenText)
    ensures { texts.new ≡ slice_set texts.old text.number text.notes }
{
    if text.number < texts.len() {
        texts.set(text.number, text.notes);
    }
}

impl Noting {
    /// Nothing was noted yet.
    pub(crate) fn new(alloc: Global) -> Result<Noting, Memory>
        ensures { IfOk result (λ g. g ≡ begin) }
    {
        let mut texts = Items::new(alloc);
        texts.push(Items::new(alloc))?;
        Ok(Noting {
            texts,
            text: OpenText::new(alloc, 0),
            outer: Stack::new(alloc),
            behind: 0,
        })
    }

    /// Notes a token whose first byte stands on that line, and the marks before it.
    pub(crate) fn note(
        &mut self,
        alloc: Global,
        read: ReadToken,
        line: u32,
        marks: &[Mark],
    ) -> Result<(), Memory>
        ensures { OnOk result (self.new ≡ noted_on line read marks.now self.old) }
    {
        let moment = moment_of(self.behind, read.seen.token, line);
        add_marks(&mut self.text.notes, marks, moment)?;
        self.note_token(alloc, read, line)?;
        self.go(alloc, read.seen.kind)?;
        self.behind = read.seen.token.to;
        Ok(())
    }

    /// Notes a token, unless it is the end of a body, and behind the word of a here-document its body.
    fn note_token(&mut self, alloc: Global, read: ReadToken, line: u32) -> Result<(), Memory>
        ensures { OnOk result (self.new ≡ noted_token line read self.old) }
    {
        if ends_body(read.seen.kind) {
            return Ok(());
        }
        self.text.notes.push(Note::Token(sign_of(read, line)))?;
        if read.ends_here_word {
            self.await_body(alloc)?;
        }
        Ok(())
    }

    /// Gives the next number to a body, which is heard here and read behind a later newline.
    fn await_body(&mut self, alloc: Global) -> Result<(), Memory>
        ensures { OnOk result (self.new ≡ awaits self.old) }
    {
        let number = self.texts.len();
        self.text.notes.push(Note::Body(number))?;
        self.text.waiting.push(number)?;
        self.texts.push(Items::new(alloc))?;
        Ok(())
    }

    /// Goes into a body or out of one, as the token does.
    fn go(&mut self, alloc: Global, kind: Kind) -> Result<(), Memory>
        ensures { OnOk result (self.new ≡ goes kind self.old) }
    {
        match kind {
            Kind::NewlineBodies => self.enter(alloc),
            Kind::BodyNext => {
                self.leave();
                self.enter(alloc)
            }
            Kind::BodyLast => {
                self.leave();
                Ok(())
            }
            _ => Ok(()),
        }
    }

    /// Goes into the body that is awaited first.
    #[tactic(auto, using(crate::proofs::Keeping::none_entered))]
    fn enter(&mut self, alloc: Global) -> Result<(), Memory>
        ensures { OnOk result (self.new ≡ enters self.old) }
    {
        match self.text.waiting.next() {
            None => Ok(()),
            Some(number) => {
                let outside = replace(&mut self.text, OpenText::new(alloc, number));
                self.outer.push(outside)?;
                Ok(())
            }
        }
    }

    /// Goes out of a body that ends.
    #[tactic(auto, using(crate::proofs::Keeping::none_left))]
    fn leave(&mut self)
        ensures { self.new ≡ leaves self.old }
    {
        match self.outer.pop() {
            None => {}
            Some(outside) => {
                let ended = replace(&mut self.text, outside);
                keep(&mut self.texts, ended);
            }
        }
    }

    /// The notes of a script that ends.
    pub(crate) fn finish(self) -> Notes
        ensures { result.texts ≡ finished self }
    {
        let Noting {
            mut texts,
            text,
            ..
        } = self;
        keep(&mut texts, text);
        Notes { texts }
    }
}
