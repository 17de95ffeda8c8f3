//! The text so far.
ghost use Rattle.std.specs.Prelude.{◌≡◌, ◌∷◌, List, OnOk, [], decimal};
ghost use Rattle.ksh_unparse.specs.Layout.{Bytes, Close, Line, Mark, Open, laid};
ghost use Rattle.ksh_unparse.specs.Paper.{paper_text};
ghost use Rattle.ksh_unparse.specs.Quoting.{each_byte, in_body, quoted};

use crate::ends::choose_end;
use crate::quoting::{append_in_body, append_quoted};
use itoa::Buffer;
use ksh_base::{Items, Memory, Text};
use std::alloc::Global;
use std::mem;

/// A text in whose here-document another text stands, and the bodies that its next newline awaits.
#[derive(Drop)]
pub struct Frame {
    pub text: Text,
    pub awaited: Text,
}

/// The text so far, the bodies that its next newline awaits, and the texts around it, the innermost last.
#[derive(Drop)]
pub struct Paper {
    alloc: Global,
    pub text: Text,
    pub awaited: Text,
    pub outer: Items<Frame>,
}

impl Paper {
    pub fn new(alloc: Global) -> Paper
        ensures { (ms : List Mark) → paper_text result ms ≡ laid ms [] [] [] }
    {
        Paper {
            alloc,
            text: Text::empty(alloc),
            awaited: Text::empty(alloc),
            outer: Items::new(alloc),
        }
    }

    pub fn say(&mut self, bytes: &[u8]) -> Result<(), Memory>
        ensures { (ms : List Mark) → OnOk result (paper_text self.new ms ≡ paper_text self.old (Bytes bytes.now ∷ ms)) }
    {
        self.text.append(bytes)
    }

    pub fn quote(&mut self, bytes: &[u8]) -> Result<(), Memory>
        ensures { (ms : List Mark) → OnOk result (paper_text self.new ms ≡ paper_text self.old (Bytes (quoted bytes.now) ∷ ms)) }
    {
        append_quoted(bytes, &mut self.text)
    }

    pub fn escape(&mut self, bytes: &[u8]) -> Result<(), Memory>
        ensures { (ms : List Mark) → OnOk result (paper_text self.new ms ≡ paper_text self.old (Bytes (each_byte in_body bytes.now) ∷ ms)) }
    {
        append_in_body(bytes, &mut self.text)
    }

    pub fn number(&mut self, number: u64) -> Result<(), Memory>
        ensures { (ms : List Mark) → OnOk result (paper_text self.new ms ≡ paper_text self.old (Bytes (decimal number) ∷ ms)) }
    {
        let mut buffer = Buffer::new();
        self.text.append(buffer.format(number).as_bytes())
    }

    /// A newline, and the bodies that it awaits.
    pub fn end_line(&mut self) -> Result<(), Memory>
        ensures { (ms : List Mark) → OnOk result (paper_text self.new ms ≡ paper_text self.old (Line ∷ ms)) }
    {
        self.text.push(b'\n')?;
        self.text.append(self.awaited.bytes())?;
        self.awaited = Text::empty(self.alloc);
        Ok(())
    }

    /// Begins the body of a here-document.
    #[tactic(auto, using(crate::proofs::Papers::opened))]
    pub fn open(&mut self) -> Result<(), Memory>
        ensures { (ms : List Mark) → OnOk result (paper_text self.new ms ≡ paper_text self.old (Open ∷ ms)) }
    {
        let text = mem::replace(&mut self.text, Text::empty(self.alloc));
        let awaited = mem::replace(&mut self.awaited, Text::empty(self.alloc));
        self.outer.push(Frame { text, awaited })?;
        Ok(())
    }

    /// Ends the body: its operator stands in the text around, which awaits it.
    #[tactic(auto, using(crate::proofs::Papers::closed))]
    pub fn close(&mut self) -> Result<(), Memory>
        ensures { (ms : List Mark) → OnOk result (paper_text self.new ms ≡ paper_text self.old (Close ∷ ms)) }
    {
        let Some(mut frame) = self.outer.pop() else {
            return Ok(());
        };
        let end = choose_end(self.alloc, self.text.bytes())?;
        frame.text.append(b"<<")?;
        frame.text.append(end.bytes())?;
        frame.awaited.append(self.text.bytes())?;
        frame.awaited.append(end.bytes())?;
        frame.awaited.push(b'\n')?;
        self.text = frame.text;
        self.awaited = frame.awaited;
        Ok(())
    }
}
