//! The reader of a script's tokens.
ghost use Rattle.std.specs.Prelude.{◌≡◌, ◌↔◌, ◌≤◌, ℕ, true, [], List, length, IfOk, IfErr, OnOk};
ghost use Rattle.ksh_lexer.specs.Place.{fault_at, longest_text};
ghost use Rattle.ksh_syntax.specs.Sentences.{Event, HasRead, IsScript, Token};
ghost use Rattle.ksh_scan.specs.Scan.{ends_text, start, IsRefused, IsToldBy};
ghost use Rattle.ksh_scan.specs.Steps.{IsAt, StepsOn, TakesOn};
ghost use Rattle.ksh_scan.specs.Seeing.{text_of, IsWithin};
ghost use Rattle.ksh_scan.specs.declared.refusal.SyntaxRefused.TheVariants.{Fault};
ghost use Rattle.ksh_scan.specs.declared.refusal.Unread.TheVariants.{Word};

use crate::after::ReadToken;
use crate::opening::innermost;
use crate::refusal::{SyntaxRefused, Unread, end_fault, open_fault, unread_by, word_fault};
use crate::see::Seen;
use crate::state::{Source, State};
use ksh_base::{Items, Memory};
use ksh_lexer::{Lexer, SyntaxKind};
use ksh_syntax::{Kind, Mark, Mode, Next, Reading};
use std::alloc::Global;

/// Whether a token is the end of the text.
fn ends_text(kind: Kind) -> bool
    ensures { result ≡ ends_text kind }
{
    matches!(kind, Kind::End)
}

/// Reads a script's tokens one after another, up to its first fault.
#[derive(Drop)]
pub struct Scanner<'a> {
    reading: Reading,
    /// The reading before the last word.
    before: Reading,
    state: State<'a>,
    marks: Vec<Mark>,
}

impl<'a> Scanner<'a> {
    /// A reader at the text's first byte. `TooLong` exactly for a text of more than `LONGEST_TEXT` bytes.
    pub fn new(alloc: Global, text: &'a [u8]) -> Result<Scanner<'a>, SyntaxRefused>
        ensures ok { IfOk result (λ s. HasRead [] s.reading.left.items [] × (s.state ≡ start text.now)) }
        ensures size { OnOk result (length text.now ≤ longest_text) }
        ensures refused { IfErr result (λ r. IsRefused text.now r) }
    {
        let lexer = match Lexer::new(alloc, text) {
            Ok(lexer) => lexer,
            Err(fault) => return Err(SyntaxRefused::Fault(fault)),
        };
        let source = Source {
            lexer,
            tabs: false,
            expands: false,
            openings: Items::new(alloc),
        };
        Ok(Scanner {
            reading: Reading::new(alloc)?,
            before: Reading::new(alloc)?,
            state: State {
                source,
                outer: Items::new(alloc),
                here: None,
                command_word: None,
            },
            marks: Vec::new(alloc),
        })
    }

    /// Whether the whole script was read.
    pub fn is_finished(&self) -> bool
        ensures empty { result ≡ true ↔ (self.now.reading.left.items ≡ []) }
        ensures script { (front : List Token) (events : List Event) → HasRead front self.now.reading.left.items events → result ≡ true → IsScript front events }
    {
        self.reading.is_finished()
    }

    /// What is told before the token that was read last.
    pub fn marks(&self) -> &[Mark]
        ensures { result.now ≡ self.now.marks.items }
    {
        self.marks.as_slice()
    }

    /// Reads the next token and tells it, or gives the fault where no script goes on with what comes. After an error nothing more
    /// can be read.
    pub fn step(&mut self, alloc: Global) -> Result<ReadToken, SyntaxRefused>
        ensures { (text : List ℕ) (front : List Token) (events : List Event) → IsAt text front events self.old.reading.left.items self.old.state
            → StepsOn text front events self.old.state self.new.reading.left.items self.new.state self.new.marks.items result }
    {
        let mode = self.reading.mode();
        match self.state.see(mode) {
            Ok(seen) => self.take(alloc, mode, seen),
            Err(fault) => Err(SyntaxRefused::Fault(fault)),
        }
    }

    /// Reads a token that was seen, or gives its fault. Nothing is left behind the end of a script, which no grammar's law says: it is
    /// looked at here.
    fn take(&mut self, alloc: Global, mode: Mode, seen: Seen) -> Result<ReadToken, SyntaxRefused>
        requires token { (seen.token.from ≤ seen.token.to) × (seen.token.to ≤ longest_text) }
        requires body { IsWithin (text_of self.old.state) seen.body }
        ensures { (front : List Token) (events : List Event) → HasRead front self.old.reading.left.items events
            → TakesOn front events mode seen self.old.state self.new.reading.left.items self.new.state self.new.marks.items result }
    {
        let unread = unread_by(seen);
        self.remember(unread)?;
        self.marks.clear();
        match self.reading.take(mode, seen.kind, &mut self.marks)? {
            Next::Taken => {
                let bad = self.state.bad_arithmetic(alloc, mode, seen)?;
                if let Some((kind, byte)) = bad {
                    return Err(self.fault(kind, byte));
                }
                if ends_text(seen.kind) && !self.reading.is_finished() {
                    return Err(SyntaxRefused::Memory);
                }
                let ends_here_word = self.state.ends_here_word(seen);
                self.state.read(alloc, seen, self.marks.as_slice())?;
                Ok(ReadToken {
                    mode,
                    seen,
                    ends_here_word,
                })
            }
            Next::TooDeep => Err(self.fault(SyntaxKind::TooDeep, seen.token.from as u32)),
            Next::Refused => {
                let (kind, byte) = self.told(alloc, unread, seen)?;
                Err(self.fault(kind, byte))
            }
        }
    }

    /// Keeps the reading before a word.
    fn remember(&mut self, unread: Unread) -> Result<(), Memory>
        ensures before { OnOk result (unread ≡ Word → self.new.before.left.items ≡ self.old.reading.left.items) }
        ensures rest { OnOk result ((self.new.reading ≡ self.old.reading) × (self.new.state ≡ self.old.state)) }
    {
        if unread == Unread::Word {
            self.before.go_to(&self.reading)?;
        }
        Ok(())
    }

    fn fault(&self, kind: SyntaxKind, byte: u32) -> SyntaxRefused
        ensures { result ≡ Fault (fault_at (text_of self.now.state) kind byte) }
    {
        SyntaxRefused::Fault(self.state.source.lexer.fault(kind, byte))
    }

    /// The fault of a token with which no script goes on, and its byte.
    fn told(&self, alloc: Global, unread: Unread, seen: Seen) -> Result<(SyntaxKind, u32), Memory>
        requires { (seen.token.from ≤ seen.token.to) × (seen.token.to ≤ longest_text) }
        ensures { IfOk result (λ told. (front : List Token) (events : List Event) → (unread ≡ Word → HasRead front self.now.before.left.items events)
            → IsToldBy unread front self.now.state seen told) }
    {
        let byte = seen.token.from as u32;
        match unread {
            Unread::End => {
                let innermost = innermost(self.state.source.openings.as_slice());
                Ok(end_fault(innermost, byte))
            }
            Unread::Word => {
                let names = self.before.may_come(alloc, Kind::Name)?;
                let others = self.before.may_come(alloc, Kind::Other)?;
                let assignments = self.before.may_come(alloc, Kind::Assignment)?;
                Ok(word_fault(names, others, assignments, seen.kind, byte))
            }
            Unread::Open => Ok(open_fault(self.state.command_word, byte)),
            Unread::Other => Ok((SyntaxKind::UnexpectedToken, byte)),
        }
    }
}
