//! The order in which notes are heard.
ghost use Rattle.std.specs.Prelude.{◌≡◌, [], ◌∷◌, List, IfOk};
ghost use Rattle.script_notes.specs.declared.cursor.Event.{Event};
ghost use Rattle.script_notes.specs.declared.note.Note.{Note};
ghost use Rattle.script_notes.specs.Arranged.{into, place, told, Hears, IsHeard, Rest, StepsOn};

use crate::note::{Note, Notes};
use crate::stack::Stack;
use ksh_base::Memory;
use ksh_syntax::Mark;
use std::alloc::Global;
use tree_parts::{Moment, Sign};

/// What is heard of a script.
#[derive(Clone, Copy, Debug, PartialEq, Eq)]
pub enum Event {
    Token(Sign),
    /// What is told between two tokens.
    Mark(Mark, Moment),
    /// What comes is the body of the here-document whose word ended.
    BodyBegins,
    BodyEnds,
}

/// A place in the notes of a text.
#[derive(Clone, Copy, Debug, PartialEq, Eq)]
pub struct NotePlace {
    /// The text's number.
    pub text: usize,
    /// How many of its notes stand before the place.
    pub index: usize,
}

/// Reads notes in the order in which they are heard.
#[derive(Drop)]
pub struct Cursor {
    /// How far the texts were heard that didn't end yet, the innermost first.
    places: Stack<NotePlace>,
}

impl Cursor {
    /// Nothing was heard yet.
    pub fn new(alloc: Global) -> Result<Cursor, Memory>
        ensures heard { IfOk result (λ c. (texts : List (List Note)) (events : List Event) → Rest texts c.places events → IsHeard texts events) }
        ensures begins { IfOk result (λ c. c.places ≡ place 0 0 ∷ []) }
    {
        let mut places = Stack::new(alloc);
        places.push(NotePlace { text: 0, index: 0 })?;
        Ok(Cursor { places })
    }

    /// What is heard next; nothing behind the last. After an error nothing more can be heard.
    pub fn next(&mut self, notes: &Notes) -> Result<Option<Event>, Memory>
        ensures heard { IfOk result (λ event. Hears notes.now.texts event self.old.places self.new.places) }
        ensures steps { IfOk result (λ event. StepsOn notes.now.texts event self.old.places self.new.places) }
    {
        let Some(place) = self.places.pop() else {
            return Ok(None);
        };
        let text = notes.of(place.text);
        if place.index < text.len() {
            let note = text[place.index];
            self.places.push(NotePlace {
                text: place.text,
                index: place.index + 1,
            })?;
            return Ok(Some(self.hear(note)?));
        }
        if self.places.is_empty() {
            return Ok(None);
        }
        Ok(Some(Event::BodyEnds))
    }

    /// Hears a note, and goes into the body whose place it is.
    fn hear(&mut self, note: Note) -> Result<Event, Memory>
        ensures told { IfOk result (λ event. event ≡ told note) }
        ensures place { IfOk result (λ event. self.new.places ≡ into note self.old.places) }
    {
        match note {
            Note::Token(sign) => Ok(Event::Token(sign)),
            Note::Mark(mark, moment) => Ok(Event::Mark(mark, moment)),
            Note::Body(number) => {
                self.places.push(NotePlace {
                    text: number,
                    index: 0,
                })?;
                Ok(Event::BodyBegins)
            }
        }
    }
}
