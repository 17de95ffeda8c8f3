//! What is noted of a script.
ghost use Rattle.std.specs.Prelude.{◌≡◌};
ghost use Rattle.script_notes.specs.Arranged.{text_at};

use ksh_base::Items;
use ksh_syntax::Mark;
use tree_parts::{Moment, Sign};

/// What is noted of a text, without its bytes.
#[derive(Clone, Copy, Debug, PartialEq, Eq)]
pub enum Note {
    Token(Sign),
    /// What is told between two tokens.
    Mark(Mark, Moment),
    /// Here the body of that number is heard.
    Body(usize),
}

/// The notes of a script.
#[derive(Drop)]
pub struct Notes {
    /// Those of each text: of the script, then of the bodies of here-documents, in the order in which their words end.
    pub texts: Items<Items<Note>>,
}

impl Notes {
    /// The notes of the text of that number; none where there is no such text.
    pub fn of(&self, number: usize) -> &[Note]
        ensures { result.now ≡ text_at number self.now.texts }
    {
        match self.texts.get(number) {
            Some(notes) => notes.as_slice(),
            None => &[],
        }
    }
}
