//! The tokens of a script as they are to be heard: each body of a here-document directly behind the word that ends it.
#![tactic(auto)]

mod cursor;
mod note;
mod noting;
mod script;
mod stack;
mod waiting;

pub use cursor::{Cursor, Event, NotePlace};
pub use note::{Note, Notes};
pub use noting::{Noting, OpenText};
pub use script::note_script;
