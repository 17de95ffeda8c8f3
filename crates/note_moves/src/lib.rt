//! What is heard of a script's notes keeps to the steps of a builder of trees.
#![tactic(auto)]

ghost use Rattle.note_moves.specs.Heard.{NotesLead, NotesMove};
ghost use Rattle.note_moves.specs.Leading.{Leading};

/// Along the notes of a script, each body where its number stands, a builder never strays: from the commands of a list, of which it
/// has none yet, it comes to one whole list.
pub fn no_note_strays()
    ensures { NotesMove }
{}

/// The same note by note, of each text by itself.
pub fn each_text_leads()
    ensures { NotesLead }
{}

/// What is left to hear, wherever a cursor stands, leads on to one list.
pub fn what_is_left_leads()
    ensures { Leading }
{}
