//! Each token of a script is one that a builder of its tree can take.
#![tactic(auto)]

ghost use Rattle.note_signs.specs.Signs.{HeardFit, NotesAreLexed, NotesFit};

use ksh_lexer::spells;

/// The kinds of the tokens that are noted of a script, and their bytes in the script, fit together: those of each text, and those
/// that are heard one after another. In patterns and conditions none is the front of an assignment.
pub fn tokens_fit()
    ensures noted { NotesFit }
    ensures heard { HeardFit }
    ensures lexed { NotesAreLexed }
{
    spells();
}
