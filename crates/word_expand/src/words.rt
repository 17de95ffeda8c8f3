ghost use Rattle.std.specs.Prelude.{◌≡◌, ◌++◌, IfOk, OnOk};
ghost use Rattle.var_types.specs.Rows.{cell_at};
ghost use Rattle.shell_state.specs.Names.{named};
ghost use Rattle.ksh_meaning.specs.Expand.{shown, piece_text, word_text, words_of};

use ksh_attrs::show;
use ksh_base::{Items, Memory, Name, Text};
use ksh_script::{Piece, Word};
use shell_state::{Vars, named};
use std::alloc::Global;

#[tactic(auto, using(crate::proofs::Loops::piece_more))]
/// The text of a word: its bytes and the values of its variables.
pub fn word_text(alloc: Global, vars: &Vars, word: &Word) -> Result<Text, Memory>
    ensures { IfOk result (λ t. t ≡ word_text vars.now word.now) }
{
    let mut text = Text::empty(alloc);
    for piece in word.pieces.as_slice() {
        add_piece(alloc, &mut text, vars, piece)?;
    }
    Ok(text)
}

fn add_piece(alloc: Global, text: &mut Text, vars: &Vars, piece: &Piece) -> Result<(), Memory>
    ensures { OnOk result (text.new ≡ text.old ++ piece_text vars.now piece.now) }
{
    match piece {
        Piece::Literal { text: bytes } => text.append(bytes.bytes()),
        Piece::Value { name } => add_value(alloc, text, vars, name),
    }
}

/// Adds the text that a variable shows.
fn add_value(alloc: Global, text: &mut Text, vars: &Vars, name: &Name) -> Result<(), Memory>
    ensures { OnOk result (text.new ≡ text.old ++ shown (cell_at (named name.now) vars.now.0)) }
{
    let path = named(alloc, name)?;
    match vars.get(&path) {
        Some(cell) => {
            let value = show(alloc, &cell.value, &cell.attrs)?;
            text.append(value.bytes())
        }
        None => Ok(()),
    }
}

#[tactic(auto, using(crate::proofs::Loops::word_kept, crate::proofs::Loops::word_left))]
/// The texts of words, but for those that become empty, which are no words.
pub fn words_of(alloc: Global, vars: &Vars, words: &[Word]) -> Result<Items<Text>, Memory>
    ensures { IfOk result (λ ts. ts ≡ words_of vars.now words.now) }
{
    let mut texts = Items::new(alloc);
    for word in words {
        let text = word_text(alloc, vars, word)?;
        if !text.is_empty() {
            texts.push(text)?;
        }
    }
    Ok(texts)
}
