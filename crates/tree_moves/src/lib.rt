//! A builder of trees has a step for whatever comes in a script.
//!
//! The steps of a builder are a table over tags of its frames, and each rule of the grammar keeps to it.
#![tactic(auto)]

ghost use Rattle.tree_moves.specs.HereWords.{WordsAgree};
ghost use Rattle.tree_moves.specs.Texts.{TextsMove};
ghost use Rattle.tree_moves.specs.Turns.{NeverStrays};

/// Along the tokens and marks that are told of a script a builder never strays: from the commands of a list, of which it has none yet,
/// it comes to one whole list. Bodies of here-documents are texts of their own, each of which is read from no pieces to pieces.
#[tactic(auto, using(crate::proofs::Theorem::never_strays))]
pub fn no_script_strays()
    ensures { NeverStrays }
{}

/// The same of each text by itself: the events of a script without those of its bodies, and the events of each body. So a body may be
/// heard at any other place, as behind the word that ends it.
#[tactic(auto, using(crate::proofs::Cuts::texts_move))]
pub fn no_text_strays()
    ensures { TextsMove }
{}

/// Where a token ends the word of a here-document, as what is open in a text tells, there the tags are those of an operator with its
/// word, and nowhere else.
#[tactic(auto, using(crate::proofs::Theorem::words_agree))]
pub fn tags_know_here_words()
    ensures { WordsAgree }
{}
