//! The parts of trees.
ghost use Rattle.std.specs.Prelude.{◌≡◌};
ghost use Rattle.ast_size.specs.Parts.{size_of};
ghost use Rattle.ast_size.specs.Size.{size_of_items, size_of_pieces, size_of_redirects, size_if_there, word_if_there, words_if_there};

use arith_tree::{ArithExpr, ArithLink, ArithPart};
use ksh_ast::{
    Argument, Arith, Arm, Assign, CaseItem, Command, Item, Link, List, Member, Pair, Param,
    ParamForm, Piece, Redirect, Term, Test, TreePart, Word,
};
use ksh_base::Items;

/// A part of a tree: some value in it, or values that stand beside one another.
#[derive(Clone, Copy)]
pub enum Part<'a> {
    Nothing,
    Pieces(&'a [Piece]),
    Words(&'a [Word]),
    Param(&'a Param),
    Form(&'a ParamForm),
    Path(&'a [TreePart]),
    Arith(&'a Arith),
    /// The three parts of `for ((first; test; step))`.
    Steps(&'a Option<Arith>, &'a Option<Arith>, &'a Option<Arith>),
    Expr(&'a ArithExpr),
    ArithLinks(&'a [ArithLink]),
    ArithPath(&'a [ArithPart]),
    Pairs(&'a [Pair<Word>]),
    Members(&'a [Member]),
    Arguments(&'a [Argument]),
    Assign(&'a Assign),
    Assigns(&'a [Assign]),
    Redirects(&'a [Redirect<Word>]),
    Terms(&'a [Term]),
    Test(&'a Test),
    Condition(&'a [Items<Term>]),
    Command(&'a Command),
    Items(&'a [Item]),
    Lists(&'a [List]),
    Links(&'a [Link<Command>]),
    Arms(&'a [Arm<List>]),
    CaseItems(&'a [CaseItem]),
}

pub fn word_part<'a>(word: &'a Word) -> Part<'a>
    ensures { size_of result ≡ size_of_pieces word.now }
{
    Part::Pieces(word.as_slice())
}

pub fn list_part<'a>(list: &'a List) -> Part<'a>
    ensures { size_of result ≡ size_of_items list.now }
{
    Part::Items(list.get().as_slice())
}

pub fn redirects_part<'a>(redirects: &'a Items<Redirect<Word>>) -> Part<'a>
    ensures { size_of result ≡ size_of_redirects redirects.now }
{
    Part::Redirects(redirects.as_slice())
}

pub fn word_or_nothing<'a>(word: &'a Option<Word>) -> Part<'a>
    ensures { size_of result ≡ word_if_there word.now }
{
    match word {
        Some(word) => word_part(word),
        None => Part::Nothing,
    }
}

pub fn words_or_nothing<'a>(words: &'a Option<Items<Word>>) -> Part<'a>
    ensures { size_of result ≡ words_if_there words.now }
{
    match words {
        Some(words) => Part::Words(words.as_slice()),
        None => Part::Nothing,
    }
}

pub fn list_or_nothing<'a>(list: &'a Option<List>) -> Part<'a>
    ensures { size_of result ≡ size_if_there list.now }
{
    match list {
        Some(list) => list_part(list),
        None => Part::Nothing,
    }
}
