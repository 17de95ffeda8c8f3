//! Two parts of trees that have to be equal, and the list of those that weren't looked at yet.
ghost use Rattle.std.specs.Prelude.{◌≡◌, [], ◌∷◌, OnOk, MatchOption};
ghost use Rattle.ast_equal.specs.Equal.{waiting};

use arith_tree::{ArithExpr, ArithLink};
use ksh_ast::{
    Argument, Arm, Assign, CaseItem, Command, Item, Link, List, Member, Pair, Piece, Redirect,
    Term, TreePart, Word,
};
use ksh_base::{Items, Memory};
use std::alloc::Global;

/// A part of the left tree, and the part of the right one that it has to equal.
#[derive(Clone, Copy)]
pub enum Sides<'a> {
    Pieces(&'a [Piece], &'a [Piece]),
    Words(&'a [Word], &'a [Word]),
    Parts(&'a [TreePart], &'a [TreePart]),
    Expr(&'a ArithExpr, &'a ArithExpr),
    ArithLinks(&'a [ArithLink], &'a [ArithLink]),
    Pairs(&'a [Pair<Word>], &'a [Pair<Word>]),
    Members(&'a [Member], &'a [Member]),
    Arguments(&'a [Argument], &'a [Argument]),
    Assigns(&'a [Assign], &'a [Assign]),
    Redirects(&'a [Redirect<Word>], &'a [Redirect<Word>]),
    Terms(&'a [Term], &'a [Term]),
    Tests(&'a [Items<Term>], &'a [Items<Term>]),
    Items(&'a [Item], &'a [Item]),
    Lists(&'a [List], &'a [List]),
    Command(&'a Command, &'a Command),
    Links(&'a [Link<Command>], &'a [Link<Command>]),
    Arms(&'a [Arm<List>], &'a [Arm<List>]),
    CaseItems(&'a [CaseItem], &'a [CaseItem]),
}

/// The sides that weren't looked at yet.
#[derive(Drop)]
pub struct Unsettled<'a> {
    sides: Vec<Sides<'a>>,
}

impl<'a> Unsettled<'a> {
    pub fn new(alloc: Global) -> Unsettled<'a>
        ensures { waiting result ≡ [] }
    {
        Unsettled {
            sides: Vec::new(alloc),
        }
    }

    pub fn push(&mut self, sides: Sides<'a>) -> Result<(), Memory>
        ensures { OnOk result (waiting self.new ≡ sides.entry ∷ waiting self.old) }
    {
        self.sides.push(sides)?;
        Ok(())
    }

    pub fn pop(&mut self) -> Option<Sides<'a>>
        ensures { MatchOption result (waiting self.old ≡ []) (λ sides. waiting self.old ≡ sides ∷ waiting self.new) }
    {
        self.sides.pop()
    }
}
