//! What is left to write, so that no depth of a tree is a depth of calls.
ghost use Rattle.std.specs.Prelude.{◌≡◌, [], OnOk, MatchOption};
ghost use Rattle.ksh_unparse.specs.Stack.{to_write, task_marks};

use arith_tree::{ArithExpr, ArithLink, ArithPart};
use ksh_ast::{
    Argument, Arm, Assign, CaseItem, Command, Item, Link, List, Member, Pair, Piece, Redirect,
    Term, TreePart, Word,
};
use ksh_base::{Items, Memory, Name};
use std::alloc::Global;

/// A part that is left to write. A list without a separator of its own has one before each of its members.
#[derive(Drop)]
pub enum Task<'a> {
    Bytes(&'a [u8]),
    /// In quotes.
    Quoted(&'a [u8]),
    /// In the body of a here-document.
    Escaped(&'a [u8]),
    /// In decimal digits.
    Number(u64),
    /// A newline, and the bodies of the here-documents before it.
    Line,
    /// Here the body of a here-document begins.
    Open,
    /// Here it ends, and the operator stands.
    Close,
    /// Commands, each on its line.
    List(&'a [Item]),
    /// Commands, each behind a newline.
    BehindLines(&'a [Item]),
    Command(&'a Command),
    Word(&'a [Piece]),
    /// The body of a here-document.
    Body(&'a [Piece]),
    /// Pieces of a word, or of arithmetic where the first is set, behind one that stands inside `"` where the second is.
    Pieces(&'a [Piece], bool, bool),
    /// Words, each behind these bytes.
    Words(&'a [u8], &'a [Word]),
    Arguments(&'a [Argument]),
    Assign(&'a Assign),
    Assigns(&'a [Assign]),
    Redirects(&'a [Redirect<Word>]),
    Pairs(&'a [Pair<Word>]),
    Members(&'a [Member]),
    Parts(&'a [TreePart]),
    Names(&'a [Name]),
    Term(&'a Term),
    Terms(&'a [Term]),
    Alternatives(&'a [Items<Term>]),
    Arms(&'a [Arm<List>]),
    CaseItems(&'a [CaseItem]),
    Stages(&'a [List]),
    Links(&'a [Link<Command>]),
    /// An expression where operators of at most this level stand without parentheses.
    Expr(&'a ArithExpr, u8),
    /// Operators and operands of that level.
    ExprLinks(&'a [ArithLink], u8),
    ExprParts(&'a [ArithPart]),
}

/// What is left to write, the first last.
#[derive(Drop)]
pub struct Left<'a> {
    tasks: Items<Task<'a>>,
}

impl<'a> Left<'a> {
    #[tactic(auto, unfolding(crate::specs::Stack::to_write))]
    pub fn new(alloc: Global) -> Left<'a>
        ensures { to_write result.tasks ≡ [] }
    {
        Left {
            tasks: Items::new(alloc),
        }
    }

    /// Puts a task before those that are left.
    #[tactic(auto, using(crate::proofs::Stack::to_write_push))]
    pub fn push(&mut self, task: Task<'a>) -> Result<(), Memory>
        ensures { OnOk result (to_write self.new.tasks ≡ task_marks task.entry (to_write self.old.tasks)) }
    {
        self.tasks.push(task)?;
        Ok(())
    }

    /// Takes the first task.
    pub fn pop(&mut self) -> Option<Task<'a>>
        ensures { MatchOption result (to_write self.old.tasks ≡ []) (λ t. to_write self.old.tasks ≡ task_marks t (to_write self.new.tasks)) }
    {
        self.tasks.pop()
    }
}
