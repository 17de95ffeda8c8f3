//! The frames of a builder of trees.
ghost use Rattle.std.specs.Prelude.{◌≡◌, [], ◌∷◌, Err, IfOk};
ghost use Rattle.tree_build.specs.Fits.{Fits};
ghost use Rattle.tree_build.specs.Frame.{Listed};
ghost use Rattle.tree_build.specs.declared.unbuilt.Unbuilt.TheVariants as unbuilt;
ghost use Rattle.tree_moves.specs.Tags as tag;

use crate::opening::Open;
use crate::stack::Stack;
use crate::unbuilt::Unbuilt;
use ksh_ast::{
    Argument, Arith, Arm, Assign, CaseItem, Command, Condition, FunctionDef, Item, Link, List,
    ParamOf, Redirect, RedirectForm, RedirectTo, Term, Test, TreePath, Word,
};
use ksh_base::{Items, Name, Shared, Text};
use std::alloc::Global;
use std::marker::Model;
use tree_parts::Entry;

/// Parts of words.
#[derive(Drop)]
pub(crate) struct Texts {
    pub(crate) words: Stack<Word>,
    pub(crate) params: Stack<ParamOf>,
    pub(crate) firsts: Stack<Option<Word>>,
    pub(crate) paths: Stack<TreePath>,
    pub(crate) entries: Stack<Items<Entry>>,
}

/// Parts of redirections.
#[derive(Drop)]
pub(crate) struct Redirections {
    pub(crate) targets: Stack<RedirectTo>,
    pub(crate) forms: Stack<RedirectForm>,
    pub(crate) ends: Stack<Text>,
    pub(crate) redirected: Stack<Redirect<Word>>,
    pub(crate) redirects: Stack<Items<Redirect<Word>>>,
}

/// Parts of simple commands.
#[derive(Drop)]
pub(crate) struct Simples {
    pub(crate) assigned: Stack<Assign>,
    pub(crate) assigns: Stack<Items<Assign>>,
    pub(crate) arguments: Stack<Items<Argument>>,
}

/// Commands, lists and functions.
#[derive(Drop)]
pub(crate) struct Lists {
    pub(crate) commands: Stack<Command>,
    pub(crate) stages: Stack<Items<List>>,
    pub(crate) links: Stack<Items<Link<Command>>>,
    pub(crate) lines: Stack<Items<Item>>,
    pub(crate) lists: Stack<List>,
    pub(crate) function_names: Stack<Items<Name>>,
    pub(crate) functions: Stack<Shared<FunctionDef<List>>>,
}

/// Parts of compound commands and conditions.
#[derive(Drop)]
pub(crate) struct Compounds {
    pub(crate) arms: Stack<Items<Arm<List>>>,
    pub(crate) names: Stack<Name>,
    pub(crate) word_lists: Stack<Items<Word>>,
    pub(crate) optional_words: Stack<Option<Items<Word>>>,
    pub(crate) parts: Stack<Items<Option<Arith>>>,
    pub(crate) cases: Stack<Items<CaseItem>>,
    pub(crate) conditions: Stack<Condition>,
    pub(crate) terms: Stack<Items<Term>>,
    pub(crate) tests: Stack<Test>,
}

/// What is open of a tree that is being read. Contracts see the frames, the innermost first. What is open and the parts of the
/// tree stand on stacks of their own, one for each type, so that no frame is larger than a few words. Where a step fails, nothing
/// is open any more.
#[derive(Drop)]
pub struct Frames {
    pub(crate) opened: Stack<Open>,
    pub(crate) texts: Texts,
    pub(crate) redirections: Redirections,
    pub(crate) simples: Simples,
    pub(crate) lists: Lists,
    pub(crate) compounds: Compounds,
}

impl Model for Frames {
    ghost use Rattle.std.specs.Prelude.{List};
    ghost use Rattle.tree_build.specs.Frame.{Frame};
    ghost use Rattle.tree_build.specs.Loads.{Loaded, Loads, frames_of};
    ghost use Rattle.ksh_ast.specs.contracts.tree.Argument as row_argument;
    ghost use Rattle.ksh_ast.specs.contracts.tree.Arith as row_arith;
    ghost use Rattle.ksh_ast.specs.contracts.tree.AssignValue as row_assignvalue;
    ghost use Rattle.ksh_ast.specs.contracts.tree.Command as row_command;
    ghost use Rattle.ksh_ast.specs.contracts.tree.Member as row_member;
    ghost use Rattle.ksh_ast.specs.contracts.tree.ParamForm as row_paramform;
    ghost use Rattle.ksh_ast.specs.contracts.tree.ParamOf as row_paramof;
    ghost use Rattle.ksh_ast.specs.contracts.tree.Piece as row_piece;
    ghost use Rattle.ksh_ast.specs.contracts.tree.Test as row_test;
    ghost use Rattle.ksh_ast.specs.contracts.tree.TreePart as row_treepart;
    ghost use Rattle.ksh_ast.specs.contracts.tree.Assign as row_assign;
    ghost use Rattle.ksh_ast.specs.contracts.tree.CaseItem as row_caseitem;
    ghost use Rattle.ksh_ast.specs.contracts.tree.Item as row_item;
    ghost use Rattle.ksh_ast.specs.contracts.tree.Param as row_param;
    ghost use Rattle.ksh_ast.specs.contracts.tree.Term as row_term;
    ghost use Rattle.ksh_ast.specs.contracts.tree.TreePath as row_treepath;
    ghost use Rattle.arith_tree.specs.contracts.expr.ArithExpr as row_expr;
    ghost use Rattle.std.specs.Coded.{codes};

    ghost Value = { List Frame };

    ghost coded = { Prim.hlevel (codes, row_argument.the_row.coded, row_arith.the_row.coded, row_assignvalue.the_row.coded, row_command.the_row.coded, row_member.the_row.coded, row_paramform.the_row.coded, row_paramof.the_row.coded, row_piece.the_row.coded, row_test.the_row.coded, row_treepart.the_row.coded, row_assign.the_row.coded, row_caseitem.the_row.coded, row_item.the_row.coded, row_param.the_row.coded, row_term.the_row.coded, row_treepath.the_row.coded, row_expr.the_row.coded) };

    ghost view = { λ b. frames_of b.opened (record { texts = b.texts; redirections = b.redirections; simples = b.simples; lists = b.lists; compounds = b.compounds }) };

    ghost invariant = { λ b. Loaded b.opened (record { texts = b.texts; redirections = b.redirections; simples = b.simples; lists = b.lists; compounds = b.compounds }) };
}

impl Frames {
    /// Of which nothing is open.
    pub fn new(alloc: Global) -> Frames
        ensures { result ≡ [] }
    {
        Frames {
            opened: Stack::new(alloc),
            texts: Texts {
                words: Stack::new(alloc),
                params: Stack::new(alloc),
                firsts: Stack::new(alloc),
                paths: Stack::new(alloc),
                entries: Stack::new(alloc),
            },
            redirections: Redirections {
                targets: Stack::new(alloc),
                forms: Stack::new(alloc),
                ends: Stack::new(alloc),
                redirected: Stack::new(alloc),
                redirects: Stack::new(alloc),
            },
            simples: Simples {
                assigned: Stack::new(alloc),
                assigns: Stack::new(alloc),
                arguments: Stack::new(alloc),
            },
            lists: Lists {
                commands: Stack::new(alloc),
                stages: Stack::new(alloc),
                links: Stack::new(alloc),
                lines: Stack::new(alloc),
                lists: Stack::new(alloc),
                function_names: Stack::new(alloc),
                functions: Stack::new(alloc),
            },
            compounds: Compounds {
                arms: Stack::new(alloc),
                names: Stack::new(alloc),
                word_lists: Stack::new(alloc),
                optional_words: Stack::new(alloc),
                parts: Stack::new(alloc),
                cases: Stack::new(alloc),
                conditions: Stack::new(alloc),
                terms: Stack::new(alloc),
                tests: Stack::new(alloc),
            },
        }
    }

    /// The list of a whole script.
    #[tactic(auto, using(crate::proofs::Onto::listed_on, crate::proofs::Onto::listed_loaded))]
    pub fn finish(&mut self) -> Result<List, Unbuilt>
        ensures listed { IfOk result (λ is. self.old ≡ Listed is ∷ []) }
        ensures moves { Fits (tag.Listed ∷ []) self.old → result ≡ Err unbuilt.Stray → ⊥ }
    {
        let Some(Open::Listed) = self.opened.pop() else {
            return Err(self.opened.stray());
        };
        if self.opened.is_empty() {
            let Some(list) = self.lists.lists.pop() else {
                unreachable!();
            };
            return Ok(list);
        }
        Err(self.opened.stray())
    }
}
