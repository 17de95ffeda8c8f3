//! What stands on top of a builder's frames.
ghost use Rattle.std.specs.Prelude.{◌≡◌, slice_get};
ghost use Rattle.tree_build.specs.Loads.{is_assignment_open, open_place, open_place_if};
ghost use Rattle.tree_build.specs.Places.{is_assignment_on_top, opening_place, place_at};

use crate::frames::Frames;
use crate::opening::{Open, Opening};

/// What a frame is, as far as it decides what a token does to it.
#[derive(Clone, Copy, Debug, PartialEq, Eq)]
pub enum Place {
    /// There is none.
    Nothing,
    Text,
    Bracket,
    Subscript,
    Parameter,
    Formed,
    Substitution,
    Arithmetic,
    WordStart,
    Whole,
    Target,
    Element,
    Assigning,
    Redirection,
    HereOperator,
    Simple,
    Finished,
    Stages,
    Linked,
    Lines,
    Listed,
    Group,
    Subshell,
    ArithmeticCommand,
    If,
    Then,
    Else,
    Loop,
    LoopBody,
    For,
    ForName,
    ForWords,
    ForReady,
    ForBody,
    ForArithmetic,
    ForArithmeticBody,
    Case,
    CaseWord,
    Cases,
    Patterns,
    Function,
    FunctionName,
    ConditionCommand,
    Nested,
    Terms,
    Operands,
    Value,
    MemberBody,
    Keyed,
    Other,
}

/// What that is which opens a part.
fn opening_place(opening: Opening) -> Place
    ensures { result ≡ opening_place opening }
{
    match opening {
        Opening::Loop(_, _) => Place::Loop,
        Opening::For(_, _) => Place::For,
        Opening::Case(_) => Place::Case,
        Opening::Function(_, _) => Place::Function,
        Opening::ConditionCommand(_) => Place::ConditionCommand,
        Opening::Nested => Place::Nested,
        Opening::MemberBody => Place::MemberBody,
        Opening::Bracket => Place::Bracket,
        Opening::Substitution(_, _) => Place::Substitution,
        Opening::Arithmetic(_) => Place::Arithmetic,
        Opening::WordStart(_, _) => Place::WordStart,
        Opening::Group(_) => Place::Group,
        Opening::Subshell(_) => Place::Subshell,
        Opening::ArithmeticCommand(_) => Place::ArithmeticCommand,
        _ => Place::Other,
    }
}

/// What a frame is.
fn open_place(what: Open) -> Place
    ensures { result ≡ open_place what }
{
    match what {
        Open::Opened(opening) => opening_place(opening),
        Open::If(_) => Place::If,
        Open::Then(_) => Place::Then,
        Open::Else(_) => Place::Else,
        Open::LoopBody(_, _) => Place::LoopBody,
        Open::ForName(_, _) => Place::ForName,
        Open::ForWords(_, _) => Place::ForWords,
        Open::ForReady(_, _) => Place::ForReady,
        Open::ForBody(_, _) => Place::ForBody,
        Open::ForArithmetic(_) => Place::ForArithmetic,
        Open::ForArithmeticBody(_) => Place::ForArithmeticBody,
        Open::CaseWord(_) => Place::CaseWord,
        Open::Cases(_) => Place::Cases,
        Open::Patterns => Place::Patterns,
        Open::FunctionName(_, _, _) => Place::FunctionName,
        Open::Terms(_) => Place::Terms,
        Open::Operands => Place::Operands,
        Open::Value => Place::Value,
        Open::Keyed => Place::Keyed,
        Open::Text => Place::Text,
        Open::Subscript => Place::Subscript,
        Open::Parameter(_, _) => Place::Parameter,
        Open::Formed(_, _) => Place::Formed,
        Open::Whole(_, _, _) => Place::Whole,
        Open::Target(_) => Place::Target,
        Open::Element(_) => Place::Element,
        Open::Assigning(_) => Place::Assigning,
        Open::Redirection => Place::Redirection,
        Open::HereOperator => Place::HereOperator,
        Open::Simple(_, _) => Place::Simple,
        Open::Finished(_) => Place::Finished,
        Open::Stages(_, _) => Place::Stages,
        Open::Linked(_, _) => Place::Linked,
        Open::Lines => Place::Lines,
        Open::Listed => Place::Listed,
        _ => Place::Other,
    }
}

impl Frames {
    /// What the frame is that stands so many below the top.
    #[tactic(auto, using(crate::proofs::Standing::place_there))]
    pub fn at(&self, below: usize) -> Place
        ensures { result ≡ place_at self.now below }
    {
        match self.opened.get(below) {
            Some(what) => open_place(what),
            None => Place::Nothing,
        }
    }

    /// Whether the word on top begins with `path=` or `path+=`.
    #[tactic(auto, using(crate::proofs::Standing::assigns_there))]
    pub fn is_assignment_word(&self) -> bool
        ensures { result ≡ is_assignment_on_top self.now }
    {
        match self.opened.get(0) {
            Some(Open::Whole(_, _, assigns)) => assigns,
            _ => false,
        }
    }
}
