//! What is open, without the parts of the tree that it holds.
use ksh_ast::SubstKind;
use ksh_lexer::Form;
use tree_parts::Asked;

/// What opens a part of a tree of which nothing else was read.
#[derive(Clone, Copy, Debug, PartialEq, Eq)]
pub enum Opening {
    /// The `[` of a subscript.
    Bracket,
    /// `${`, and what stands before the parameter's name; whether it is quoted.
    Braces(bool, Asked),
    /// What opens a substitution; whether it is quoted.
    Substitution(bool, SubstKind),
    /// What opens an arithmetic expansion; whether it is quoted.
    Arithmetic(bool),
    /// The place where a word with pieces begins, and whether it begins with `path=` or `path+=`.
    WordStart(usize, bool),
    /// A list of pipelines of which none was read.
    NoLink,
    /// `{` in a line.
    Group(u32),
    /// `(`
    Subshell(u32),
    /// `((`
    ArithmeticCommand(u32),
    /// `while`, or `until`.
    Loop(u32, bool),
    /// `for`, or `select`.
    For(u32, bool),
    /// `case`
    Case(u32),
    /// `function`: its place and line.
    Function(usize, u32),
    /// `[[`
    ConditionCommand(u32),
    /// `(` in a condition.
    Nested,
    /// The place before the `{` of a function among members.
    MemberBody,
}

/// What is open: the parts of the tree stand on stacks of their own.
#[derive(Clone, Copy, Debug, PartialEq, Eq)]
pub(crate) enum Open {
    Opened(Opening),
    Text,
    Subscript,
    Parameter(bool, Asked),
    Formed(bool, Form),
    Whole(usize, usize, bool),
    Target(usize),
    Element(usize),
    Assigning(bool),
    Assigned,
    Keyed,
    Value,
    Redirection,
    HereOperator,
    HereWord,
    HereBody,
    Redirected,
    Simple(usize, u32),
    Compound(u32),
    Finished(u32),
    Stages(u32, bool),
    Piped(u32),
    Linked(u32, bool),
    Chain(u32),
    Lines,
    Listed,
    FunctionName(usize, u32, bool),
    Defined(u32),
    If(u32),
    Then(u32),
    Else(u32),
    LoopBody(u32, bool),
    ForName(u32, bool),
    ForWords(u32, bool),
    ForReady(u32, bool),
    ForBody(u32, bool),
    ForArithmetic(u32),
    ForArithmeticBody(u32),
    CaseWord(u32),
    Cases(u32),
    Patterns,
    Terms(bool),
    Operands,
    Tested,
}
