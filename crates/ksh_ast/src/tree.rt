ghost use Rattle.std.specs.Prelude.{◌≡◌, IfOk};

use crate::kinds::{BinaryTest, Replaced, SubstKind, UnaryTest};
use crate::redirect::Redirect;
use arith_tree::ArithExpr;
use ksh_base::{Boxed, Items, Memory, Name, Shared, Text};

/// A list of commands. A copy shares it.
pub type List = Shared<Items<Item>>;

/// A whole script.
#[derive(Drop)]
pub struct Script {
    pub list: List,
}

impl Script {
    /// The same script: its list is shared.
    pub fn copy(&self) -> Result<Script, Memory>
        ensures { IfOk result (λ c. c ≡ self.now) }
    {
        let list = self.list.copy()?;
        Ok(Script { list })
    }
}

/// A word: its text is that of its pieces, one after another.
pub type Word = Items<Piece>;

/// A command of a list, with the line of its first byte, counted from 1.
#[cycle(tree)]
#[derive(Drop)]
pub struct Item {
    pub line: u32,
    pub command: Command,
}

/// A command, in one of its sixteen forms.
#[cycle(tree)]
#[derive(Drop)]
pub enum Command {
    /// Assignments, then the command's words.
    Simple {
        assigns: Items<Assign>,
        words: Items<Argument>,
        redirects: Items<Redirect<Word>>,
    },
    /// `(( .. ))`
    Arith {
        text: Arith,
        redirects: Items<Redirect<Word>>,
    },
    /// `[[ .. ]]`
    Cond {
        test: Condition,
        redirects: Items<Redirect<Word>>,
    },
    /// `{ .. }`
    Group {
        body: List,
        redirects: Items<Redirect<Word>>,
    },
    /// `( .. )`
    Subshell {
        body: List,
        redirects: Items<Redirect<Word>>,
    },
    /// `if`: the list of the first arm whose test ends with 0, else `otherwise`.
    If {
        arms: Items<Arm<List>>,
        otherwise: Option<List>,
        redirects: Items<Redirect<Word>>,
    },
    /// `while`, or `until`.
    Loop {
        until: bool,
        test: List,
        body: List,
        redirects: Items<Redirect<Word>>,
    },
    /// `for name`, over the words, or over the positional parameters where `in` is missing.
    For {
        name: Name,
        words: Option<Items<Word>>,
        body: List,
        redirects: Items<Redirect<Word>>,
    },
    /// `for ((first; test; step))`
    ForArith {
        first: Option<Arith>,
        test: Option<Arith>,
        step: Option<Arith>,
        body: List,
        redirects: Items<Redirect<Word>>,
    },
    /// `case`
    Case {
        word: Word,
        items: Items<CaseItem>,
        redirects: Items<Redirect<Word>>,
    },
    /// `select name`, over words as `for`.
    Select {
        name: Name,
        words: Option<Items<Word>>,
        body: List,
        redirects: Items<Redirect<Word>>,
    },
    /// The definition of a function.
    Function {
        definition: Shared<FunctionDef<List>>,
    },
    /// `a | b | ..`: each member is a list of one item, so that it can run in a shell of its own.
    Pipeline {
        members: Items<List>,
    },
    /// `a && b || ..`, from the left.
    AndOr {
        first: Boxed<Command>,
        rest: Items<Link<Command>>,
    },
    /// `! a`
    Not {
        inner: Boxed<Command>,
    },
    /// `a &`, or the coprocess `a |&`: a list of one item.
    Background {
        inner: List,
        coprocess: bool,
    },
}

/// A command of `&&` and `||`, with what joins it to those before it.
#[derive(Drop)]
pub struct Link<C> {
    /// `||`, else `&&`.
    pub or: bool,
    pub command: C,
}

/// `if test then body`, or `elif test then body`.
#[derive(Drop)]
pub struct Arm<L> {
    pub test: L,
    pub body: L,
}

/// `pattern | pattern) body ;;`
#[cycle(tree)]
#[derive(Drop)]
pub struct CaseItem {
    pub patterns: Items<Word>,
    pub body: List,
    /// `;&`: the next item's list runs too.
    pub falls: bool,
}

/// A function: its dotted name, whether it has a scope of its own, its body, and its text in the script.
#[derive(Drop)]
pub struct FunctionDef<L> {
    /// The names between the dots, at least one.
    pub name: Items<Name>,
    /// `function name`, else `name()`.
    pub own_scope: bool,
    /// A list of one item, a compound command.
    pub body: L,
    pub text: Text,
}

/// A word of a simple command.
#[cycle(tree)]
#[derive(Drop)]
pub enum Argument {
    Word(Word),
    /// An unquoted `path=value` past the command's name.
    Assign(Assign),
}

/// `path=value` or `path+=value`.
#[cycle(tree)]
#[derive(Drop)]
pub struct Assign {
    pub path: TreePath,
    pub append: bool,
    pub value: AssignValue,
}

/// What is assigned.
#[cycle(tree)]
#[derive(Drop)]
pub enum AssignValue {
    Word(Word),
    /// `(w w ..)`
    Words(Items<Word>),
    /// `([w]=w ..)`
    Pairs(Items<Pair<Word>>),
    /// `(x=1; typeset y; ..)`, a compound's members
    Members(Items<Member>),
}

/// `[subscript]=value`
#[derive(Drop)]
pub struct Pair<W> {
    pub subscript: W,
    pub value: W,
}

/// A member of a compound's value.
#[cycle(tree)]
#[derive(Drop)]
pub enum Member {
    Assign(Assign),
    /// `typeset`, with its words and assignments.
    Declare(Items<Argument>),
    Function(Shared<FunctionDef<List>>),
}

/// What stands between the `||` of a condition, each the terms that `&&` joins.
pub type Condition = Items<Items<Term>>;

/// A term of a condition.
#[cycle(tree)]
#[derive(Drop)]
pub struct Term {
    /// An odd number of `!` before it.
    pub negated: bool,
    pub test: Test,
}

/// A test of a condition.
#[cycle(tree)]
#[derive(Drop)]
pub enum Test {
    /// `( .. )`
    Nested(Condition),
    Unary {
        op: UnaryTest,
        word: Word,
    },
    Binary {
        left: Word,
        op: BinaryTest,
        right: Word,
    },
    /// That it isn't empty.
    Word(Word),
}

/// A piece of a word.
#[cycle(tree)]
#[derive(Drop)]
pub enum Piece {
    /// These bytes.
    Literal {
        text: Text,
        quoted: bool,
    },
    /// `$p` or `${p..}`
    Expand {
        param: Param,
        quoted: bool,
    },
    /// `$(..)`, backquotes, `$(<file)` or `${ ..;}`
    Subst {
        body: List,
        kind: SubstKind,
        quoted: bool,
    },
    /// `$((..))`
    Number {
        text: Arith,
        quoted: bool,
    },
}

/// Arithmetic in a script.
#[cycle(tree)]
#[derive(Drop)]
pub enum Arith {
    /// Text without expansions and quotes, parsed with the script.
    Parsed(ArithExpr),
    /// Text that is expanded, as in double quotes, and parsed when it runs.
    Text(Word),
}

/// An expansion of a parameter.
#[cycle(tree)]
#[derive(Drop)]
pub struct Param {
    pub of: ParamOf,
    pub form: ParamForm,
}

/// Which parameter.
#[cycle(tree)]
#[derive(Drop)]
pub enum ParamOf {
    Var(TreePath),
    /// A positional or special parameter.
    Special(Text),
    /// `${!x@}`: the names of set variables that begin so.
    Prefix(Text),
}

/// A path to a variable: `name`, then members and subscripts.
#[cycle(tree)]
#[derive(Drop)]
pub struct TreePath {
    pub name: Name,
    pub parts: Items<TreePart>,
}

/// A part of a path.
#[cycle(tree)]
#[derive(Drop)]
pub enum TreePart {
    /// `.name`
    Member(Name),
    /// `[word]`
    Sub(Word),
    /// `[@]`
    Each,
    /// `[*]`
    Joined,
}

/// What is made of a parameter. `colon` is for a null value too, not only for an unset one.
#[cycle(tree)]
#[derive(Drop)]
pub enum ParamForm {
    Plain,
    /// `-`: the word in its stead.
    Instead {
        colon: bool,
        word: Word,
    },
    /// `=`: the word, which is assigned.
    Assign {
        colon: bool,
        word: Word,
    },
    /// `?`: a fault.
    Fault {
        colon: bool,
        word: Word,
    },
    /// `+`: the word where the others have the value.
    Other {
        colon: bool,
        word: Word,
    },
    /// `${#p}`
    Length,
    /// `#` and `%`, doubled for the longest.
    Cut {
        tail: bool,
        longest: bool,
        pattern: Word,
    },
    /// `${p:from:count}`
    Slice {
        from: Word,
        count: Option<Word>,
    },
    /// `${p/pattern/with}`
    Replace {
        which: Replaced,
        pattern: Word,
        with: Word,
    },
    /// `${!p}`
    Target,
}
