use crate::kind::{Kind, Mode};

/// A set of kinds of words.
#[derive(Clone, Copy, Debug, PartialEq, Eq)]
pub enum Words {
    /// One that may name a function at the front of a command.
    FunctionName,
    /// One that names a command otherwise.
    CommandWord,
    /// A word with pieces.
    AnyStart,
    /// A name, or names with dots between them, reserved words among them.
    DottedName,
    /// Each.
    /// Any word.
    AnyWord,
    /// A word with pieces behind a redirection.
    RedirectStart,
    /// A name, reserved words among them.
    VariableName,
    /// Each but `esac`.
    NotEsac,
    /// A word with pieces where no assignment is known.
    EveryStart,
    /// Each but `!`, `]]` and the name of a test of one word.
    FirstOperand,
    /// Each but `]]`.
    OperandWord,
    /// Each but `]]` and the name of a test of two words.
    NotBinary,
    /// One that may name a member's function.
    MemberName,
    /// One that is only a word in a value.
    ItemWord,
    /// Each but an assignment.
    NotAssignment,
    /// One that is neither a name nor an assignment.
    NotName,
    /// Each but `{` and an assignment.
    NotBrace,
}

/// Which tokens a place of a rule takes: those of one kind, or of a set, in a mode.
#[derive(Clone, Copy, Debug, PartialEq, Eq)]
pub enum Terminal {
    One(Mode, Kind),
    Any(Mode, Words),
}

/// What ends a list directly.
#[derive(Clone, Copy, Debug, PartialEq, Eq)]
pub enum Ending {
    /// An operator or the end of the text.
    Operator,
    /// A reserved word.
    Word,
    /// `;;`, `;&` or `esac`.
    Case,
}

/// A part of the grammar.
#[derive(Clone, Copy, Debug, PartialEq, Eq)]
pub enum Part {
    /// The pieces of a text, in that mode.
    Text(Mode),
    /// Commands and newlines, perhaps none.
    Lines(Ending),
    /// Newlines, then commands.
    Body(Ending),
    /// A command and what comes after it.
    Commands(Ending),
    /// The same behind a `!`, a `|` or nothing.
    Piped(Ending),
    /// What comes behind a word that may name a function.
    AfterName(Ending),
    /// What comes behind a simple command.
    AfterSimple(Ending),
    /// What comes behind a compound command.
    AfterCompound(Ending),
    /// A parameter in braces.
    Parameter,
    /// The parameter of a length.
    LengthOf,
    /// The path of a length.
    LengthPath,
    /// The path of a target.
    TargetPath,
    /// What goes on behind a path in braces.
    PathForm,
    /// What goes on behind a parameter that is no path.
    SpecialForm,
    /// The end of a slice, or its count.
    SliceEnd,
    /// The end of a replacement, or its text.
    ReplaceEnd,
    /// A whole script.
    Script,
    /// A newline, and the bodies of here-documents behind it.
    Line,
    /// The bodies of here-documents.
    BodyTexts,
    /// The end of a body, and perhaps other bodies.
    BodyEnd,
    /// Newlines, perhaps none.
    Newlines,
    /// A simple command that begins with no name of a function.
    Simple,
    /// A compound command or a function.
    Compounded,
    /// The rest of a simple command.
    Arguments,
    /// The rest of a simple command that has no name yet.
    FirstArguments,
    /// What comes behind an element's path there.
    FirstElement,
    /// Redirections behind a compound command, perhaps none.
    Redirections,
    /// A redirection.
    Redirection,
    /// The word of a redirection.
    RedirectWord,
    /// What comes behind an element's path.
    ElementValue,
    /// A compound command.
    Compound,
    /// What comes behind `if`.
    IfBody,
    /// `elif`, `else` or `fi`, and what comes behind.
    IfRest,
    /// What comes behind `while` or `until`.
    LoopBody,
    /// What comes behind `for`.
    ForBody,
    /// What stands before the `do` of `for ((`.
    ForSeparator,
    /// What comes behind `select`.
    SelectBody,
    /// What comes behind the name of `for` or `select`.
    ForWords,
    /// The same behind a newline.
    ForLines,
    /// The words behind `in`, and the rest of the command.
    WordList,
    /// What comes behind `case`.
    CaseBody,
    AnyWord,
    /// The items of `case`, up to `esac`.
    CaseItems,
    /// A newline before an item.
    PatternLine,
    /// Other patterns of an item, up to the `)`.
    PatternRest,
    /// A pattern.
    PatternWord,
    /// A condition.
    Condition,
    /// Newlines in a condition, perhaps none.
    ConditionLines,
    /// A newline in a condition.
    ConditionLine,
    /// What comes behind `||` in a condition.
    Alternatives,
    /// Terms with `&&` between them.
    Conjunction,
    /// What comes behind `&&` in a condition.
    Conjuncts,
    /// A term, with any number of `!` before it.
    Negation,
    /// A term of a condition.
    Term,
    /// What comes behind a word of a condition.
    AfterOperand,
    /// The right word of a test.
    Operand,
    /// What comes behind the name of a test of one word.
    AfterUnary,
    /// What comes behind that and the name of a test of two.
    AfterBinary,
    /// A value in parentheses.
    Value,
    /// A newline in a value.
    ValueLine,
    /// What comes behind an element's path in a value that may be words.
    ItemElement,
    /// What comes behind an element's path in a member.
    MemberElement,
    /// A value of which nothing is known yet.
    Items,
    /// The word of a pair.
    KeyValue,
    /// A value that has had assignments alone: members or words.
    ItemsMixed,
    /// The members of a compound.
    ItemsMembers,
    /// Newlines in a value, perhaps none.
    ValueLines,
    /// A function among members.
    MemberFunction,
    /// What comes behind `typeset` among members.
    TypesetMember,
    /// What comes behind `typeset` in a value that may be words.
    ItemsTypeset,
    /// What comes behind `function` in a value that may be words.
    ItemsFunction,
    /// The same behind the name.
    ItemsBrace,
    /// What comes behind a name in a value that may be words.
    AfterItemName,
    /// Words of a value.
    ItemsWords,
    /// Pairs of a value, which may be words.
    ItemsPairs,
    /// What comes behind a function among members.
    MemberRedirections,
}

/// What the reader of a sentence is told beside its tokens.
#[derive(Clone, Copy, Debug, PartialEq, Eq)]
pub enum Mark {
    /// A simple command ends.
    SimpleEnds,
    /// The redirections of a compound command end.
    CompoundEnds,
    /// A list of commands ends.
    ListEnds,
    /// What the next token opens is closed by another: a compound command, an expansion in braces or parentheses, a
    /// substitution, a value, double quotes, or the word of a redirection.
    Opens,
    /// The next token closes what was opened last.
    Closes,
    /// The next token is a whole word that begins a simple command, no assignment, and can't name a function.
    CommandWord,
    /// The next token is a whole word that names a simple command, or a function that `()` defines.
    CommandName,
    /// The next token closes the subscript of a path, or of a pair's key.
    SubscriptEnds,
    /// The next token begins what stands between separators of a list: pipelines with `&&` and `||` between them.
    AndOrBegins,
    /// The next token begins a pipeline, also behind `&&` and `||`: a `!`, or its first command.
    PipelineBegins,
    /// The next token begins a simple command, or names a function that `()` defines.
    SimpleBegins,
    /// A term of a condition ends, and what the `!`s before it negate.
    TermEnds,
    /// The next token is the `{` of a function among the members of a value.
    MemberBody,
}
