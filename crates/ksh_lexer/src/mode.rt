/// What the next token stands in.
#[derive(Clone, Copy, Debug, PartialEq, Eq)]
pub enum LexMode {
    /// Between words, where a command may begin.
    Command,
    /// Between words elsewhere.
    Argument,
    /// Between the patterns of an item of `case`: a `(` is always a token of its own.
    Pattern,
    /// Between the words of a condition: digits and names belong to no redirection.
    Condition,
    /// Between the words of a value in parentheses.
    Value,
    /// In an unquoted word.
    Word,
    /// In double quotes that were opened at that byte.
    Quoted { opening: u32 },
    /// In a group of a pattern.
    Group,
    /// In a word inside `${..}`.
    Braced(BraceEnd),
    /// In a subscript.
    Subscript,
    /// In an arithmetic text, which `))` ends.
    Arithmetic,
    /// In an arithmetic text of `for`, which `;` ends too.
    LoopArithmetic,
    /// In parentheses of an arithmetic text.
    Parentheses,
    /// In the body of a here-document.
    HereBody { tabs: bool, expands: bool },
    /// Behind `${`, where a parameter begins.
    Parameter,
    /// Behind a parameter's name in braces.
    Form,
    /// Behind a path or a subscript of an assignment.
    Target,
}

/// What ends a word inside `${..}` beside the `}`.
#[derive(Clone, Copy, Debug, PartialEq, Eq)]
pub enum BraceEnd {
    Brace,
    Colon,
    Slash,
}

/// A byte and the two that come after it, where there are any. Joined lines are left out.
#[derive(Clone, Copy, Debug, PartialEq, Eq)]
pub(crate) struct Ahead {
    pub first: Option<u8>,
    pub second: Option<u8>,
    pub third: Option<u8>,
}
