/// What a token stands in.
#[derive(Clone, Copy, Debug, PartialEq, Eq)]
pub enum Mode {
    /// Between the words of commands.
    Command,
    /// Between the patterns of an item of `case`.
    Pattern,
    /// Between the words of a condition.
    Condition,
    /// Between the words of a value in parentheses.
    Value,
    /// In an unquoted word.
    Word,
    /// In double quotes.
    Quoted,
    /// In a group of a pattern.
    Group,
    /// In a word inside `${..}`.
    Brace,
    /// In a word inside `${..}` that a `:` ends too.
    Colon,
    /// In a word inside `${..}` that a `/` ends too.
    Slash,
    /// In a subscript.
    Subscript,
    /// In an arithmetic text, which `))` ends.
    Arithmetic,
    /// In an arithmetic text of `for`, which `;` ends too.
    LoopArithmetic,
    /// In parentheses of an arithmetic text.
    Parentheses,
    /// In the body of a here-document.
    Body,
    /// Behind `${`, where a parameter begins.
    Parameter,
    /// Behind a parameter's name in braces.
    Form,
    /// Behind a path or a subscript of an assignment.
    Target,
}

/// What a token is for the grammar.
#[derive(Clone, Copy, Debug, PartialEq, Eq)]
pub enum Kind {
    /// The end of the text.
    End,
    /// A newline.
    Newline,
    /// A newline behind which bodies of here-documents stand.
    NewlineBodies,
    /// `;`
    Semicolon,
    /// `;;`
    DoubleSemicolon,
    /// `;&`
    SemicolonAmpersand,
    /// `&&`
    AndIf,
    /// `||`
    OrIf,
    /// `|`
    Bar,
    /// `|&`
    BarAmpersand,
    /// `&`
    Ampersand,
    /// `((`
    DoubleParenthesis,
    /// What opens a group, a subscript or parentheses.
    Open,
    /// What closes them, or the text of the mode.
    Close,
    /// A backquote.
    Backquote,
    /// A redirection's operator with its descriptor.
    Redirect,
    /// `<<` or `<<-` with its descriptor.
    HereRedirect,
    /// `<` or `>` without a descriptor, in a condition.
    Order,
    /// A word that has pieces begins.
    Start,
    /// One that begins with `path=` or `path+=`.
    StartAssignment,
    /// The path before a subscript of an assignment.
    Element,
    /// `path=` or `path+=` directly before a `(`.
    ValueOpen,
    /// The `[` of a pair in a value.
    Key,
    /// `if`
    If,
    /// `then`
    Then,
    /// `else`
    Else,
    /// `elif`
    Elif,
    /// `fi`
    Fi,
    /// `case`
    Case,
    /// `esac`
    Esac,
    /// `for`
    For,
    /// `while`
    While,
    /// `until`
    Until,
    /// `do`
    Do,
    /// `done`
    Done,
    /// `{`
    LeftBrace,
    /// `}`
    RightBrace,
    /// `function`
    Function,
    /// `select`
    Select,
    /// `[[`
    LeftBrackets,
    /// `!`
    Bang,
    /// `]]`
    RightBrackets,
    /// `in`
    In,
    /// `time`
    Time,
    /// `namespace`
    Namespace,
    /// `typeset`
    Typeset,
    /// The name of a test of one word, as `-f`.
    Unary,
    /// The name of a test of two words, as `-eq`.
    Binary,
    /// Any other name.
    Name,
    /// Names with dots between them.
    Dotted,
    /// A plain word that begins with `path=` or `path+=`.
    Assignment,
    /// Any other plain word.
    Other,
    /// Bytes that stand for themselves.
    Plain,
    /// A backslash and newline.
    Joined,
    /// A backslash and the byte that it quotes.
    Escaped,
    /// `'..'`
    Single,
    /// `$'..'`
    Ansi,
    /// The `"` that opens a quoting.
    OpenQuote,
    /// `$name` and its kin.
    Expand,
    /// `${`
    OpenParameter,
    /// `${` before a blank or newline.
    OpenCurrent,
    /// `$(`
    OpenSubstitution,
    /// `$((`
    OpenArithmetic,
    /// A `$` that begins nothing.
    Dollar,
    /// What parts the words or texts of the mode.
    Separator,
    /// The end of a word that has pieces.
    WordEnd,
    /// The `"` that closes a quoting.
    CloseQuote,
    /// The end of a body behind which another stands.
    BodyNext,
    /// The end of the last body.
    BodyLast,
    /// The `#` of a length.
    Length,
    /// The `!` of a target.
    Target,
    /// The digits of a positional parameter.
    Digits,
    /// A special parameter.
    Special,
    /// `[@]` or `[*]`
    Items,
    /// `.name` behind a name or a subscript.
    Member,
    /// The `@` of `${!x@}`.
    Prefix,
    /// `-`, `=`, `?` or `+`, with or without `:`.
    Instead,
    /// `#`, `##`, `%` or `%%`.
    Cut,
    /// `:`
    Slice,
    /// `/`, `//`, `/#` or `/%`.
    Replace,
    /// `=` behind a subscript.
    Assign,
    /// `+=` behind a subscript.
    AddAssign,
    /// Nothing that goes on with an assignment.
    Otherwise,
}
