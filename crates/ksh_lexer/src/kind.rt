/// The operators that are no redirections.
#[derive(Clone, Copy, Debug, PartialEq, Eq)]
pub enum Operator {
    /// `;;`
    DoubleSemicolon,
    /// `;&`
    SemicolonAmpersand,
    /// `&&`
    AndIf,
    /// `||`
    OrIf,
    /// `|&`
    BarAmpersand,
    /// `((`
    DoubleParenthesis,
    /// `;`
    Semicolon,
    /// `&`
    Ampersand,
    /// `|`
    Bar,
    /// `(`
    OpenParenthesis,
    /// `)`
    CloseParenthesis,
}

/// The operators of redirections.
#[derive(Clone, Copy, Debug, PartialEq, Eq)]
pub enum Redirection {
    /// `<<-`
    HereTabs,
    /// `<<<`
    HereString,
    /// `<<`
    HereDocument,
    /// `<>`
    ReadWrite,
    /// `<&`
    CopyInput,
    /// `<`
    Input,
    /// `>|`
    Clobber,
    /// `>>`
    Append,
    /// `>&`
    CopyOutput,
    /// `>`
    Output,
}

/// What stands directly before a redirection's operator, in the same token.
#[derive(Clone, Copy, Debug, PartialEq, Eq)]
pub enum Descriptor {
    /// Nothing: the operator's own descriptor.
    Default,
    /// One digit, and its value.
    Digit(u8),
    /// `{name}`: the name's bytes end at this place, and begin behind the token's first byte.
    Named(usize),
}

/// How a parameter in braces goes on behind its name.
#[derive(Clone, Copy, Debug, PartialEq, Eq)]
pub enum Form {
    /// `-` or `:-`
    Instead { colon: bool },
    /// `=` or `:=`
    Assign { colon: bool },
    /// `?` or `:?`
    Fault { colon: bool },
    /// `+` or `:+`
    Other { colon: bool },
    /// `#`, `##`, `%` or `%%`
    Cut { tail: bool, longest: bool },
    /// `:`
    Slice,
    /// `/`
    ReplaceFirst,
    /// `//`
    ReplaceAll,
    /// `/#`
    ReplaceFront,
    /// `/%`
    ReplaceTail,
}

/// What a token is. Which kinds come depends on the mode.
#[derive(Clone, Copy, Debug, PartialEq, Eq)]
pub enum TokenKind {
    /// The end of the text. It has no bytes.
    End,
    Newline,
    Operator(Operator),
    Redirect(Redirection, Descriptor),
    /// A whole word of plain bytes alone.
    Bare,
    /// A word begins here, and its pieces follow. It has no bytes.
    Start,
    /// The path before a subscript of an assignment; the `[` comes next.
    Element,
    /// The `[` of a pair `[key]=word` in a value.
    Key,
    /// A word ends here. It has no bytes.
    WordEnd,
    /// Bytes that stand for themselves.
    Plain,
    /// A backslash and newline, which stand for nothing.
    Joined,
    /// A backslash, and the byte that it quotes.
    Escaped,
    /// `'..'`
    Single,
    /// `$'..'`; the bytes between the quotes begin at this place.
    Ansi(usize),
    /// `"` at the start of a quoting
    OpenQuote,
    /// `"` at the end of a quoting
    CloseQuote,
    /// A backquote, at the start or the end of a substitution.
    Backquote,
    /// `$name`, `$1` or `$?`; the name or byte begins at this place.
    Expand(usize),
    /// `${`
    OpenParameter,
    /// `$(`
    OpenSubstitution,
    /// `$((`
    OpenArithmetic,
    /// A `$` that begins nothing; it is a quoted literal byte.
    Dollar,
    /// What opens a group of a pattern, a parenthesis of an arithmetic text, or a subscript.
    Open,
    /// What closes the text of the mode.
    Close,
    /// What parts the words or texts of the mode.
    Separator,
    /// The `#` of a parameter's length.
    Length,
    /// The `!` of a parameter's target.
    Target,
    /// The name of a parameter.
    Name,
    /// The digits of a positional parameter.
    Digits,
    /// The byte of a special parameter.
    Special,
    /// How the parameter goes on.
    Form(Form),
    /// `[@]`, or `[*]` where joined.
    Items { joined: bool },
    /// `.name` behind a name or a subscript; the name begins at this place.
    Member(usize),
    /// The `@` of `${!x@}`.
    Prefix,
    /// `=` behind a subscript
    Assign,
    /// `+=` behind a subscript
    AddAssign,
    /// Nothing that goes on with an assignment. It has no bytes.
    Otherwise,
}

/// A token, and the bytes that it takes: those from one place of the text to another.
#[derive(Clone, Copy, Debug, PartialEq, Eq)]
pub struct Token {
    pub kind: TokenKind,
    pub from: usize,
    pub to: usize,
}
