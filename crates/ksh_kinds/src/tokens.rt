//! What tokens are for the grammar.
ghost use Rattle.std.specs.Prelude.{◌≡◌, ◌≤◌, length};
ghost use Rattle.ksh_kinds.specs.Tokens.{assigns_nothing, bare_kind, form_kind, is_bare, kind_by, kind_of, may_assign, operator_kind, parts, redirect_kind};

use crate::words::{is_assignment, path_len, word_kind};
use ksh_lexer::{Form, Operator, Redirection, Token, TokenKind, is_path};
use ksh_syntax::{Kind, Mode};

/// What a token of the text is, which was read in that mode.
pub fn kind_of(text: &[u8], mode: Mode, token: Token) -> Kind
    requires { (token.from ≤ token.to) × (token.to ≤ length text.now) }
    ensures { result ≡ kind_of text.now mode token }
{
    let behind = text.get(token.to).copied();
    if is_bare(token.kind) {
        bare_kind(may_assign(mode), &text[token.from..token.to], behind)
    } else {
        kind_by(&text[token.from..], behind, mode, token.kind)
    }
}

/// Whether the token is a whole word of plain bytes.
fn is_bare(kind: TokenKind) -> bool
    ensures { result ≡ is_bare kind }
{
    matches!(kind, TokenKind::Bare)
}

/// Whether assignments are looked for.
fn may_assign(mode: Mode) -> bool
    ensures { result ≡ may_assign mode }
{
    matches!(mode, Mode::Command | Mode::Value)
}

/// What a whole word of plain bytes is, behind which that byte comes, where assignments are looked for or not.
fn bare_kind(looks: bool, word: &[u8], behind: Option<u8>) -> Kind
    ensures { result ≡ bare_kind looks word.now behind }
{
    if looks && behind == Some(b'(') && assigns_nothing(word) {
        Kind::ValueOpen
    } else {
        word_kind(looks, word)
    }
}

/// Whether a word is `path=` or `path+=`.
fn assigns_nothing(word: &[u8]) -> bool
    ensures { result ≡ assigns_nothing word.now }
{
    let front = path_len(word);
    let behind = &word[front..];
    is_path(&word[..front]) && (behind == b"=".as_slice() || behind == b"+=".as_slice())
}

/// Whether a blank or a newline comes.
fn parts(behind: Option<u8>) -> bool
    ensures { result ≡ parts behind }
{
    matches!(behind, Some(b' ') | Some(b'\t') | Some(b'\n'))
}

/// What a token is that is no whole word of plain bytes. `rest` is the text from its first byte.
fn kind_by(rest: &[u8], behind: Option<u8>, mode: Mode, kind: TokenKind) -> Kind
    ensures { result ≡ kind_by rest.now behind mode kind }
{
    match kind {
        TokenKind::End => Kind::End,
        TokenKind::Newline => Kind::Newline,
        TokenKind::Operator(operator) => operator_kind(operator),
        TokenKind::Redirect(redirection, _) => redirect_kind(mode, redirection),
        TokenKind::Bare => Kind::Other,
        TokenKind::Start if may_assign(mode) && is_assignment(rest) => Kind::StartAssignment,
        TokenKind::Start => Kind::Start,
        TokenKind::Element => Kind::Element,
        TokenKind::Key => Kind::Key,
        TokenKind::WordEnd => Kind::WordEnd,
        TokenKind::OpenParameter if parts(behind) => Kind::OpenCurrent,
        TokenKind::Assign | TokenKind::AddAssign if behind == Some(b'(') => Kind::ValueOpen,
        TokenKind::Assign => Kind::Assign,
        TokenKind::AddAssign => Kind::AddAssign,
        TokenKind::Otherwise => Kind::Otherwise,
        TokenKind::Length => Kind::Length,
        TokenKind::Target => Kind::Target,
        TokenKind::Name => Kind::Name,
        TokenKind::Digits => Kind::Digits,
        TokenKind::Special => Kind::Special,
        TokenKind::Form(form) => form_kind(form),
        TokenKind::Items { .. } => Kind::Items,
        TokenKind::Member(_) => Kind::Member,
        TokenKind::Prefix => Kind::Prefix,
        TokenKind::Plain => Kind::Plain,
        TokenKind::Joined => Kind::Joined,
        TokenKind::Escaped => Kind::Escaped,
        TokenKind::Single => Kind::Single,
        TokenKind::Ansi(_) => Kind::Ansi,
        TokenKind::OpenQuote => Kind::OpenQuote,
        TokenKind::CloseQuote => Kind::CloseQuote,
        TokenKind::Backquote => Kind::Backquote,
        TokenKind::Expand(_) => Kind::Expand,
        TokenKind::OpenParameter => Kind::OpenParameter,
        TokenKind::OpenSubstitution => Kind::OpenSubstitution,
        TokenKind::OpenArithmetic => Kind::OpenArithmetic,
        TokenKind::Dollar => Kind::Dollar,
        TokenKind::Open => Kind::Open,
        TokenKind::Close => Kind::Close,
        TokenKind::Separator => Kind::Separator,
    }
}

fn operator_kind(operator: Operator) -> Kind
    ensures { result ≡ operator_kind operator }
{
    match operator {
        Operator::DoubleSemicolon => Kind::DoubleSemicolon,
        Operator::SemicolonAmpersand => Kind::SemicolonAmpersand,
        Operator::AndIf => Kind::AndIf,
        Operator::OrIf => Kind::OrIf,
        Operator::BarAmpersand => Kind::BarAmpersand,
        Operator::DoubleParenthesis => Kind::DoubleParenthesis,
        Operator::Semicolon => Kind::Semicolon,
        Operator::Ampersand => Kind::Ampersand,
        Operator::Bar => Kind::Bar,
        Operator::OpenParenthesis => Kind::Open,
        Operator::CloseParenthesis => Kind::Close,
    }
}

/// In a condition `<` and `>` compare.
fn redirect_kind(mode: Mode, redirection: Redirection) -> Kind
    ensures { result ≡ redirect_kind mode redirection }
{
    match (mode, redirection) {
        (_, Redirection::HereTabs | Redirection::HereDocument) => Kind::HereRedirect,
        (Mode::Condition, Redirection::Input | Redirection::Output) => Kind::Order,
        _ => Kind::Redirect,
    }
}

fn form_kind(form: Form) -> Kind
    ensures { result ≡ form_kind form }
{
    match form {
        Form::Instead { .. } | Form::Assign { .. } | Form::Fault { .. } | Form::Other { .. } => {
            Kind::Instead
        }
        Form::Cut { .. } => Kind::Cut,
        Form::Slice => Kind::Slice,
        Form::ReplaceFirst | Form::ReplaceAll | Form::ReplaceFront | Form::ReplaceTail => {
            Kind::Replace
        }
    }
}
