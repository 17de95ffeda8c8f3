//! The token that comes next.
ghost use Rattle.std.specs.Prelude.{◌≡◌, ◌≤◌, None, IfOk, length};
ghost use Rattle.ksh_lexer.specs.Place.{longest_text};
ghost use Rattle.ksh_scan.specs.Openings.{in_backquotes, innermost};
ghost use Rattle.ksh_scan.specs.Seeing.{at_place, backquote, bare_word, goes_on, byte_of, empty_token, is_between, is_word, lex_mode, role_of, text_of, without_body, EndsBody, Ends, IsWithin, Sees, SeesBy, TakesBody};
ghost use Rattle.ksh_lexer.specs.Awaited.{missing};

use crate::opening::{in_backquotes, innermost};
use crate::state::{Source, State};
use ksh_kinds::kind_of;
use ksh_lexer::{Body, BraceEnd, LexMode, SyntaxFault, Token, TokenKind};
use ksh_syntax::{Kind, Mode};

/// A token as the grammar sees it.
#[derive(Clone, Copy, Debug, PartialEq, Eq)]
pub struct Seen {
    pub kind: Kind,
    /// The token of the text.
    pub token: Token,
    /// The body of a here-document that is read next.
    pub body: Option<Body>,
}

/// Whether a token is more than its kind tells.
#[derive(Clone, Copy, Debug, PartialEq, Eq)]
pub(crate) enum Role {
    /// Bodies of here-documents may stand behind it.
    Newline,
    /// A body or the script ends.
    End,
    /// What is open decides.
    Backquote,
    /// A backquote behind it may go on with the word.
    Bare,
    Own,
}

fn role_of(token: TokenKind) -> Role
    ensures { result ≡ role_of token }
{
    match token {
        TokenKind::Newline => Role::Newline,
        TokenKind::End => Role::End,
        TokenKind::Backquote => Role::Backquote,
        TokenKind::Bare => Role::Bare,
        _ => Role::Own,
    }
}

/// How the next token is lexed.
fn lex_mode(source: &Source, mode: Mode) -> LexMode
    ensures { result ≡ lex_mode source.now mode }
{
    match mode {
        Mode::Command => LexMode::Command,
        Mode::Pattern => LexMode::Pattern,
        Mode::Condition => LexMode::Condition,
        Mode::Value => LexMode::Value,
        Mode::Word => LexMode::Word,
        Mode::Quoted => LexMode::Quoted {
            opening: opening_byte(source),
        },
        Mode::Group => LexMode::Group,
        Mode::Brace => LexMode::Braced(BraceEnd::Brace),
        Mode::Colon => LexMode::Braced(BraceEnd::Colon),
        Mode::Slash => LexMode::Braced(BraceEnd::Slash),
        Mode::Subscript => LexMode::Subscript,
        Mode::Arithmetic => LexMode::Arithmetic,
        Mode::LoopArithmetic => LexMode::LoopArithmetic,
        Mode::Parentheses => LexMode::Parentheses,
        Mode::Body => LexMode::HereBody {
            tabs: source.tabs,
            expands: source.expands,
        },
        Mode::Parameter => LexMode::Parameter,
        Mode::Form => LexMode::Form,
        Mode::Target => LexMode::Target,
    }
}

/// The byte of the innermost opening.
fn opening_byte(source: &Source) -> u32
    ensures { result ≡ byte_of (innermost source.now.openings) }
{
    match innermost(source.openings.as_slice()) {
        Some(opening) => opening.byte,
        None => 0,
    }
}

/// Whether words and operators stand there, and no pieces of words.
fn is_between(mode: Mode) -> bool
    ensures { result ≡ is_between mode }
{
    matches!(
        mode,
        Mode::Command | Mode::Pattern | Mode::Condition | Mode::Value
    )
}

fn without_body(kind: Kind, token: Token) -> Seen
    ensures { result ≡ without_body kind token }
{
    Seen {
        kind,
        token,
        body: None,
    }
}

fn empty_token(kind: TokenKind, at: usize) -> Token
    ensures { result ≡ empty_token kind at }
{
    Token {
        kind,
        from: at,
        to: at,
    }
}

/// What a backquote is.
fn backquote(inside: bool, mode: Mode, token: Token) -> Seen
    requires { token.from ≤ token.to }
    ensures within { (result.token.from ≤ result.token.to) × (result.token.to ≤ token.to) }
    ensures body { result.body ≡ None }
    ensures seen { result ≡ backquote inside (is_between mode) (is_word mode) token }
{
    match (inside, mode) {
        (true, _) if is_between(mode) => without_body(Kind::Backquote, token),
        (true, Mode::Word) => without_body(
            Kind::WordEnd,
            empty_token(TokenKind::WordEnd, token.from),
        ),
        (true, _) => without_body(Kind::End, token),
        (false, _) if is_between(mode) => without_body(
            Kind::Start,
            empty_token(TokenKind::Start, token.from),
        ),
        (false, _) => without_body(Kind::Backquote, token),
    }
}

impl<'a> State<'a> {
    /// Sees the next token, read in that mode, and goes behind it; or gives the fault of the text, or of a body that has no
    /// end. Takes no memory.
    pub(crate) fn see(&mut self, mode: Mode) -> Result<Seen, SyntaxFault>
        ensures sees { Sees self.old mode result self.new }
        ensures small { IfOk result (λ n. (n.token.from ≤ n.token.to) × (n.token.to ≤ longest_text)) }
        ensures body { IfOk result (λ n. IsWithin (text_of self.new) n.body) }
    {
        let lex_mode = lex_mode(&self.source, mode);
        match self.source.lexer.next(lex_mode) {
            Ok(token) => self.see_token(mode, token),
            Err(fault) => Err(fault),
        }
    }

    /// What the text's token is, behind which it goes on.
    fn see_token(&mut self, mode: Mode, token: Token) -> Result<Seen, SyntaxFault>
        requires { (token.from ≤ token.to) × (token.to ≤ length (text_of self.old)) }
        ensures sees { SeesBy (role_of token.kind) mode self.old token result self.new }
        ensures token { IfOk result (λ n. (n.token.from ≤ n.token.to) × (n.token.to ≤ token.to)) }
        ensures body { IfOk result (λ n. IsWithin (text_of self.new) n.body) }
    {
        match role_of(token.kind) {
            Role::Newline => self.take_body(Kind::NewlineBodies, Kind::Newline, token),
            Role::End => self.end(mode, token),
            Role::Backquote => Ok(self.backquote(mode, token)),
            Role::Bare => Ok(self.bare(mode, token)),
            Role::Own => {
                let kind = kind_of(self.source.lexer.text(), mode, token);
                Ok(without_body(kind, token))
            }
        }
    }

    /// Takes the body that is awaited, behind a token that shows whether one is.
    fn take_body(&mut self, one: Kind, none: Kind, token: Token) -> Result<Seen, SyntaxFault>
        ensures taken { TakesBody one none self.old token result self.new }
        ensures token { IfOk result (λ n. n.token ≡ token) }
        ensures body { IfOk result (λ n. IsWithin (text_of self.new) n.body) }
    {
        match self.source.lexer.take_body()? {
            None => Ok(without_body(none, token)),
            Some(body) => Ok(Seen {
                kind: one,
                token,
                body: Some(body),
            }),
        }
    }

    /// What the end of a text is: that of the script, or of a body.
    fn end(&mut self, mode: Mode, token: Token) -> Result<Seen, SyntaxFault>
        ensures ends { Ends (missing self.old.source.lexer.0 self.old.source.lexer.2) mode self.old token result self.new }
        ensures token { IfOk result (λ n. n.token ≡ token) }
        ensures body { IfOk result (λ n. IsWithin (text_of self.new) n.body) }
    {
        if let Some(fault) = self.source.lexer.missing() {
            return Err(fault);
        }
        if mode == Mode::Body {
            return self.end_body(token);
        }
        Ok(without_body(Kind::End, token))
    }

    /// Goes on behind a body that ends, with the next one where another is awaited.
    fn end_body(&mut self, token: Token) -> Result<Seen, SyntaxFault>
        ensures ends { EndsBody self.old token result self.new }
        ensures token { IfOk result (λ n. n.token ≡ token) }
        ensures body { IfOk result (λ n. IsWithin (text_of self.new) n.body) }
    {
        match self.outer.pop() {
            None => Ok(without_body(Kind::End, token)),
            Some(below) => {
                self.source = below;
                self.take_body(Kind::BodyNext, Kind::BodyLast, token)
            }
        }
    }

    /// Whether a backquote stands there and opens a substitution.
    fn goes_on(&self, at: usize) -> bool
        ensures { result ≡ goes_on self.now at }
    {
        match self.source.lexer.text().get(at) {
            Some(byte) => *byte == b'`' && !in_backquotes(self.source.openings.as_slice()),
            None => false,
        }
    }

    /// Plain bytes are a whole word, but where a backquote behind them begins a substitution.
    fn bare(&mut self, mode: Mode, token: Token) -> Seen
        requires { (token.from ≤ token.to) × (token.to ≤ length (text_of self.old)) }
        ensures seen { result ≡ bare_word (goes_on self.old token.to) (text_of self.old) mode token }
        ensures place { self.new ≡ at_place self.old result.token.to }
        ensures token { (result.token.from ≤ result.token.to) × (result.token.to ≤ token.to) }
        ensures body { result.body ≡ None }
    {
        let text = self.source.lexer.text();
        if self.goes_on(token.to) {
            let start = empty_token(TokenKind::Start, token.from);
            self.source.lexer.go_to(start.to);
            return without_body(kind_of(text, mode, start), start);
        }
        self.source.lexer.go_to(token.to);
        without_body(kind_of(text, mode, token), token)
    }

    /// What a backquote is; it is read again where it is not the token.
    fn backquote(&mut self, mode: Mode, token: Token) -> Seen
        requires { (token.from ≤ token.to) × (token.to ≤ length (text_of self.old)) }
        ensures seen { result ≡ backquote (in_backquotes self.old.source.openings) (is_between mode) (is_word mode) token }
        ensures place { self.new ≡ at_place self.old result.token.to }
        ensures token { (result.token.from ≤ result.token.to) × (result.token.to ≤ token.to) }
        ensures body { result.body ≡ None }
    {
        let inside = in_backquotes(self.source.openings.as_slice());
        let seen = backquote(inside, mode, token);
        self.source.lexer.go_to(seen.token.to);
        seen
    }
}
