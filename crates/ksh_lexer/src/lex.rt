ghost use Rattle.std.specs.Prelude.{◌≡◌, ◌+◌, ◌-◌, ◌<◌, ◌≤◌, ◌⊎◌, Some, length, drop, slice_get, slice_index, true, IfOk};
ghost use Rattle.ksh_lexer.specs.Begin.{begins_at};
ghost use Rattle.ksh_lexer.specs.Bytes.{is, is_digit, present};
ghost use Rattle.ksh_lexer.specs.Clear.{IsClear};
ghost use Rattle.ksh_lexer.specs.Place.{longest_text};
ghost use Rattle.ksh_lexer.specs.Reach.{next, reach};
ghost use Rattle.ksh_lexer.specs.Escapes.{ansi_end, at_ansi_end};
ghost use Rattle.ksh_lexer.specs.Tok.{Comes, PastBlanks, Skips, Stands, WordAt, bare, begins_line, is_named, fault, name, quoted, redirect, token, with_descriptor, word_ends};
ghost use Rattle.ksh_lexer.specs.Width.{width};
ghost use Rattle.ksh_lexer.specs.declared.outer.Begins.TheVariants as Begins;
ghost use Rattle.ksh_lexer.specs.declared.mode.LexMode.TheVariants as LexMode;

use crate::bracket::{is_at, is_element, is_key};
use crate::fault::SyntaxKind;
use crate::kind::{Descriptor, Token, TokenKind};
use crate::mode::LexMode;
use crate::names::is_name;
use crate::outer::{Begins, greater, less};
use crate::piece::{ends_word, starts_name};
use crate::scan::{Class, class_end, find_set, look, next, past_blanks, reach};
use crate::table::{begins_at, run_end};

/// A fault, and the byte at which it stands.
#[derive(Clone, Copy, Debug, PartialEq, Eq)]
pub(crate) struct LexFault {
    pub kind: SyntaxKind,
    pub byte: u32,
}

/// A part of the text in which neither a `)` nor a newline stands. It spares looks for a group's end
/// that would go over the same bytes again.
#[derive(Clone, Copy, Debug, PartialEq, Eq)]
pub(crate) struct Clear {
    pub from: usize,
    pub to: usize,
}

fn token(kind: TokenKind, from: usize, to: usize) -> Result<Token, LexFault>
    ensures { result ≡ token kind from to }
{
    Ok(Token { kind, from, to })
}

fn fault(kind: SyntaxKind, byte: usize) -> Result<Token, LexFault>
    requires { byte ≤ longest_text }
    ensures { result ≡ fault kind byte }
{
    Err(LexFault {
        kind,
        byte: byte as u32,
    })
}

/// The place behind what is skipped before a token.
pub(crate) fn skip(mode: LexMode, text: &[u8], at: usize) -> usize
    requires { at ≤ length text.now }
    ensures skips { Skips mode text.now at result }
    ensures later { at ≤ result }
    ensures within { result ≤ length text.now }
{
    match mode {
        LexMode::Command
        | LexMode::Argument
        | LexMode::Pattern
        | LexMode::Condition
        | LexMode::Value => skip_blanks(text, at),
        LexMode::HereBody { tabs: true, .. } if begins_line(text, at) => {
            class_end(Class::Tab, text, at)
        }
        _ => at,
    }
}

fn begins_line(text: &[u8], at: usize) -> bool
    requires { at ≤ length text.now }
    ensures { result ≡ begins_line text.now at }
{
    at == 0 || text[at - 1] == b'\n'
}

/// The place behind blanks, joined lines and a comment.
fn skip_blanks(text: &[u8], at: usize) -> usize
    requires { at ≤ length text.now }
    ensures skips { PastBlanks text.now at result }
    ensures later { at ≤ result }
    ensures within { result ≤ length text.now }
{
    let from = past_blanks(text, at);
    if from < text.len() && text[from] == b'#' {
        return find_set(text, from, b"\n\0");
    }
    from
}

/// A quoting from its first byte to the place at which its `'` was looked for.
fn quoted(kind: TokenKind, text: &[u8], from: usize, end: usize) -> Result<Token, LexFault>
    requires size { length text.now ≤ longest_text }
    requires place { (from ≤ end) × (end ≤ length text.now) }
    ensures quoted { result ≡ quoted kind text.now from end }
    ensures within { IfOk result (λ t. (from ≤ t.from) × (t.from ≤ t.to) × (t.to ≤ length text.now)) }
{
    match text.get(end) {
        None => fault(SyntaxKind::UnclosedQuote, from),
        Some(b'\'') => token(kind, from, end + 1),
        Some(_) => fault(SyntaxKind::NotInProfile, end),
    }
}

/// What is left at the end of a `$'` quoting, whose bytes these are and others behind them.
fn at_ansi_end(inside: &[u8]) -> &[u8]
    ensures ends { result.now ≡ at_ansi_end inside.now }
    ensures shorter { length result.now ≤ length inside.now }
{
    let mut rest = inside;
    while let Some((byte, behind)) = rest.split_first() {
        rest = match (*byte, behind.split_first()) {
            (b'\'' | 0, _) => return rest,
            (b'\\', Some((quoted, after))) if *quoted != 0 => after,
            _ => behind,
        };
    }
    rest
}

/// A redirection, whose operator stands at a place.
fn redirect(descriptor: Descriptor, text: &[u8], from: usize, at: usize) -> Result<Token, LexFault>
    requires size { length text.now ≤ longest_text }
    requires order { (from ≤ at) × (at < length text.now) }
    requires there { (slice_get text.now at ≡ Some 60) ⊎ (slice_get text.now at ≡ Some 62) }
    ensures redirect { result ≡ redirect descriptor text.now from at }
    ensures within { IfOk result (λ t. (from ≤ t.from) × (t.from ≤ t.to) × (t.to ≤ length text.now)) }
{
    let ahead = look(text, at);
    let begins = match ahead.first {
        Some(b'<') => less(ahead.second, ahead.third),
        _ => greater(ahead.second),
    };
    match begins {
        Begins::Take(kind, width) => token(
            with_descriptor(descriptor, kind),
            from,
            reach(text, at, width),
        ),
        Begins::Refuse(kind) => fault(kind, at),
        _ => fault(SyntaxKind::NotInProfile, at),
    }
}

fn with_descriptor(descriptor: Descriptor, kind: TokenKind) -> TokenKind
    ensures { result ≡ with_descriptor descriptor kind }
{
    match kind {
        TokenKind::Redirect(redirection, _) => TokenKind::Redirect(redirection, descriptor),
        _ => kind,
    }
}

/// The word at a place.
fn word(mode: LexMode, text: &[u8], from: usize) -> Result<Token, LexFault>
    requires { from < length text.now }
    ensures word { WordAt mode text.now from result }
    ensures within { IfOk result (λ t. (from ≤ t.from) × (t.from ≤ t.to) × (t.to ≤ length text.now)) }
{
    let path = class_end(Class::Path, text, from);
    if is_element(mode, text, from, path) {
        return token(TokenKind::Element, from, path);
    }
    if is_key(mode, text, from) {
        return token(TokenKind::Key, from, from + 1);
    }
    let end = run_end(LexMode::Word, text, from);
    bare(text, from, end)
}

fn bare(text: &[u8], from: usize, end: usize) -> Result<Token, LexFault>
    requires { (from ≤ end) × (end ≤ length text.now) }
    ensures bare { result ≡ bare text.now from end }
    ensures within { IfOk result (λ t. (from ≤ t.from) × (t.from ≤ t.to) × (t.to ≤ length text.now)) }
{
    if from < end && word_ends(text.get(end).copied()) {
        token(TokenKind::Bare, from, end)
    } else {
        token(TokenKind::Start, from, from)
    }
}

fn word_ends(byte: Option<u8>) -> bool
    ensures { result ≡ word_ends byte }
{
    match byte {
        Some(byte) => ends_word(byte) || byte == b'`',
        None => true,
    }
}

/// A word, or a redirection behind `{name}`.
fn brace(mode: LexMode, text: &[u8], from: usize) -> Result<Token, LexFault>
    requires size { length text.now ≤ longest_text }
    requires place { from < length text.now }
    ensures brace { Stands mode text.now from Begins.Brace result }
    ensures within { IfOk result (λ t. (from ≤ t.from) × (t.from ≤ t.to) × (t.to ≤ length text.now)) }
{
    let end = class_end(Class::Name, text, from + 1);
    if is_named(text, from, end) {
        return redirect(Descriptor::Named(end), text, from, next(text, end));
    }
    word(mode, text, from)
}

/// Whether a name between two places belongs to a redirection.
fn is_named(text: &[u8], from: usize, end: usize) -> bool
    requires { (from < length text.now) × (end ≤ length text.now) }
    ensures { result ≡ is_named text.now from end }
{
    if from + 1 >= end || !starts_name(text[from + 1]) || !is_at(text, end, b'}') {
        return false;
    }
    let operator = next(text, end);
    is_at(text, operator, b'<') || is_at(text, operator, b'>')
}

/// A group, or a byte that stands for itself where its `(` isn't closed on the line.
fn group(text: &[u8], from: usize, clear: &mut Clear) -> Result<Token, LexFault>
    requires from { from < length text.now }
    requires open { next text.now from < length text.now }
    requires clear { IsClear text.now clear.old }
    ensures group { Stands LexMode.Word text.now from Begins.Group result }
    ensures within { IfOk result (λ t. (from ≤ t.from) × (t.from ≤ t.to) × (t.to ≤ length text.now)) }
    ensures clear { IsClear text.now clear.new }
{
    let inside = next(text, from) + 1;
    let known = clear.from <= inside && inside <= clear.to;
    let start = if known { clear.to } else { inside };
    let stop = find_set(text, start, b")\n");
    *clear = Clear {
        from: inside,
        to: stop,
    };
    if is_at(text, stop, b')') {
        token(TokenKind::Open, from, inside)
    } else {
        token(TokenKind::Plain, from, from + 1)
    }
}

/// What stands at a place, where the table says what begins there.
fn stands(
    mode: LexMode,
    text: &[u8],
    from: usize,
    begins: Begins,
    clear: &mut Clear,
) -> Result<Token, LexFault>
    requires size { length text.now ≤ longest_text }
    requires from { from ≤ length text.now }
    requires begins { begins ≡ begins_at mode text.now from }
    requires fits { width begins ≤ present (slice_get text.now from) (slice_get text.now (next text.now from)) (slice_get text.now (next text.now (next text.now from))) }
    requires clear { IsClear text.now clear.old }
    ensures stands { Stands mode text.now from begins result }
    ensures within { IfOk result (λ t. (from ≤ t.from) × (t.from ≤ t.to) × (t.to ≤ length text.now)) }
    ensures clear { IsClear text.now clear.new }
{
    match begins {
        Begins::Take(kind, width) => token(kind, from, reach(text, from, width)),
        Begins::Refuse(kind) => fault(kind, from),
        Begins::Unclosed(opening) => Err(LexFault {
            kind: SyntaxKind::UnclosedQuote,
            byte: opening,
        }),
        Begins::Digit => digit(mode, text, from),
        Begins::Brace => brace(mode, text, from),
        Begins::Start => word(mode, text, from),
        Begins::Single => single(mode, text, from),
        Begins::Ansi => ansi(mode, text, from),
        Begins::Expand => expand(mode, text, from),
        Begins::Special => special(mode, text, from),
        Begins::Group => group(text, from, clear),
        Begins::Run => token(TokenKind::Plain, from, run_end(mode, text, from)),
        Begins::Name => parameter_name(mode, text, from),
        Begins::Digits => token(TokenKind::Digits, from, class_end(Class::Digit, text, from)),
        Begins::Member => member(mode, text, from),
    }
}

/// The name of a parameter in braces. What begins with a dot is `.sh`.
fn parameter_name(mode: LexMode, text: &[u8], from: usize) -> Result<Token, LexFault>
    requires size { length text.now ≤ longest_text }
    requires place { from < length text.now }
    ensures name { Stands mode text.now from Begins.Name result }
    ensures within { IfOk result (λ t. (from ≤ t.from) × (t.from ≤ t.to) × (t.to ≤ length text.now)) }
{
    let end = class_end(Class::Name, text, from + 1);
    name(text, from, end)
}

fn name(text: &[u8], from: usize, end: usize) -> Result<Token, LexFault>
    requires size { length text.now ≤ longest_text }
    requires place { (from ≤ end) × (end ≤ length text.now) }
    ensures name { result ≡ name text.now from end }
    ensures within { IfOk result (λ t. (from ≤ t.from) × (t.from ≤ t.to) × (t.to ≤ length text.now)) }
{
    if is_name(&text[from..end]) {
        token(TokenKind::Name, from, end)
    } else {
        fault(SyntaxKind::BadName, from)
    }
}

/// A redirection behind its digit.
fn digit(mode: LexMode, text: &[u8], from: usize) -> Result<Token, LexFault>
    requires size { length text.now ≤ longest_text }
    requires from { from < length text.now }
    requires digit { is_digit (slice_index text.now from) ≡ true }
    requires order { next text.now from < length text.now }
    requires there { (slice_get text.now (next text.now from) ≡ Some 60) ⊎ (slice_get text.now (next text.now from) ≡ Some 62) }
    ensures digit { Stands mode text.now from Begins.Digit result }
    ensures within { IfOk result (λ t. (from ≤ t.from) × (t.from ≤ t.to) × (t.to ≤ length text.now)) }
{
    let descriptor = Descriptor::Digit(text[from] - b'0');
    redirect(descriptor, text, from, next(text, from))
}

/// A quoting by `'`.
fn single(mode: LexMode, text: &[u8], from: usize) -> Result<Token, LexFault>
    requires size { length text.now ≤ longest_text }
    requires place { from < length text.now }
    ensures single { Stands mode text.now from Begins.Single result }
    ensures within { IfOk result (λ t. (from ≤ t.from) × (t.from ≤ t.to) × (t.to ≤ length text.now)) }
{
    let end = find_set(text, from + 1, b"'\0");
    quoted(TokenKind::Single, text, from, end)
}

/// A quoting by `$'`.
fn ansi(mode: LexMode, text: &[u8], from: usize) -> Result<Token, LexFault>
    requires size { length text.now ≤ longest_text }
    requires place { next text.now from < length text.now }
    ensures ansi { Stands mode text.now from Begins.Ansi result }
    ensures within { IfOk result (λ t. (from ≤ t.from) × (t.from ≤ t.to) × (t.to ≤ length text.now)) }
{
    let inside = next(text, from) + 1;
    let end = text.len() - at_ansi_end(&text[inside..]).len();
    quoted(TokenKind::Ansi(inside), text, from, end)
}

/// An expansion of a name.
fn expand(mode: LexMode, text: &[u8], from: usize) -> Result<Token, LexFault>
    requires { next text.now from < length text.now }
    ensures expand { Stands mode text.now from Begins.Expand result }
    ensures within { IfOk result (λ t. (from ≤ t.from) × (t.from ≤ t.to) × (t.to ≤ length text.now)) }
{
    let name = next(text, from);
    let end = class_end(Class::Name, text, name);
    token(TokenKind::Expand(name), from, end)
}

/// An expansion of a digit or a special parameter.
fn special(mode: LexMode, text: &[u8], from: usize) -> Result<Token, LexFault>
    requires { next text.now from < length text.now }
    ensures special { Stands mode text.now from Begins.Special result }
    ensures within { IfOk result (λ t. (from ≤ t.from) × (t.from ≤ t.to) × (t.to ≤ length text.now)) }
{
    let parameter = next(text, from);
    token(TokenKind::Expand(parameter), from, parameter + 1)
}

/// A member's name behind a `.`.
fn member(mode: LexMode, text: &[u8], from: usize) -> Result<Token, LexFault>
    requires { next text.now from < length text.now }
    ensures member { Stands mode text.now from Begins.Member result }
    ensures within { IfOk result (λ t. (from ≤ t.from) × (t.from ≤ t.to) × (t.to ≤ length text.now)) }
{
    let name = next(text, from);
    let end = class_end(Class::Name, text, name);
    token(TokenKind::Member(name), from, end)
}

/// The token or the fault that comes at a place.
pub(crate) fn lex(
    mode: LexMode,
    text: &[u8],
    at: usize,
    clear: &mut Clear,
) -> Result<Token, LexFault>
    requires size { length text.now ≤ longest_text }
    requires at { at ≤ length text.now }
    requires clear { IsClear text.now clear.old }
    ensures comes { Comes mode text.now at result }
    ensures within { IfOk result (λ t. (at ≤ t.from) × (t.from ≤ t.to) × (t.to ≤ length text.now)) }
    ensures clear { IsClear text.now clear.new }
{
    let from = skip(mode, text, at);
    let begins = begins_at(mode, text, from);
    stands(mode, text, from, begins, clear)
}
