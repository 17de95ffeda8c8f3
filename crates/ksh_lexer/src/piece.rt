ghost use Rattle.std.specs.Prelude.{◌≡◌, ◌≤◌, Some, None};
ghost use Rattle.ksh_lexer.specs.Width.{width};
ghost use Rattle.ksh_lexer.specs.Inside.{arithmetic, at_end, backslash, dollar, double_quote, ends_braced, escapes, in_group, in_word, is_raw, opens_group, own, parenthesis, piece, quotes_singly, raw, refuses_tilde, subscript};
ghost use Rattle.ksh_lexer.specs.Bytes.{present, ends_word, is_special, starts_name};

use crate::fault::SyntaxKind;
use crate::kind::TokenKind;
use crate::mode::{Ahead, BraceEnd, LexMode};
use crate::outer::Begins;

/// What begins at a place inside a word, a quoting, a body or an arithmetic text.
pub(crate) fn piece(mode: LexMode, ahead: Ahead) -> Begins
    ensures begins { result ≡ piece mode ahead.first ahead.second ahead.third }
    ensures fits { width result ≤ present ahead.first ahead.second ahead.third }
{
    if is_raw(mode) {
        return raw(ahead.first);
    }
    match ahead.first {
        None => at_end(mode),
        Some(0) => Begins::Refuse(SyntaxKind::NotInProfile),
        Some(b'\\') => backslash(mode, ahead.second),
        Some(b'$') => dollar(mode, ahead.second, ahead.third),
        Some(b'`') => Begins::Take(TokenKind::Backquote, 1),
        Some(b'\'') => {
            if quotes_singly(mode) {
                Begins::Single
            } else {
                Begins::Run
            }
        }
        Some(b'"') => double_quote(mode),
        Some(byte) => own(mode, byte, ahead.second),
    }
}

/// Whether nothing is quoted or expanded there.
fn is_raw(mode: LexMode) -> bool
    ensures { result ≡ is_raw mode }
{
    matches!(mode, LexMode::HereBody { expands: false, .. })
}

/// What begins in the body of a here-document whose word holds a quoting.
fn raw(first: Option<u8>) -> Begins
    ensures begins { result ≡ raw first }
    ensures fits { width result ≤ present first None None }
{
    match first {
        None => Begins::Take(TokenKind::End, 0),
        Some(0) => Begins::Refuse(SyntaxKind::NotInProfile),
        Some(b'\n') => Begins::Take(TokenKind::Plain, 1),
        _ => Begins::Run,
    }
}

/// What the end of the text is.
fn at_end(mode: LexMode) -> Begins
    ensures begins { result ≡ at_end mode }
    ensures fits { width result ≤ 0 }
{
    match mode {
        LexMode::Word => Begins::Take(TokenKind::WordEnd, 0),
        LexMode::Quoted { opening } => Begins::Unclosed(opening),
        _ => Begins::Take(TokenKind::End, 0),
    }
}

/// What a backslash begins. This byte comes directly after it.
fn backslash(mode: LexMode, second: Option<u8>) -> Begins
    ensures begins { result ≡ backslash mode second }
    ensures fits { width result ≤ present (Some 92) second None }
{
    match second {
        None | Some(0) => Begins::Take(TokenKind::Plain, 1),
        Some(b'\n') => Begins::Take(TokenKind::Joined, 2),
        Some(byte) => {
            if escapes(mode, byte) {
                Begins::Take(TokenKind::Escaped, 2)
            } else {
                Begins::Run
            }
        }
    }
}

/// Whether a backslash quotes the byte.
fn escapes(mode: LexMode, byte: u8) -> bool
    ensures { result ≡ escapes mode byte }
{
    match mode {
        LexMode::Quoted { .. }
        | LexMode::Arithmetic
        | LexMode::LoopArithmetic
        | LexMode::Parentheses => matches!(byte, b'$' | b'`' | b'"' | b'\\'),
        LexMode::HereBody { .. } => matches!(byte, b'$' | b'`' | b'\\'),
        _ => true,
    }
}

/// Whether `'` opens a quoting.
fn quotes_singly(mode: LexMode) -> bool
    ensures { result ≡ quotes_singly mode }
{
    !matches!(mode, LexMode::Quoted { .. } | LexMode::HereBody { .. })
}

/// What a `"` begins.
fn double_quote(mode: LexMode) -> Begins
    ensures begins { result ≡ double_quote mode }
    ensures fits { width result ≤ 1 }
{
    match mode {
        LexMode::Quoted { .. } => Begins::Take(TokenKind::CloseQuote, 1),
        LexMode::HereBody { .. } => Begins::Run,
        _ => Begins::Take(TokenKind::OpenQuote, 1),
    }
}

/// What a `$` begins. These bytes come after it.
fn dollar(mode: LexMode, second: Option<u8>, third: Option<u8>) -> Begins
    ensures begins { result ≡ dollar mode second third }
    ensures fits { width result ≤ present (Some 36) second third }
{
    match (second, third) {
        (Some(b'('), Some(b'(')) => Begins::Take(TokenKind::OpenArithmetic, 3),
        (Some(b'('), _) => Begins::Take(TokenKind::OpenSubstitution, 2),
        (Some(b'{'), _) => Begins::Take(TokenKind::OpenParameter, 2),
        (Some(b'\''), _) if quotes_singly(mode) => Begins::Ansi,
        (Some(b'"'), _) if quotes_singly(mode) => Begins::Take(TokenKind::OpenQuote, 2),
        (Some(byte), _) if starts_name(byte) => Begins::Expand,
        (Some(byte), _) if is_special(byte) => Begins::Special,
        _ => Begins::Take(TokenKind::Dollar, 1),
    }
}

/// Whether a name may begin with the byte.
pub(crate) fn starts_name(byte: u8) -> bool
    ensures { result ≡ starts_name byte }
{
    byte.is_ascii_alphabetic() || byte == b'_'
}

/// Whether the byte is a parameter by itself.
fn is_special(byte: u8) -> bool
    ensures { result ≡ is_special byte }
{
    matches!(
        byte,
        b'0'..=b'9' | b'#' | b'@' | b'*' | b'?' | b'$' | b'!' | b'-'
    )
}

/// What a byte begins that is no quoting and no expansion.
fn own(mode: LexMode, byte: u8, second: Option<u8>) -> Begins
    ensures begins { result ≡ own mode byte second }
    ensures fits { width result ≤ present (Some byte) second None }
{
    match mode {
        LexMode::Word => in_word(byte, second),
        LexMode::Group => in_group(byte, second),
        LexMode::Braced(end) => ends_braced(end, byte, second),
        LexMode::Subscript => subscript(byte),
        LexMode::Arithmetic => arithmetic(byte, second),
        LexMode::LoopArithmetic => {
            if byte == b';' {
                Begins::Take(TokenKind::Separator, 1)
            } else {
                arithmetic(byte, second)
            }
        }
        LexMode::Parentheses => parenthesis(byte),
        LexMode::HereBody { .. } if byte == b'\n' => Begins::Take(TokenKind::Plain, 1),
        _ => Begins::Run,
    }
}

fn in_word(byte: u8, second: Option<u8>) -> Begins
    ensures begins { result ≡ in_word byte second }
    ensures fits { width result ≤ present (Some byte) second None }
{
    if ends_word(byte) {
        return Begins::Take(TokenKind::WordEnd, 0);
    }
    match second {
        Some(b'(') if opens_group(byte) => Begins::Group,
        _ => refuses_tilde(byte, second),
    }
}

/// Whether a word ends before the byte.
pub(crate) fn ends_word(byte: u8) -> bool
    ensures { result ≡ ends_word byte }
{
    matches!(
        byte,
        b' ' | b'\t' | b'\n' | b';' | b'&' | b'|' | b'(' | b')' | b'<' | b'>'
    )
}

/// Whether a group opens with the byte and a `(`.
fn opens_group(byte: u8) -> bool
    ensures { result ≡ opens_group byte }
{
    matches!(byte, b'?' | b'*' | b'+' | b'@' | b'!')
}

/// A `~` before a `(` is refused.
fn refuses_tilde(byte: u8, second: Option<u8>) -> Begins
    ensures begins { result ≡ refuses_tilde byte second }
    ensures fits { width result ≤ 1 }
{
    match (byte, second) {
        (b'~', Some(b'(')) => Begins::Refuse(SyntaxKind::NotInProfile),
        _ => Begins::Run,
    }
}

fn in_group(byte: u8, second: Option<u8>) -> Begins
    ensures begins { result ≡ in_group byte second }
    ensures fits { width result ≤ 1 }
{
    match byte {
        b'(' => Begins::Take(TokenKind::Open, 1),
        b')' => Begins::Take(TokenKind::Close, 1),
        _ => refuses_tilde(byte, second),
    }
}

fn ends_braced(end: BraceEnd, byte: u8, second: Option<u8>) -> Begins
    ensures begins { result ≡ ends_braced end byte second }
    ensures fits { width result ≤ 1 }
{
    match (end, byte) {
        (_, b'}') => Begins::Take(TokenKind::Close, 1),
        (BraceEnd::Colon, b':') | (BraceEnd::Slash, b'/') => Begins::Take(TokenKind::Separator, 1),
        _ => refuses_tilde(byte, second),
    }
}

fn subscript(byte: u8) -> Begins
    ensures begins { result ≡ subscript byte }
    ensures fits { width result ≤ 1 }
{
    match byte {
        b'[' => Begins::Take(TokenKind::Open, 1),
        b']' => Begins::Take(TokenKind::Close, 1),
        _ => Begins::Run,
    }
}

fn arithmetic(byte: u8, second: Option<u8>) -> Begins
    ensures begins { result ≡ arithmetic byte second }
    ensures fits { width result ≤ present (Some byte) second None }
{
    match (byte, second) {
        (b'(', _) => Begins::Take(TokenKind::Open, 1),
        (b')', Some(b')')) => Begins::Take(TokenKind::Close, 2),
        _ => Begins::Run,
    }
}

fn parenthesis(byte: u8) -> Begins
    ensures begins { result ≡ parenthesis byte }
    ensures fits { width result ≤ 1 }
{
    match byte {
        b'(' => Begins::Take(TokenKind::Open, 1),
        b')' => Begins::Take(TokenKind::Close, 1),
        _ => Begins::Run,
    }
}
