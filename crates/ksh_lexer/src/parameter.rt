ghost use Rattle.std.specs.Prelude.{◌≡◌, ◌≤◌, IfSome, Some, None};
ghost use Rattle.ksh_lexer.specs.Bytes.{present};
ghost use Rattle.ksh_lexer.specs.Width.{width};
ghost use Rattle.ksh_lexer.specs.Parameters.{bracket, colon, form, form_of, length_or_special, member, parameter, replacement, target, target_or_special};
ghost use Rattle.ksh_lexer.specs.declared.kind.Form.TheVariants as Form;

use crate::fault::SyntaxKind;
use crate::kind::{Form, TokenKind};
use crate::mode::Ahead;
use crate::outer::Begins;
use crate::piece::starts_name;

/// What begins behind `${`.
pub(crate) fn parameter(ahead: Ahead) -> Begins
    ensures begins { result ≡ parameter ahead.first ahead.second ahead.third }
    ensures fits { width result ≤ present ahead.first ahead.second ahead.third }
{
    match ahead.first {
        None => Begins::Take(TokenKind::End, 0),
        Some(0) => Begins::Refuse(SyntaxKind::NotInProfile),
        Some(b'!') => target_or_special(ahead.second),
        Some(b'#') => length_or_special(ahead.second, ahead.third),
        Some(b'0'..=b'9') => Begins::Digits,
        Some(b'@' | b'*' | b'?' | b'$' | b'-') => Begins::Take(TokenKind::Special, 1),
        Some(b'.') => Begins::Name,
        Some(byte) if starts_name(byte) => Begins::Name,
        Some(_) => Begins::Refuse(SyntaxKind::BadName),
    }
}

/// What a `!` is behind `${`: it asks for the target of the name that follows, if one does.
fn target_or_special(second: Option<u8>) -> Begins
    ensures begins { result ≡ target_or_special second }
    ensures fits { width result ≤ 1 }
{
    match second {
        Some(byte) if byte == b'.' || starts_name(byte) => Begins::Take(TokenKind::Target, 1),
        _ => Begins::Take(TokenKind::Special, 1),
    }
}

/// What a `#` is behind `${`: it asks for the length of the parameter that follows, if one does. A
/// special parameter follows only where the `}` comes next.
fn length_or_special(second: Option<u8>, third: Option<u8>) -> Begins
    ensures begins { result ≡ length_or_special second third }
    ensures fits { width result ≤ 1 }
{
    match (second, third) {
        (Some(b'0'..=b'9' | b'.'), _) => Begins::Take(TokenKind::Length, 1),
        (Some(b'@' | b'*'), _) => Begins::Take(TokenKind::Length, 1),
        (Some(b'?' | b'$' | b'!' | b'-' | b'#'), Some(b'}')) => Begins::Take(TokenKind::Length, 1),
        (Some(byte), _) if starts_name(byte) => Begins::Take(TokenKind::Length, 1),
        _ => Begins::Take(TokenKind::Special, 1),
    }
}

/// What begins behind a parameter's name, a member or a subscript in braces.
pub(crate) fn form(ahead: Ahead) -> Begins
    ensures begins { result ≡ form ahead.first ahead.second ahead.third }
    ensures fits { width result ≤ present ahead.first ahead.second ahead.third }
{
    match ahead.first {
        None => Begins::Take(TokenKind::End, 0),
        Some(0) => Begins::Refuse(SyntaxKind::NotInProfile),
        Some(b'}') => Begins::Take(TokenKind::Close, 1),
        Some(b'[') => bracket(ahead.second, ahead.third),
        Some(b'.') => member(ahead.second, Begins::Refuse(SyntaxKind::UnexpectedToken)),
        Some(b'@') => match ahead.second {
            Some(b'}') => Begins::Take(TokenKind::Prefix, 1),
            _ => Begins::Refuse(SyntaxKind::UnexpectedToken),
        },
        Some(byte) => match form_of(byte, ahead.second) {
            Some((form, width)) => Begins::Take(TokenKind::Form(form), width),
            None => Begins::Refuse(SyntaxKind::UnexpectedToken),
        },
    }
}

/// What a `[` begins: all items, or a subscript.
fn bracket(second: Option<u8>, third: Option<u8>) -> Begins
    ensures begins { result ≡ bracket second third }
    ensures fits { width result ≤ present (Some 91) second third }
{
    match (second, third) {
        (Some(b'@'), Some(b']')) => Begins::Take(TokenKind::Items { joined: false }, 3),
        (Some(b'*'), Some(b']')) => Begins::Take(TokenKind::Items { joined: true }, 3),
        _ => Begins::Take(TokenKind::Open, 1),
    }
}

/// What a `.` begins: a member where a name follows.
fn member(second: Option<u8>, otherwise: Begins) -> Begins
    ensures begins { result ≡ member second otherwise }
    ensures fits { width otherwise ≡ 0 → width result ≤ present (Some 46) second None }
{
    match second {
        Some(byte) if starts_name(byte) => Begins::Member,
        _ => otherwise,
    }
}

/// The form that the byte begins where the second comes after it, and how many bytes it has.
fn form_of(byte: u8, second: Option<u8>) -> Option<(Form, usize)>
    ensures form { result ≡ form_of byte second }
    ensures fits { IfSome result (λ f. f.1 ≤ present (Some byte) second None) }
{
    match (byte, second) {
        (b':', _) => Some(colon(second)),
        (b'/', _) => Some(replacement(second)),
        (b'-', _) => Some((Form::Instead { colon: false }, 1)),
        (b'=', _) => Some((Form::Assign { colon: false }, 1)),
        (b'?', _) => Some((Form::Fault { colon: false }, 1)),
        (b'+', _) => Some((Form::Other { colon: false }, 1)),
        (b'#', Some(b'#')) => Some((cut(false, true), 2)),
        (b'%', Some(b'%')) => Some((cut(true, true), 2)),
        (b'#', _) => Some((cut(false, false), 1)),
        (b'%', _) => Some((cut(true, false), 1)),
        _ => None,
    }
}

fn cut(tail: bool, longest: bool) -> Form
    ensures { result ≡ Form.Cut tail longest }
{
    Form::Cut { tail, longest }
}

/// The form that a `:` begins.
fn colon(second: Option<u8>) -> (Form, usize)
    ensures form { result ≡ colon second }
    ensures fits { result.1 ≤ present (Some 0) second None }
{
    match second {
        Some(b'-') => (Form::Instead { colon: true }, 2),
        Some(b'=') => (Form::Assign { colon: true }, 2),
        Some(b'?') => (Form::Fault { colon: true }, 2),
        Some(b'+') => (Form::Other { colon: true }, 2),
        _ => (Form::Slice, 1),
    }
}

/// The form that a `/` begins.
fn replacement(second: Option<u8>) -> (Form, usize)
    ensures form { result ≡ replacement second }
    ensures fits { result.1 ≤ present (Some 0) second None }
{
    match second {
        Some(b'/') => (Form::ReplaceAll, 2),
        Some(b'#') => (Form::ReplaceFront, 2),
        Some(b'%') => (Form::ReplaceTail, 2),
        _ => (Form::ReplaceFirst, 1),
    }
}

/// What goes on with an assignment's path.
pub(crate) fn target(ahead: Ahead) -> Begins
    ensures begins { result ≡ target ahead.first ahead.second }
    ensures fits { width result ≤ present ahead.first ahead.second None }
{
    let otherwise = Begins::Take(TokenKind::Otherwise, 0);
    match (ahead.first, ahead.second) {
        (Some(b'='), _) => Begins::Take(TokenKind::Assign, 1),
        (Some(b'+'), Some(b'=')) => Begins::Take(TokenKind::AddAssign, 2),
        (Some(b'['), _) => Begins::Take(TokenKind::Open, 1),
        (Some(b'.'), _) => member(ahead.second, otherwise),
        _ => otherwise,
    }
}
