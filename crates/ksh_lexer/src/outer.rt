ghost use Rattle.std.specs.Prelude.{◌≡◌, ◌≤◌, IfSome, Some, None};
ghost use Rattle.ksh_lexer.specs.Bytes.{present};
ghost use Rattle.ksh_lexer.specs.Width.{width};
ghost use Rattle.ksh_lexer.specs.Between.{between, greater, less, operator, parenthesis, word};
ghost use Rattle.ksh_lexer.specs.declared.outer.Begins.TheVariants as Begins;
ghost use Rattle.ksh_lexer.specs.declared.kind.TokenKind.TheVariants as TokenKind;
ghost use Rattle.ksh_lexer.specs.declared.kind.Descriptor.TheVariants as Descriptor;

use crate::fault::SyntaxKind;
use crate::kind::{Descriptor, Operator, Redirection, TokenKind};
use crate::mode::{Ahead, LexMode};

/// What the bytes at a place begin.
#[derive(Clone, Copy, Debug, PartialEq, Eq)]
pub(crate) enum Begins {
    /// A token of that many bytes, joined lines not counted.
    Take(TokenKind, usize),
    /// A fault at the place.
    Refuse(SyntaxKind),
    /// The end of the text in double quotes that were opened at that byte.
    Unclosed(u32),
    /// A digit before a redirection's operator.
    Digit,
    /// A brace that may begin the name before a redirection's operator.
    Brace,
    /// A word.
    Start,
    Single,
    Ansi,
    /// The `$` before a name.
    Expand,
    /// The `$` before a digit or a special parameter.
    Special,
    /// A byte and a `(` that may open a group.
    Group,
    /// Bytes that stand for themselves.
    Run,
    Name,
    Digits,
    Member,
}

/// What begins at a place between words.
pub(crate) fn between(mode: LexMode, ahead: Ahead) -> Begins
    ensures begins { result ≡ between mode ahead.first ahead.second ahead.third }
    ensures fits { width result ≤ present ahead.first ahead.second ahead.third }
{
    match ahead.first {
        None => Begins::Take(TokenKind::End, 0),
        Some(0) => Begins::Refuse(SyntaxKind::NotInProfile),
        Some(b'\n') => Begins::Take(TokenKind::Newline, 1),
        Some(b'`') => Begins::Take(TokenKind::Backquote, 1),
        Some(b'<') => less(ahead.second, ahead.third),
        Some(b'>') => greater(ahead.second),
        Some(byte) => match operator(mode, byte, ahead.second) {
            Some((operator, width)) => Begins::Take(TokenKind::Operator(operator), width),
            None => word(mode, byte, ahead.second),
        },
    }
}

/// What a `<` begins. These bytes come after it.
pub(crate) fn less(second: Option<u8>, third: Option<u8>) -> Begins
    ensures begins { result ≡ less second third }
    ensures fits { width result ≤ present (Some 60) second third }
{
    match (second, third) {
        (Some(b'('), _) | (Some(b'#'), _) => Begins::Refuse(SyntaxKind::NotInProfile),
        (Some(b'<'), Some(b'-')) => redirect(Redirection::HereTabs, 3),
        (Some(b'<'), Some(b'<')) => redirect(Redirection::HereString, 3),
        (Some(b'<'), _) => redirect(Redirection::HereDocument, 2),
        (Some(b'>'), _) => redirect(Redirection::ReadWrite, 2),
        (Some(b'&'), _) => redirect(Redirection::CopyInput, 2),
        _ => redirect(Redirection::Input, 1),
    }
}

/// What a `>` begins. This byte comes after it.
pub(crate) fn greater(second: Option<u8>) -> Begins
    ensures begins { result ≡ greater second }
    ensures fits { width result ≤ present (Some 62) second None }
{
    match second {
        Some(b'(') | Some(b'#') | Some(b';') => Begins::Refuse(SyntaxKind::NotInProfile),
        Some(b'|') => redirect(Redirection::Clobber, 2),
        Some(b'>') => redirect(Redirection::Append, 2),
        Some(b'&') => redirect(Redirection::CopyOutput, 2),
        _ => redirect(Redirection::Output, 1),
    }
}

fn redirect(redirection: Redirection, width: usize) -> Begins
    ensures { result ≡ Begins.Take (TokenKind.Redirect redirection Descriptor.Default) width }
{
    Begins::Take(TokenKind::Redirect(redirection, Descriptor::Default), width)
}

/// The operator that the byte begins where the second comes after it, and how many bytes it has.
fn operator(mode: LexMode, byte: u8, second: Option<u8>) -> Option<(Operator, usize)>
    ensures operator { result ≡ operator mode byte second }
    ensures fits { IfSome result (λ o. o.1 ≤ present (Some byte) second None) }
{
    match (byte, second) {
        (b';', Some(b';')) => Some((Operator::DoubleSemicolon, 2)),
        (b';', Some(b'&')) => Some((Operator::SemicolonAmpersand, 2)),
        (b'&', Some(b'&')) => Some((Operator::AndIf, 2)),
        (b'|', Some(b'|')) => Some((Operator::OrIf, 2)),
        (b'|', Some(b'&')) => Some((Operator::BarAmpersand, 2)),
        (b';', _) => Some((Operator::Semicolon, 1)),
        (b'&', _) => Some((Operator::Ampersand, 1)),
        (b'|', _) => Some((Operator::Bar, 1)),
        (b')', _) => Some((Operator::CloseParenthesis, 1)),
        (b'(', _) => Some(parenthesis(mode, second)),
        _ => None,
    }
}

/// The operator that a `(` begins.
fn parenthesis(mode: LexMode, second: Option<u8>) -> (Operator, usize)
    ensures operator { result ≡ parenthesis mode second }
    ensures fits { result.1 ≤ present (Some 40) second None }
{
    match (mode, second) {
        (LexMode::Pattern, _) => (Operator::OpenParenthesis, 1),
        (_, Some(b'(')) => (Operator::DoubleParenthesis, 2),
        _ => (Operator::OpenParenthesis, 1),
    }
}

/// What a byte begins that begins no operator.
fn word(mode: LexMode, byte: u8, second: Option<u8>) -> Begins
    ensures begins { result ≡ word mode byte second }
    ensures fits { width result ≤ present (Some byte) second None }
{
    if matches!(mode, LexMode::Condition) {
        return Begins::Start;
    }
    match (byte, second) {
        (b'0'..=b'9', Some(b'<') | Some(b'>')) => Begins::Digit,
        (b'{', _) => Begins::Brace,
        _ => Begins::Start,
    }
}
