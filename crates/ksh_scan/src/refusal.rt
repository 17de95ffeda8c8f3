//! The fault of a token with which no script goes on.
ghost use Rattle.std.specs.Prelude.{◌≡◌};
ghost use Rattle.ksh_scan.specs.Scan.{end_by, end_fault, is_timed, open_fault, unread_by, unread_kind, word_fault};

use crate::opening::{Opened, Opening};
use crate::see::Seen;
use ksh_base::Memory;
use ksh_lexer::{SyntaxFault, SyntaxKind, TokenKind};
use ksh_syntax::Kind;
use std::alloc::AllocError;
use thiserror::Error;

/// Why a text gives no script.
#[derive(Clone, Copy, Debug, PartialEq, Eq, Error)]
pub enum SyntaxRefused {
    #[error("syntax fault at line {}, byte {}", .0.place.line, .0.place.byte)]
    Fault(SyntaxFault),
    #[error("out of memory")]
    Memory,
}

impl From<Memory> for SyntaxRefused {
    ghost use Rattle.std.specs.Prelude.{◌≡◌};
    ghost use Rattle.ksh_scan.specs.declared.refusal.SyntaxRefused.TheVariants.{Memory};

    ghost from_gives = { λ _ e. e ≡ Memory };

    fn from(_refused: Memory) -> SyntaxRefused {
        SyntaxRefused::Memory
    }
}

impl From<AllocError> for SyntaxRefused {
    ghost use Rattle.std.specs.Prelude.{◌≡◌};
    ghost use Rattle.ksh_scan.specs.declared.refusal.SyntaxRefused.TheVariants.{Memory};

    ghost from_gives = { λ _ e. e ≡ Memory };

    fn from(_refused: AllocError) -> SyntaxRefused {
        SyntaxRefused::Memory
    }
}

impl From<SyntaxFault> for SyntaxRefused {
    ghost use Rattle.std.specs.Prelude.{◌≡◌};
    ghost use Rattle.ksh_scan.specs.declared.refusal.SyntaxRefused.TheVariants.{Fault};

    ghost from_gives = { λ f e. e ≡ Fault f };

    fn from(fault: SyntaxFault) -> SyntaxRefused {
        SyntaxRefused::Fault(fault)
    }
}

/// What a token is that no script goes on with.
#[derive(Clone, Copy, Debug, PartialEq, Eq)]
pub(crate) enum Unread {
    /// The end of the text.
    End,
    Word,
    /// `(`
    Open,
    Other,
}

pub(crate) fn unread_by(seen: Seen) -> Unread
    ensures { result ≡ unread_by seen }
{
    if seen.token.kind == TokenKind::End {
        Unread::End
    } else {
        unread_kind(seen.kind)
    }
}

fn unread_kind(kind: Kind) -> Unread
    ensures { result ≡ unread_kind kind }
{
    match kind {
        Kind::Open => Unread::Open,
        Kind::Start | Kind::StartAssignment | Kind::Element | Kind::ValueOpen => Unread::Word,
        Kind::If | Kind::Then | Kind::Else | Kind::Elif | Kind::Fi => Unread::Word,
        Kind::Case | Kind::Esac | Kind::In => Unread::Word,
        Kind::For | Kind::While | Kind::Until | Kind::Select | Kind::Do | Kind::Done => {
            Unread::Word
        }
        Kind::LeftBrace | Kind::RightBrace | Kind::LeftBrackets | Kind::RightBrackets => {
            Unread::Word
        }
        Kind::Function | Kind::Bang | Kind::Time | Kind::Namespace | Kind::Typeset => {
            Unread::Word
        }
        Kind::Unary | Kind::Binary | Kind::Name | Kind::Dotted => Unread::Word,
        Kind::Assignment | Kind::Other => Unread::Word,
        _ => Unread::Other,
    }
}

/// The fault of a text that ends where something is open.
pub(crate) fn end_fault(innermost: Option<Opening>, end: u32) -> (SyntaxKind, u32)
    ensures { result ≡ end_fault innermost end }
{
    match innermost {
        Some(opening) => end_by(opening.opened, opening.byte, end),
        None => (SyntaxKind::UnexpectedEnd, end),
    }
}

fn end_by(opened: Opened, byte: u32, end: u32) -> (SyntaxKind, u32)
    ensures { result ≡ end_by opened byte end }
{
    match opened {
        Opened::Substitution | Opened::Backquote => (SyntaxKind::UnclosedSubstitution, byte),
        _ => (SyntaxKind::UnexpectedEnd, end),
    }
}

fn is_timed(kind: Kind) -> bool
    ensures { result ≡ is_timed kind }
{
    matches!(kind, Kind::Time | Kind::Namespace)
}

/// The fault of a word, where names, other words and assignments may come or not.
pub(crate) fn word_fault(
    names: bool,
    others: bool,
    assignments: bool,
    kind: Kind,
    byte: u32,
) -> (SyntaxKind, u32)
    ensures { result ≡ word_fault names others assignments kind byte }
{
    if is_timed(kind) && names {
        (SyntaxKind::NotInProfile, byte)
    } else if names && !(others || assignments) {
        (SyntaxKind::BadName, byte)
    } else {
        (SyntaxKind::UnexpectedToken, byte)
    }
}

/// The fault of a `(` behind a word, perhaps one that can't name a function.
pub(crate) fn open_fault(command_word: Option<u32>, byte: u32) -> (SyntaxKind, u32)
    ensures { result ≡ open_fault command_word byte }
{
    match command_word {
        Some(word) => (SyntaxKind::BadName, word),
        None => (SyntaxKind::UnexpectedToken, byte),
    }
}
