//! What is open in a text.
ghost use Rattle.std.specs.Prelude.{◌≡◌, OnOk};
ghost use Rattle.ksh_scan.specs.Openings.{in_backquotes, innermost, is_separator, later_part, opened_by, parted_by, told_all, without_last};

use ksh_base::{Items, Memory};
use ksh_lexer::TokenKind;
use ksh_syntax::{Kind, Mark};

/// The operator of a here-document: the place of its `<<`, and whether tabs are removed.
#[derive(Clone, Copy, Debug, PartialEq, Eq)]
pub struct HereOperator {
    pub byte: u32,
    pub tabs: bool,
}

/// What a token opened.
#[derive(Clone, Copy, Debug, PartialEq, Eq)]
pub enum Opened {
    /// `"`
    Quote,
    /// `$(`, `${` or `$((`
    Substitution,
    Backquote,
    /// The word of a redirection.
    Word,
    /// The word of a here-document.
    HereWord(HereOperator),
    /// A compound command, the body of a function, or a value.
    Compound,
}

/// Something that is open, and the byte at which it was opened.
#[derive(Clone, Copy, Debug, PartialEq, Eq)]
pub struct Opening {
    pub opened: Opened,
    pub byte: u32,
    /// The byte at which its part begins that is being read.
    pub part: u32,
    /// Whether that is behind a separator.
    pub is_later: bool,
}

/// What a token opens. A word that begins behind the operator of a here-document is its word.
pub(crate) fn opened_by(token: TokenKind, here: Option<HereOperator>) -> Opened
    ensures { result ≡ opened_by token here }
{
    match (token, here) {
        (TokenKind::OpenQuote, _) => Opened::Quote,
        (TokenKind::Backquote, _) => Opened::Backquote,
        (TokenKind::OpenSubstitution, _) => Opened::Substitution,
        (TokenKind::OpenParameter, _) => Opened::Substitution,
        (TokenKind::OpenArithmetic, _) => Opened::Substitution,
        (TokenKind::Start, Some(operator)) => Opened::HereWord(operator),
        (TokenKind::Start, None) => Opened::Word,
        _ => Opened::Compound,
    }
}

/// What was opened last.
pub(crate) fn innermost(openings: &[Opening]) -> Option<Opening>
    ensures { result ≡ innermost openings.now }
{
    openings.last().copied()
}

/// Whether a backquote is open.
pub(crate) fn in_backquotes(openings: &[Opening]) -> bool
    ensures { result ≡ in_backquotes openings.now }
{
    for opening in openings {
        if opening.opened == Opened::Backquote {
            return true;
        }
    }
    false
}

/// Opens and closes what a token's marks tell.
pub(crate) fn tell(
    openings: &mut Items<Opening>,
    marks: &[Mark],
    opening: Opening,
) -> Result<(), Memory>
    ensures { OnOk result (openings.new ≡ told_all marks.now opening openings.old) }
{
    for mark in marks {
        match mark {
            Mark::Opens => openings.push(opening)?,
            Mark::Closes => close(openings),
            _ => {}
        }
    }
    Ok(())
}

/// Closes what was opened last.
fn close(openings: &mut Items<Opening>)
    ensures { openings.new ≡ without_last openings.old }
{
    let _ = openings.pop();
}

pub(crate) fn is_separator(kind: Kind) -> bool
    ensures { result ≡ is_separator kind }
{
    matches!(kind, Kind::Separator)
}

/// Begins another part of what was opened last, where a separator ends one.
pub(crate) fn part(openings: &mut Items<Opening>, kind: Kind, at: u32) -> Result<(), Memory>
    ensures { OnOk result (openings.new ≡ parted_by kind at openings.old) }
{
    if is_separator(kind) {
        begin_part(openings, at)?;
    }
    Ok(())
}

fn begin_part(openings: &mut Items<Opening>, at: u32) -> Result<(), Memory>
    ensures { OnOk result (openings.new ≡ later_part at (innermost openings.old) openings.old) }
{
    if let Some(last) = openings.pop() {
        openings.push(Opening {
            opened: last.opened,
            byte: last.byte,
            part: at,
            is_later: true,
        })?;
    }
    Ok(())
}
