ghost use Rattle.std.specs.Prelude.{◌≡◌};
ghost use Rattle.ksh_lexer.specs.Faults.{kind_name, kind_number};

use ksh_base::Place;
use thiserror::Error;

/// The kinds of a fault in a script's text.
#[derive(Clone, Copy, Debug, PartialEq, Eq)]
pub enum SyntaxKind {
    /// The token can't stand there.
    UnexpectedToken,
    /// The text ends where something is still open.
    UnexpectedEnd,
    UnclosedQuote,
    UnclosedSubstitution,
    /// The line that ends a here-document is missing.
    HereDocMissing,
    /// A name is needed there, and the word is none.
    BadName,
    BadArithmetic,
    /// More is open at one place than the limit allows.
    TooDeep,
    /// The text has more bytes than the limit allows.
    TooLong,
    /// The text is none of the form that is understood.
    NotInProfile,
}

impl SyntaxKind {
    /// The number under which the kind is told.
    pub fn number(self) -> u8
        ensures { result ≡ kind_number self }
    {
        match self {
            SyntaxKind::UnexpectedToken => 1,
            SyntaxKind::UnexpectedEnd => 2,
            SyntaxKind::UnclosedQuote => 3,
            SyntaxKind::UnclosedSubstitution => 4,
            SyntaxKind::HereDocMissing => 5,
            SyntaxKind::BadName => 6,
            SyntaxKind::BadArithmetic => 7,
            SyntaxKind::TooDeep => 8,
            SyntaxKind::TooLong => 9,
            SyntaxKind::NotInProfile => 10,
        }
    }

    /// The name under which the kind is told.
    pub fn name(self) -> &'static [u8]
        ensures { result.now ≡ kind_name self }
    {
        match self {
            SyntaxKind::UnexpectedToken => b"UnexpectedToken",
            SyntaxKind::UnexpectedEnd => b"UnexpectedEnd",
            SyntaxKind::UnclosedQuote => b"UnclosedQuote",
            SyntaxKind::UnclosedSubstitution => b"UnclosedSubstitution",
            SyntaxKind::HereDocMissing => b"HereDocMissing",
            SyntaxKind::BadName => b"BadName",
            SyntaxKind::BadArithmetic => b"BadArithmetic",
            SyntaxKind::TooDeep => b"TooDeep",
            SyntaxKind::TooLong => b"TooLong",
            SyntaxKind::NotInProfile => b"NotInProfile",
        }
    }
}

/// A fault in a script's text, and the place where it stands.
#[derive(Clone, Copy, Debug, PartialEq, Eq, Error)]
#[error("syntax fault at line {}, byte {}", .place.line, .place.byte)]
pub struct SyntaxFault {
    pub kind: SyntaxKind,
    pub place: Place,
}
