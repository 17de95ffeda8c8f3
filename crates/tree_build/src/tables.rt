//! Tables of single tokens and marks.
ghost use Rattle.std.specs.Prelude.{◌≡◌};
ghost use Rattle.tree_build.specs.Reads.{breaks};
ghost use Rattle.tree_build.specs.Tables.{assigns, closes, ends_item, ends_part, is_assignment, is_front_word, is_other_word, is_silent_mark, is_special, is_word, opens_bracket, starts_word};

use ksh_ast::SubstKind;
use ksh_lexer::TokenKind;
use ksh_syntax::{Kind, Mark};
use tree_parts::is_newline;

/// Whether a mark is told for others.
pub fn is_silent_mark(mark: Mark) -> bool
    ensures { result ≡ is_silent_mark mark }
{
    matches!(
        mark,
        Mark::Opens | Mark::Closes | Mark::CommandWord | Mark::CommandName
    )
}

/// Whether a token closes a substitution.
pub fn closes(opened: SubstKind, kind: Kind) -> bool
    ensures { result ≡ closes opened kind }
{
    matches!(
        (opened, kind),
        (SubstKind::Current, Kind::RightBrace) | (SubstKind::Fork, Kind::Close | Kind::Backquote)
    )
}

/// Whether a word with pieces begins with `path=` or `path+=`; nothing where none begins.
pub fn starts_word(kind: Kind) -> Option<bool>
    ensures { result ≡ starts_word kind }
{
    match kind {
        Kind::Start => Some(false),
        Kind::StartAssignment => Some(true),
        _ => None,
    }
}

pub fn is_assignment(kind: Kind) -> bool
    ensures { result ≡ is_assignment kind }
{
    matches!(kind, Kind::Assignment)
}

/// Whether `+=` stands behind a subscript, or `=`; nothing where neither does.
pub fn assigns(token: TokenKind) -> Option<bool>
    ensures { result ≡ assigns token }
{
    match token {
        TokenKind::Assign => Some(false),
        TokenKind::AddAssign => Some(true),
        _ => None,
    }
}

/// Whether the next item's list runs too behind an item of `case`; nothing where none ends.
pub fn ends_item(kind: Kind) -> Option<bool>
    ensures { result ≡ ends_item kind }
{
    match kind {
        Kind::DoubleSemicolon => Some(false),
        Kind::SemicolonAmpersand => Some(true),
        _ => None,
    }
}

/// Whether a token opens a subscript or a pair's key.
pub fn opens_bracket(kind: Kind) -> bool
    ensures { result ≡ opens_bracket kind }
{
    matches!(kind, Kind::Open | Kind::Key)
}

/// Whether a token is a positional or special parameter.
pub fn is_special(kind: Kind) -> bool
    ensures { result ≡ is_special kind }
{
    matches!(kind, Kind::Digits | Kind::Special)
}

/// Whether a token parts or ends the expressions of `for ((`.
pub fn ends_part(kind: Kind) -> bool
    ensures { result ≡ ends_part kind }
{
    matches!(kind, Kind::Separator | Kind::Close)
}

/// Whether a token is a whole word of plain bytes, among those of control.
fn is_front_word(kind: Kind) -> bool
    ensures { result ≡ is_front_word kind }
{
    matches!(
        kind,
        Kind::If
            | Kind::Then
            | Kind::Else
            | Kind::Elif
            | Kind::Fi
            | Kind::Case
            | Kind::Esac
            | Kind::For
            | Kind::While
            | Kind::Until
            | Kind::Do
            | Kind::Done
            | Kind::LeftBrace
            | Kind::RightBrace
            | Kind::Function
            | Kind::Select
    )
}

/// The same among the others.
fn is_other_word(kind: Kind) -> bool
    ensures { result ≡ is_other_word kind }
{
    matches!(
        kind,
        Kind::LeftBrackets
            | Kind::Bang
            | Kind::RightBrackets
            | Kind::In
            | Kind::Time
            | Kind::Namespace
            | Kind::Typeset
            | Kind::Unary
            | Kind::Binary
            | Kind::Name
            | Kind::Dotted
            | Kind::Assignment
            | Kind::Other
    )
}

/// Whether a token is a whole word of plain bytes.
pub fn is_word(kind: Kind) -> bool
    ensures { result ≡ is_word kind }
{
    is_front_word(kind) || is_other_word(kind)
}

/// A newline or `;`.
pub fn breaks(kind: Kind) -> bool
    ensures { result ≡ breaks kind }
{
    match kind {
        Kind::Semicolon => true,
        kind => is_newline(kind),
    }
}
