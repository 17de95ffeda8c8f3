//! The literals of a word.
ghost use Rattle.std.specs.Prelude.{◌≡◌, ℕ, ◌-◌, ◌++◌, ◌∷◌, [], List, Some, true, false, drop, take, length, IfOk, OnOk};
ghost use Rattle.ksh_ast.specs.declared.tree.Piece.TheVariants.{Literal};
ghost use Rattle.tree_parts.specs.declared.sign.Sign.{Sign as SignOf};
ghost use Rattle.tree_parts.specs.Literals.{Adds, behind, is_nested, is_nothing, joined, literal, literal_of, quotes, same, with_literal, with_piece};

use crate::names::from_place;
use crate::queue::Queue;
use crate::sign::Sign;
use ksh_ast::{Piece, Word};
use ksh_base::{Items, Memory, Text};
use ksh_lexer::{TokenKind, ansi_text};
use ksh_syntax::Mode;
use std::alloc::Global;

/// Whether what stands in a text of that mode is quoted.
pub fn quotes(mode: Mode) -> bool
    ensures { result ≡ quotes mode }
{
    matches!(mode, Mode::Quoted | Mode::Body)
}

/// The word that is these bytes: no pieces where there are none and they aren't quoted.
pub fn literal_word(alloc: Global, bytes: &[u8], quoted: bool) -> Result<Word, Memory>
    ensures { IfOk result (λ w. w ≡ literal bytes.now quoted) }
{
    let mut pieces = Items::new(alloc);
    add_literal(alloc, &mut pieces, bytes, quoted)?;
    Ok(pieces)
}

/// Whether these bytes give no literal.
fn is_nothing(bytes: &[u8], quoted: bool) -> bool
    ensures { result ≡ is_nothing bytes.now quoted }
{
    match bytes {
        [] => !quoted,
        _ => false,
    }
}

/// Puts a literal behind pieces. It is joined to one of the same quoting.
pub fn add_literal(
    alloc: Global,
    pieces: &mut Word,
    bytes: &[u8],
    quoted: bool,
) -> Result<(), Memory>
    ensures { OnOk result (pieces.new ≡ with_literal pieces.old bytes.now quoted) }
{
    if is_nothing(bytes, quoted) {
        return Ok(());
    }
    match pieces.pop() {
        Some(last) => {
            add_behind(alloc, pieces, last, bytes, quoted)?;
            Ok(())
        }
        None => {
            push_literal(alloc, pieces, bytes, quoted)?;
            Ok(())
        }
    }
}

/// Puts a piece back, and a literal behind it.
#[tactic(auto, using(crate::proofs::Pieces::two_pushed))]
fn add_behind(
    alloc: Global,
    pieces: &mut Word,
    last: Piece,
    bytes: &[u8],
    quoted: bool,
) -> Result<(), Memory>
    ensures { OnOk result (pieces.new ≡ pieces.old ++ behind last bytes.now quoted) }
{
    match last {
        Piece::Literal {
            text,
            quoted: before,
        } => {
            add_behind_literal(alloc, pieces, text, before, bytes, quoted)?;
            Ok(())
        }
        other => {
            pieces.push(other)?;
            push_literal(alloc, pieces, bytes, quoted)?;
            Ok(())
        }
    }
}

/// Puts a literal back, and another behind it.
#[tactic(auto, using(crate::proofs::Pieces::literal_joined, crate::proofs::Pieces::literal_behind))]
fn add_behind_literal(
    alloc: Global,
    pieces: &mut Word,
    text: Text,
    before: bool,
    bytes: &[u8],
    quoted: bool,
) -> Result<(), Memory>
    ensures { OnOk result (pieces.new ≡ pieces.old ++ behind (Literal text before) bytes.now quoted) }
{
    let mut whole = text;
    if same(before, quoted) {
        whole.append(bytes)?;
        push_piece(pieces, whole, before)?;
    } else {
        push_piece(pieces, whole, before)?;
        push_literal(alloc, pieces, bytes, quoted)?;
    }
    Ok(())
}

fn same(before: bool, quoted: bool) -> bool
    ensures { result ≡ same before quoted }
{
    before == quoted
}

/// Puts a literal behind other pieces, as a piece of its own.
fn push_piece(pieces: &mut Word, text: Text, quoted: bool) -> Result<(), Memory>
    ensures { OnOk result (pieces.new ≡ pieces.old ++ Literal text quoted ∷ []) }
{
    pieces.push(Piece::Literal { text, quoted })?;
    Ok(())
}

/// The same of bytes.
fn push_literal(alloc: Global, pieces: &mut Word, bytes: &[u8], quoted: bool) -> Result<(), Memory>
    ensures { OnOk result (pieces.new ≡ pieces.old ++ Literal bytes.now quoted ∷ []) }
{
    push_piece(pieces, Text::of(alloc, bytes)?, quoted)
}

/// Parentheses and brackets that belong to a text close within it.
fn is_nested(mode: Mode) -> bool
    ensures { result ≡ is_nested mode }
{
    matches!(mode, Mode::Group | Mode::Subscript | Mode::Parentheses)
}

/// The bytes between the first and the last.
fn inside(bytes: &[u8]) -> &[u8]
    ensures { result.now ≡ take (length bytes.now - 2) (drop 1 bytes.now) }
{
    match bytes {
        [] => bytes,
        [_, rest @ ..] => without_last(rest),
    }
}

/// The bytes before the last.
fn without_last(bytes: &[u8]) -> &[u8]
    ensures { result.now ≡ take (length bytes.now - 1) bytes.now }
{
    let count = bytes.len().saturating_sub(1);
    &bytes[..count]
}

/// The bytes behind the first.
fn without_first(bytes: &[u8]) -> &[u8]
    ensures { result.now ≡ drop 1 bytes.now }
{
    match bytes {
        [] => bytes,
        [_, rest @ ..] => rest,
    }
}

/// Puts a token's literal behind pieces, and answers that there was one.
#[tactic(auto, using(crate::proofs::Pieces::adds))]
fn added(alloc: Global, pieces: &mut Word, bytes: &[u8], quoted: bool) -> Result<bool, Memory>
    ensures { (s : SignOf) (whole : List ℕ) → literal_of s whole ≡ Some (bytes.now, quoted) → IfOk result (λ b. Adds b s whole pieces.old pieces.new) }
{
    add_literal(alloc, pieces, bytes, quoted)?;
    Ok(true)
}

/// Puts the literal of a token behind pieces; false exactly where the token is none.
pub fn add_token(alloc: Global, pieces: &mut Word, sign: Sign, bytes: &[u8]) -> Result<bool, Memory>
    ensures { IfOk result (λ b. Adds b sign bytes.now pieces.old pieces.new) }
{
    match sign.token {
        TokenKind::Plain => added(alloc, pieces, bytes, quotes(sign.mode)),
        TokenKind::Joined => added(alloc, pieces, b"", false),
        TokenKind::Escaped => added(alloc, pieces, without_first(bytes), true),
        TokenKind::Single => added(alloc, pieces, inside(bytes), true),
        TokenKind::Ansi(at) => {
            let text = ansi_text(alloc, without_last(from_place(sign, at, bytes)))?;
            added(alloc, pieces, text.bytes(), true)
        }
        TokenKind::OpenQuote => added(alloc, pieces, b"", true),
        TokenKind::CloseQuote => added(alloc, pieces, b"", false),
        TokenKind::Dollar => added(alloc, pieces, bytes, true),
        TokenKind::Open => added(alloc, pieces, bytes, false),
        TokenKind::Close => {
            if is_nested(sign.mode) {
                added(alloc, pieces, bytes, false)
            } else {
                Ok(false)
            }
        }
        _ => Ok(false),
    }
}

/// Puts a piece behind others. A literal is joined to one of the same quoting.
fn add_piece(alloc: Global, pieces: &mut Word, piece: Piece) -> Result<(), Memory>
    ensures { OnOk result (pieces.new ≡ with_piece pieces.old piece) }
{
    match piece {
        Piece::Literal { text, quoted } => add_literal(alloc, pieces, text.bytes(), quoted),
        other => {
            pieces.push(other)?;
            Ok(())
        }
    }
}

/// Puts the pieces of a word behind others.
pub fn add_pieces(alloc: Global, pieces: &mut Word, more: Word) -> Result<(), Memory>
    ensures { OnOk result (pieces.new ≡ joined pieces.old more) }
{
    let mut left = Queue::of(alloc, more)?;
    while let Some(piece) = left.next() {
        add_piece(alloc, pieces, piece)?;
    }
    Ok(())
}
