//! Arithmetic.
ghost use Rattle.std.specs.Prelude.{◌≡◌, IfOk};
ghost use Rattle.std.specs.Option.{option_copied};
ghost use Rattle.ksh_arith.specs.Grammar.{is_blank, parsed};
ghost use Rattle.tree_parts.specs.Parts.{all_blank, arith_of, expression, left_out, part_of_for, plain_bytes, plain_expression, plain_text};

use arith_tree::ArithExpr;
use ksh_arith::{ArithRefused, parse_arith};
use ksh_ast::{Arith, Piece, Word};
use ksh_base::Memory;
use std::alloc::Global;

/// The bytes of a word without quotes and expansions.
pub(crate) fn plain_text(pieces: &[Piece]) -> Option<&[u8]>
    ensures { option_copied result ≡ plain_text pieces.now }
{
    match pieces {
        [] => Some(b""),
        [
            Piece::Literal {
                text,
                quoted: false,
            },
        ] => Some(text.bytes()),
        _ => None,
    }
}

/// The same, or no bytes.
pub(crate) fn plain_bytes(pieces: &[Piece]) -> &[u8]
    ensures { result.now ≡ plain_bytes pieces.now }
{
    match plain_text(pieces) {
        Some(bytes) => bytes,
        None => b"",
    }
}

/// The expression that a text is; nothing where it is none.
fn parsed(alloc: Global, text: &[u8]) -> Result<Option<ArithExpr>, Memory>
    ensures { IfOk result (λ o. o ≡ expression (parsed text.now)) }
{
    match parse_arith(alloc, text) {
        Ok(expr) => Ok(Some(expr)),
        Err(ArithRefused::Memory) => Err(Memory),
        Err(ArithRefused::Bad(_)) => Ok(None),
        Err(ArithRefused::TooDeep(_)) => Ok(None),
    }
}

/// The expression that a word without quotes and expansions is; nothing where it is none.
fn plain_expression(alloc: Global, pieces: &[Piece]) -> Result<Option<ArithExpr>, Memory>
    ensures { IfOk result (λ o. o ≡ plain_expression pieces.now) }
{
    match plain_text(pieces) {
        Some(text) => parsed(alloc, text),
        None => Ok(None),
    }
}

/// Arithmetic: an expression, or a word that is read when it runs.
pub fn arith_of(alloc: Global, word: Word) -> Result<Arith, Memory>
    ensures { IfOk result (λ a. a ≡ arith_of word) }
{
    match plain_expression(alloc, word.as_slice())? {
        Some(expr) => Ok(Arith::Parsed(expr)),
        None => Ok(Arith::Text(word)),
    }
}

fn is_blank(byte: u8) -> bool
    ensures { result ≡ is_blank byte }
{
    byte == b' ' || byte == b'\t' || byte == b'\n'
}

fn all_blank(text: &[u8]) -> bool
    ensures { result ≡ all_blank text.now }
{
    for byte in text {
        if !is_blank(*byte) {
            return false;
        }
    }
    true
}

/// Whether no expression stands there.
fn left_out(pieces: &[Piece]) -> bool
    ensures { result ≡ left_out pieces.now }
{
    match plain_text(pieces) {
        Some(text) => all_blank(text),
        None => false,
    }
}

/// An expression of `for ((`, which may be left out.
pub fn part_of_for(alloc: Global, word: Word) -> Result<Option<Arith>, Memory>
    ensures { IfOk result (λ o. o ≡ part_of_for word) }
{
    if left_out(word.as_slice()) {
        return Ok(None);
    }
    Ok(Some(arith_of(alloc, word)?))
}
