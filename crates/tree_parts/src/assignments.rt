//! Assignments.
ghost use Rattle.std.specs.Prelude.{◌≡◌, ◌++◌, ◌∷◌, [], IfOk, MatchOption, false};
ghost use Rattle.tree_parts.specs.Literals.{literal};
ghost use Rattle.tree_parts.specs.Parts.{adds, appended, assign_to, assigned, assignment_of, assigns, is_assigned};

use crate::literals::literal_word;
use crate::names::{are_names, behind_path, path_front, path_of};
use ksh_ast::{Assign, AssignValue, Piece, Word};
use ksh_base::Memory;
use std::alloc::Global;

/// Takes the first piece.
#[tactic(auto, using(crate::proofs::Pieces::first_taken))]
fn take_first(word: &mut Word) -> Option<Piece>
    ensures { MatchOption result ((word.old ≡ []) × (word.new ≡ [])) (λ first. word.old ≡ first ∷ word.new) }
{
    if word.is_empty() {
        return None;
    }
    Some(word.remove(0))
}

/// The bytes as a word, and the pieces behind them.
fn in_front(alloc: Global, bytes: &[u8], rest: Word) -> Result<Word, Memory>
    ensures { IfOk result (λ w. w ≡ literal bytes.now false ++ rest) }
{
    let mut word = literal_word(alloc, bytes, false)?;
    word.append(rest)?;
    Ok(word)
}

/// The assignment of a value, which begins with these bytes, to a path; nothing exactly where it is no path.
fn made(
    alloc: Global,
    path: &[u8],
    append: bool,
    bytes: &[u8],
    rest: Word,
) -> Result<Option<Assign>, Memory>
    ensures { IfOk result (λ o. o ≡ assign_to path.now append (literal bytes.now false ++ rest)) }
{
    let Some(path) = path_of(alloc, path)? else {
        return Ok(None);
    };
    let word = in_front(alloc, bytes, rest)?;
    Ok(Some(Assign {
        path,
        append,
        value: AssignValue::Word(word),
    }))
}

/// The assignment to a path, behind which a `+`, these bytes and pieces stand.
fn appended(alloc: Global, path: &[u8], behind: &[u8], rest: Word) -> Result<Option<Assign>, Memory>
    ensures { IfOk result (λ o. o ≡ appended path.now behind.now rest) }
{
    match behind.split_first() {
        Some((b'=', value)) => made(alloc, path, true, value, rest),
        _ => Ok(None),
    }
}

/// The assignment to a path, behind which these bytes and pieces stand.
fn assigned(alloc: Global, path: &[u8], behind: &[u8], rest: Word) -> Result<Option<Assign>, Memory>
    ensures { IfOk result (λ o. o ≡ assigned path.now behind.now rest) }
{
    match behind.split_first() {
        Some((b'=', value)) => made(alloc, path, false, value, rest),
        Some((b'+', more)) => appended(alloc, path, more, rest),
        _ => Ok(None),
    }
}

/// The assignment that a word is which begins with this piece.
fn assigned_by(alloc: Global, first: Piece, rest: Word) -> Result<Option<Assign>, Memory>
    ensures { IfOk result (λ o. o ≡ assignment_of (first ∷ rest)) }
{
    match first {
        Piece::Literal { text, quoted } => {
            if quoted {
                return Ok(None);
            }
            let bytes = text.bytes();
            assigned(alloc, path_front(bytes), behind_path(bytes), rest)
        }
        _ => Ok(None),
    }
}

/// The assignment that a word is; nothing exactly where it is none, or assigns to no path.
pub fn assignment_of(alloc: Global, word: Word) -> Result<Option<Assign>, Memory>
    ensures { IfOk result (λ o. o ≡ assignment_of word) }
{
    let mut rest = word;
    match take_first(&mut rest) {
        Some(first) => match assigned_by(alloc, first, rest)? {
            Some(assign) => Ok(Some(assign)),
            None => Ok(None),
        },
        None => Ok(None),
    }
}

/// Whether `=` or `+=` stands behind a path.
fn assigns(behind: &[u8]) -> bool
    ensures { result ≡ assigns behind.now }
{
    match behind.split_first() {
        Some((b'=', _)) => true,
        Some((b'+', more)) => matches!(more.first(), Some(b'=')),
        _ => false,
    }
}

/// Whether a word is an assignment.
pub fn is_assigned(word: &[Piece]) -> bool
    ensures { result ≡ is_assigned word.now }
{
    match word.first() {
        Some(
            Piece::Literal {
                text,
                quoted: false,
            },
        ) => {
            let bytes = text.bytes();
            assigns(behind_path(bytes)) && are_names(path_front(bytes))
        }
        _ => false,
    }
}

/// Whether bytes that begin with a path end with `+=` behind it.
pub fn adds(bytes: &[u8]) -> bool
    ensures { result ≡ adds bytes.now }
{
    behind_path(bytes) == b"+=".as_slice()
}
