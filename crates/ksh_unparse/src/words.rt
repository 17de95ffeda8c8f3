//! Words and their pieces.
ghost use Rattle.std.specs.Prelude.{◌≡◌, ◌-◌, OnOk, length, map, take};
ghost use Rattle.ksh_unparse.specs.Marks.{each, quote_mark, say};
ghost use Rattle.ksh_unparse.specs.Stack.{list_puts, to_write, word_spots};
ghost use Rattle.ksh_unparse.specs.Tree.{arith_put, form_of, of_put, parameter_put, part_put, path_put, piece_spot};
ghost use Rattle.ksh_unparse.specs.Words.{as_it_is, assign_bytes, bare_put, body_put, cut_bytes, ends_in_backslash, fault_bytes, instead_bytes, literal_put, number_put, other_bytes, pieces_put, replace_bytes, subst_put, turns, with_put, word_put};

use crate::left::{Left, Task};
use ksh_ast::{
    Arith, List, Param, ParamForm, ParamOf, Piece, Replaced, SubstKind, TreePart, TreePath, Word,
};
use ksh_base::{Memory, Text};

/// Pieces behind one that stands inside `"` or not: the first, and what is left of them.
pub fn put_pieces<'a>(
    word: &'a [Piece],
    arithmetic: bool,
    inside: bool,
    left: &mut Left<'a>,
) -> Result<(), Memory>
    ensures { OnOk result (to_write left.new.tasks ≡ pieces_put arithmetic inside (word_spots word.now) (to_write left.old.tasks)) }
{
    let Some((piece, rest)) = word.split_first() else {
        return put_quote_mark(inside, left);
    };
    let next = is_inside(piece);
    left.push(Task::Pieces(rest, arithmetic, next))?;
    if arithmetic {
        put_arith_piece(piece, left)?;
    } else {
        put_piece(piece, left)?;
    }
    put_quote_mark(turns(inside, next), left)
}

/// Whether the piece stands inside `"`.
#[tactic(auto, unfolding(crate::specs::Tree::piece_spot))]
fn is_inside(piece: &Piece) -> bool
    ensures { result ≡ (piece_spot piece.now).inside }
{
    match piece {
        Piece::Literal { text: _, quoted: _ } => false,
        Piece::Expand { param: _, quoted } => *quoted,
        Piece::Subst {
            body: _,
            kind: _,
            quoted,
        } => *quoted,
        Piece::Number { text: _, quoted } => *quoted,
    }
}

fn turns(inside: bool, next: bool) -> bool
    ensures { result ≡ turns inside next }
{
    if inside { !next } else { next }
}

/// The same in the body of a here-document.
pub fn put_body<'a>(word: &'a [Piece], left: &mut Left<'a>) -> Result<(), Memory>
    ensures { OnOk result (to_write left.new.tasks ≡ body_put (word_spots word.now) (to_write left.old.tasks)) }
{
    let Some((piece, rest)) = word.split_first() else {
        return Ok(());
    };
    left.push(Task::Body(rest))?;
    put_body_piece(piece, left)
}

#[tactic(auto, unfolding(crate::specs::Tree::piece_spot, crate::specs::Tree::parameter_put, crate::specs::Tree::arith_put, crate::specs::Tree::item_put))]
fn put_piece<'a>(piece: &'a Piece, left: &mut Left<'a>) -> Result<(), Memory>
    ensures { OnOk result (to_write left.new.tasks ≡ (piece_spot piece.now).plain (to_write left.old.tasks)) }
{
    match piece {
        Piece::Literal { text, quoted } => put_literal(text, *quoted, left),
        Piece::Expand { param, quoted: _ } => put_param(param, left),
        Piece::Subst {
            body,
            kind,
            quoted: _,
        } => put_subst(*kind, body, left),
        Piece::Number { text, quoted: _ } => put_number(text, left),
    }
}

#[tactic(auto, unfolding(crate::specs::Tree::piece_spot, crate::specs::Tree::parameter_put, crate::specs::Tree::arith_put, crate::specs::Tree::item_put))]
fn put_body_piece<'a>(piece: &'a Piece, left: &mut Left<'a>) -> Result<(), Memory>
    ensures { OnOk result (to_write left.new.tasks ≡ (piece_spot piece.now).body (to_write left.old.tasks)) }
{
    match piece {
        Piece::Literal { text, quoted: _ } => left.push(Task::Escaped(text.bytes())),
        Piece::Expand { param, quoted: _ } => put_param(param, left),
        Piece::Subst {
            body,
            kind,
            quoted: _,
        } => put_subst(*kind, body, left),
        Piece::Number { text, quoted: _ } => put_number(text, left),
    }
}

fn put_literal<'a>(text: &'a Text, quoted: bool, left: &mut Left<'a>) -> Result<(), Memory>
    ensures { OnOk result (to_write left.new.tasks ≡ literal_put text.now quoted (to_write left.old.tasks)) }
{
    if quoted {
        left.push(Task::Quoted(text.bytes()))
    } else {
        put_bare(text.bytes(), left)
    }
}

/// A literal without quotes. A backslash that ends it is quoted.
fn put_bare<'a>(bytes: &'a [u8], left: &mut Left<'a>) -> Result<(), Memory>
    ensures { OnOk result (to_write left.new.tasks ≡ bare_put (ends_in_backslash bytes.now) bytes.now (to_write left.old.tasks)) }
{
    if !ends_in_backslash(bytes) {
        return left.push(Task::Bytes(bytes));
    }
    left.push(Task::Bytes(b"'\\'"))?;
    left.push(Task::Bytes(without_last(bytes)))
}

fn ends_in_backslash(bytes: &[u8]) -> bool
    ensures { result ≡ ends_in_backslash bytes.now }
{
    match bytes.last() {
        Some(byte) => *byte == b'\\',
        None => false,
    }
}

/// The bytes before the last.
fn without_last<'a>(bytes: &'a [u8]) -> &'a [u8]
    ensures { result.now ≡ take (length bytes.now - 1) bytes.now }
{
    let count = bytes.len().saturating_sub(1);
    &bytes[..count]
}

fn put_quote_mark<'a>(quoted: bool, left: &mut Left<'a>) -> Result<(), Memory>
    ensures { OnOk result (to_write left.new.tasks ≡ quote_mark quoted (to_write left.old.tasks)) }
{
    if quoted {
        return left.push(Task::Bytes(b"\""));
    }
    Ok(())
}

/// A substitution. `${` of one that runs in this shell is followed by a newline, as `$(` is.
fn put_subst<'a>(kind: SubstKind, body: &'a List, left: &mut Left<'a>) -> Result<(), Memory>
    ensures { OnOk result (to_write left.new.tasks ≡ subst_put kind (list_puts body.now) (to_write left.old.tasks)) }
{
    let (begin, end): (&'a [u8], &'a [u8]) = match kind {
        SubstKind::Current => (b"${", b"}"),
        SubstKind::Fork => (b"$(", b")"),
        SubstKind::File => (b"$(", b")"),
    };
    left.push(Task::Bytes(end))?;
    left.push(Task::List(body.get().as_slice()))?;
    left.push(Task::Line)?;
    left.push(Task::Bytes(begin))
}

fn put_number<'a>(text: &'a Arith, left: &mut Left<'a>) -> Result<(), Memory>
    ensures { OnOk result (to_write left.new.tasks ≡ number_put (arith_put text.now) (to_write left.old.tasks)) }
{
    left.push(Task::Bytes(b"))"))?;
    put_arith(text, left)?;
    left.push(Task::Bytes(b"$(("))
}

/// Arithmetic in a script. Any operator may stand in it without parentheses.
#[tactic(auto, unfolding(crate::specs::Tree::arith_put, crate::specs::Tree::piece_spot))]
pub fn put_arith<'a>(text: &'a Arith, left: &mut Left<'a>) -> Result<(), Memory>
    ensures { OnOk result (to_write left.new.tasks ≡ arith_put text.now (to_write left.old.tasks)) }
{
    match text {
        Arith::Parsed(expr) => left.push(Task::Expr(expr, 14)),
        Arith::Text(word) => left.push(Task::Pieces(word.as_slice(), true, false)),
    }
}

/// A literal without quotes as it is; any other piece as in a word.
#[tactic(auto, unfolding(crate::specs::Tree::piece_spot, crate::specs::Tree::parameter_put, crate::specs::Tree::arith_put, crate::specs::Tree::item_put))]
fn put_arith_piece<'a>(piece: &'a Piece, left: &mut Left<'a>) -> Result<(), Memory>
    ensures { OnOk result (to_write left.new.tasks ≡ as_it_is (piece_spot piece.now).bare (piece_spot piece.now).plain (to_write left.old.tasks)) }
{
    match piece {
        Piece::Literal {
            text,
            quoted: false,
        } => left.push(Task::Bytes(text.bytes())),
        _ => put_piece(piece, left),
    }
}

/// An expansion, always in braces.
#[tactic(auto, unfolding(crate::specs::Tree::parameter_put, crate::specs::Tree::of_put, crate::specs::Tree::form_of))]
fn put_param<'a>(param: &'a Param, left: &mut Left<'a>) -> Result<(), Memory>
    ensures { OnOk result (to_write left.new.tasks ≡ parameter_put param.now (to_write left.old.tasks)) }
{
    left.push(Task::Bytes(b"}"))?;
    put_tail(&param.form, left)?;
    put_of(&param.of, left)?;
    put_front(&param.form, left)?;
    left.push(Task::Bytes(b"${"))
}

#[tactic(auto, unfolding(crate::specs::Tree::of_put, crate::specs::Tree::path_put))]
fn put_of<'a>(of: &'a ParamOf, left: &mut Left<'a>) -> Result<(), Memory>
    ensures { OnOk result (to_write left.new.tasks ≡ of_put of.now (to_write left.old.tasks)) }
{
    match of {
        ParamOf::Var(path) => put_path(path, left),
        ParamOf::Special(text) => left.push(Task::Bytes(text.bytes())),
        ParamOf::Prefix(text) => {
            left.push(Task::Bytes(b"@"))?;
            left.push(Task::Bytes(text.bytes()))?;
            left.push(Task::Bytes(b"!"))
        }
    }
}

/// A path to a variable.
#[tactic(auto, unfolding(crate::specs::Tree::path_put, crate::specs::Tree::part_put))]
pub fn put_path<'a>(path: &'a TreePath, left: &mut Left<'a>) -> Result<(), Memory>
    ensures { OnOk result (to_write left.new.tasks ≡ path_put path.now (to_write left.old.tasks)) }
{
    left.push(Task::Parts(path.parts.as_slice()))?;
    left.push(Task::Bytes(path.name.text().bytes()))
}

/// Parts of a path.
pub fn put_parts<'a>(parts: &'a [TreePart], left: &mut Left<'a>) -> Result<(), Memory>
    ensures { OnOk result (to_write left.new.tasks ≡ each (map part_put parts.now) (to_write left.old.tasks)) }
{
    let Some((part, rest)) = parts.split_first() else {
        return Ok(());
    };
    left.push(Task::Parts(rest))?;
    put_part(part, left)
}

#[tactic(auto, unfolding(crate::specs::Tree::part_put, crate::specs::Tree::piece_spot))]
fn put_part<'a>(part: &'a TreePart, left: &mut Left<'a>) -> Result<(), Memory>
    ensures { OnOk result (to_write left.new.tasks ≡ part_put part.now (to_write left.old.tasks)) }
{
    match part {
        TreePart::Member(name) => {
            left.push(Task::Bytes(name.text().bytes()))?;
            left.push(Task::Bytes(b"."))
        }
        TreePart::Sub(word) => {
            left.push(Task::Bytes(b"]"))?;
            left.push(Task::Word(word.as_slice()))?;
            left.push(Task::Bytes(b"["))
        }
        TreePart::Each => left.push(Task::Bytes(b"[@]")),
        TreePart::Joined => left.push(Task::Bytes(b"[*]")),
    }
}

/// What stands before the parameter.
#[tactic(auto, unfolding(crate::specs::Tree::form_of))]
fn put_front<'a>(form: &'a ParamForm, left: &mut Left<'a>) -> Result<(), Memory>
    ensures { OnOk result (to_write left.new.tasks ≡ (form_of form.now).front (to_write left.old.tasks)) }
{
    match form {
        ParamForm::Length => left.push(Task::Bytes(b"#")),
        ParamForm::Target => left.push(Task::Bytes(b"!")),
        _ => Ok(()),
    }
}

/// What stands behind the parameter.
#[tactic(auto, unfolding(crate::specs::Tree::form_of, crate::specs::Tree::piece_spot))]
fn put_tail<'a>(form: &'a ParamForm, left: &mut Left<'a>) -> Result<(), Memory>
    ensures { OnOk result (to_write left.new.tasks ≡ (form_of form.now).tail (to_write left.old.tasks)) }
{
    match form {
        ParamForm::Plain => Ok(()),
        ParamForm::Length => Ok(()),
        ParamForm::Target => Ok(()),
        ParamForm::Instead { colon, word } => put_behind(instead_bytes(*colon), word, left),
        ParamForm::Assign { colon, word } => put_behind(assign_bytes(*colon), word, left),
        ParamForm::Fault { colon, word } => put_behind(fault_bytes(*colon), word, left),
        ParamForm::Other { colon, word } => put_behind(other_bytes(*colon), word, left),
        ParamForm::Cut {
            tail,
            longest,
            pattern,
        } => put_behind(cut_bytes(*tail, *longest), pattern, left),
        ParamForm::Slice { from, count } => match count {
            Some(count) => {
                put_behind(b":", count, left)?;
                put_behind(b":", from, left)
            }
            None => put_behind(b":", from, left),
        },
        ParamForm::Replace {
            which,
            pattern,
            with,
        } => {
            put_with(with, left)?;
            put_behind(replace_bytes(*which), pattern, left)
        }
    }
}

/// What stands in place of a match, where there is any.
fn put_with<'a>(word: &'a Word, left: &mut Left<'a>) -> Result<(), Memory>
    ensures { OnOk result (to_write left.new.tasks ≡ with_put (word_spots word.now) (to_write left.old.tasks)) }
{
    match word.as_slice().split_first() {
        Some(_) => put_behind(b"/", word, left),
        None => Ok(()),
    }
}

fn put_behind<'a>(bytes: &'a [u8], word: &'a Word, left: &mut Left<'a>) -> Result<(), Memory>
    ensures { OnOk result (to_write left.new.tasks ≡ say bytes.now (word_put (word_spots word.now) (to_write left.old.tasks))) }
{
    left.push(Task::Word(word.as_slice()))?;
    left.push(Task::Bytes(bytes))
}

fn instead_bytes<'a>(colon: bool) -> &'a [u8]
    ensures { result.now ≡ instead_bytes colon }
{
    if colon { b":-" } else { b"-" }
}

fn assign_bytes<'a>(colon: bool) -> &'a [u8]
    ensures { result.now ≡ assign_bytes colon }
{
    if colon { b":=" } else { b"=" }
}

fn fault_bytes<'a>(colon: bool) -> &'a [u8]
    ensures { result.now ≡ fault_bytes colon }
{
    if colon { b":?" } else { b"?" }
}

fn other_bytes<'a>(colon: bool) -> &'a [u8]
    ensures { result.now ≡ other_bytes colon }
{
    if colon { b":+" } else { b"+" }
}

fn cut_bytes<'a>(tail: bool, longest: bool) -> &'a [u8]
    ensures { result.now ≡ cut_bytes tail longest }
{
    match (tail, longest) {
        (true, true) => b"%%",
        (true, false) => b"%",
        (false, true) => b"##",
        (false, false) => b"#",
    }
}

fn replace_bytes<'a>(which: Replaced) -> &'a [u8]
    ensures { result.now ≡ replace_bytes which }
{
    match which {
        Replaced::First => b"/",
        Replaced::All => b"//",
        Replaced::Front => b"/#",
        Replaced::Tail => b"/%",
    }
}
