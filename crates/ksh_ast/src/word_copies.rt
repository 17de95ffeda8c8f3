//! Copies of words. Lists of commands are shared.
ghost use Rattle.std.specs.Prelude.{◌≡◌, IfOk};

use crate::tree::{Arith, Param, ParamForm, ParamOf, Piece, TreePart, TreePath, Word};
use ksh_base::{Items, Memory};
use std::alloc::Global;

#[cycle(words)]
pub fn copy_word(alloc: Global, word: &Word) -> Result<Word, Memory>
    ensures { IfOk result (λ c. c ≡ word.now) }
{
    let mut copies = Items::new(alloc);
    for piece in word.as_slice() {
        copies.push(copy_piece(alloc, piece)?)?;
    }
    Ok(copies)
}

#[cycle(words)]
pub fn copy_piece(alloc: Global, piece: &Piece) -> Result<Piece, Memory>
    ensures { IfOk result (λ c. c ≡ piece.now) }
{
    match piece {
        Piece::Literal { text, quoted } => {
            let text = text.copy(alloc)?;
            Ok(Piece::Literal {
                text,
                quoted: *quoted,
            })
        }
        Piece::Expand { param, quoted } => {
            let param = copy_param(alloc, param)?;
            Ok(Piece::Expand {
                param,
                quoted: *quoted,
            })
        }
        Piece::Subst { body, kind, quoted } => {
            let body = body.copy()?;
            Ok(Piece::Subst {
                body,
                kind: *kind,
                quoted: *quoted,
            })
        }
        Piece::Number { text, quoted } => {
            let text = copy_arith(alloc, text)?;
            Ok(Piece::Number {
                text,
                quoted: *quoted,
            })
        }
    }
}

#[cycle(words)]
pub fn copy_arith(alloc: Global, text: &Arith) -> Result<Arith, Memory>
    ensures { IfOk result (λ c. c ≡ text.now) }
{
    match text {
        Arith::Parsed(expr) => Ok(Arith::Parsed(expr.copy(alloc)?)),
        Arith::Text(word) => Ok(Arith::Text(copy_word(alloc, word)?)),
    }
}

#[cycle(words)]
pub fn copy_param(alloc: Global, param: &Param) -> Result<Param, Memory>
    ensures { IfOk result (λ c. c ≡ param.now) }
{
    let of = copy_of(alloc, &param.of)?;
    let form = copy_form(alloc, &param.form)?;
    Ok(Param { of, form })
}

#[cycle(words)]
fn copy_of(alloc: Global, of: &ParamOf) -> Result<ParamOf, Memory>
    ensures { IfOk result (λ c. c ≡ of.now) }
{
    match of {
        ParamOf::Var(path) => Ok(ParamOf::Var(copy_path(alloc, path)?)),
        ParamOf::Special(text) => Ok(ParamOf::Special(text.copy(alloc)?)),
        ParamOf::Prefix(text) => Ok(ParamOf::Prefix(text.copy(alloc)?)),
    }
}

#[cycle(words)]
pub fn copy_path(alloc: Global, path: &TreePath) -> Result<TreePath, Memory>
    ensures { IfOk result (λ c. c ≡ path.now) }
{
    let name = path.name.copy(alloc)?;
    let mut parts = Items::new(alloc);
    for part in path.parts.as_slice() {
        parts.push(copy_part(alloc, part)?)?;
    }
    Ok(TreePath { name, parts })
}

#[cycle(words)]
fn copy_part(alloc: Global, part: &TreePart) -> Result<TreePart, Memory>
    ensures { IfOk result (λ c. c ≡ part.now) }
{
    match part {
        TreePart::Member(name) => Ok(TreePart::Member(name.copy(alloc)?)),
        TreePart::Sub(word) => Ok(TreePart::Sub(copy_word(alloc, word)?)),
        TreePart::Each => Ok(TreePart::Each),
        TreePart::Joined => Ok(TreePart::Joined),
    }
}

#[cycle(words)]
fn copy_form(alloc: Global, form: &ParamForm) -> Result<ParamForm, Memory>
    ensures { IfOk result (λ c. c ≡ form.now) }
{
    match form {
        ParamForm::Plain => Ok(ParamForm::Plain),
        ParamForm::Instead { colon, word } => {
            let word = copy_word(alloc, word)?;
            Ok(ParamForm::Instead {
                colon: *colon,
                word,
            })
        }
        ParamForm::Assign { colon, word } => {
            let word = copy_word(alloc, word)?;
            Ok(ParamForm::Assign {
                colon: *colon,
                word,
            })
        }
        ParamForm::Fault { colon, word } => {
            let word = copy_word(alloc, word)?;
            Ok(ParamForm::Fault {
                colon: *colon,
                word,
            })
        }
        ParamForm::Other { colon, word } => {
            let word = copy_word(alloc, word)?;
            Ok(ParamForm::Other {
                colon: *colon,
                word,
            })
        }
        ParamForm::Length => Ok(ParamForm::Length),
        ParamForm::Cut {
            tail,
            longest,
            pattern,
        } => {
            let pattern = copy_word(alloc, pattern)?;
            Ok(ParamForm::Cut {
                tail: *tail,
                longest: *longest,
                pattern,
            })
        }
        ParamForm::Slice { from, count } => {
            let from = copy_word(alloc, from)?;
            match count {
                Some(count) => {
                    let count = Some(copy_word(alloc, count)?);
                    Ok(ParamForm::Slice { from, count })
                }
                None => Ok(ParamForm::Slice { from, count: None }),
            }
        }
        ParamForm::Replace {
            which,
            pattern,
            with,
        } => {
            let pattern = copy_word(alloc, pattern)?;
            let with = copy_word(alloc, with)?;
            Ok(ParamForm::Replace {
                which: *which,
                pattern,
                with,
            })
        }
        ParamForm::Target => Ok(ParamForm::Target),
    }
}
