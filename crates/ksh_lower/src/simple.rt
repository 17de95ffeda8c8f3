//! Simple commands.
ghost use Rattle.std.specs.Prelude.{◌≡◌, IfOk};
ghost use Rattle.ksh_lower.specs.Simple.{are_shown, argument_of, assign_of, collected, command_of, is_literal_print, is_plain, is_print, is_shown, literal_piece, piece_of, says_print, simple_of, value_piece, word_of};
ghost use Rattle.ksh_ast.specs.declared.tree.Piece.{out-Piece};

use ksh_ast::{
    Argument, Assign, AssignValue, Command, Param, ParamForm, ParamOf, Piece, Redirect, Word,
};
use ksh_base::{Items, Memory, Text};
use ksh_script::{
    Assign as PlainAssign, Command as PlainCommand, Piece as PlainPiece, Word as PlainWord,
};
use std::alloc::Global;

/// Letters, digits, `_ . / , : + @` and bytes from 0x80 on.
fn is_plain(byte: u8) -> bool
    ensures { result ≡ is_plain byte }
{
    (byte.is_ascii_alphanumeric() || byte == b'_' || byte >= 128)
        || matches!(byte, b'.' | b'/' | b',' | b':' | b'+' | b'@')
}

fn is_shown(quoted: bool, byte: u8) -> bool
    ensures { result ≡ is_shown quoted byte }
{
    if quoted {
        !(byte == b'\\' || byte == b'-')
    } else {
        is_plain(byte)
    }
}

fn are_shown(quoted: bool, bytes: &[u8]) -> bool
    ensures { result ≡ are_shown quoted bytes.now }
{
    for byte in bytes {
        if !is_shown(quoted, *byte) {
            return false;
        }
    }
    true
}

/// Bytes that stand for themselves.
fn literal_piece(alloc: Global, quoted: bool, text: &[u8]) -> Result<Option<PlainPiece>, Memory>
    ensures { IfOk result (λ o. o ≡ literal_piece quoted text.now) }
{
    if are_shown(quoted, text) && !(quoted && text.is_empty()) {
        let text = Text::of(alloc, text)?;
        return Ok(Some(PlainPiece::Literal { text }));
    }
    Ok(None)
}

/// `$name`
fn value_piece(alloc: Global, param: &Param, quoted: bool) -> Result<Option<PlainPiece>, Memory>
    ensures { IfOk result (λ o. o ≡ value_piece param.now quoted) }
{
    if quoted {
        return Ok(None);
    }
    match (&param.of, &param.form) {
        (ParamOf::Var(path), ParamForm::Plain) => {
            if !path.parts.is_empty() {
                return Ok(None);
            }
            let name = path.name.copy(alloc)?;
            Ok(Some(PlainPiece::Value { name }))
        }
        _ => Ok(None),
    }
}

fn piece_of(alloc: Global, quoting: bool, piece: &Piece) -> Result<Option<PlainPiece>, Memory>
    ensures { IfOk result (λ o. o ≡ piece_of quoting piece.now) }
{
    match piece {
        Piece::Literal { text, quoted } => literal_piece(alloc, quoting && *quoted, text.bytes()),
        Piece::Expand { param, quoted } => value_piece(alloc, param, *quoted),
        _ => Ok(None),
    }
}

/// A word, which may quote or not.
#[tactic(auto, using(crate::proofs::Fronts::one_more, crate::proofs::Fronts::none_more, crate::proofs::Fronts::all_found))]
fn word_of(alloc: Global, quoting: bool, word: &[Piece]) -> Result<Option<PlainWord>, Memory>
    ensures { IfOk result (λ o. o ≡ word_of quoting word.now) }
{
    let mut pieces = Items::new(alloc);
    for piece in word {
        match piece_of(alloc, quoting, piece)? {
            Some(piece) => pieces.push(piece)?,
            None => return Ok(None),
        }
    }
    Ok(Some(PlainWord { pieces }))
}

/// A word of `print`.
fn argument_of(alloc: Global, argument: &Argument) -> Result<Option<PlainWord>, Memory>
    ensures { IfOk result (λ o. o ≡ argument_of argument.now) }
{
    match argument {
        Argument::Word(word) => word_of(alloc, true, word.as_slice()),
        Argument::Assign(_) => Ok(None),
    }
}

fn is_literal_print(piece: &Piece) -> bool
    ensures { result ≡ is_literal_print (out-Piece piece.now) }
{
    match piece {
        Piece::Literal { text, quoted: _ } => text.bytes() == b"print".as_slice(),
        _ => false,
    }
}

fn says_print(word: &[Piece]) -> bool
    ensures { result ≡ says_print word.now }
{
    match word {
        [piece] => is_literal_print(piece),
        _ => false,
    }
}

fn is_print(argument: &Argument) -> bool
    ensures { result ≡ is_print argument.now }
{
    match argument {
        Argument::Word(word) => says_print(word.as_slice()),
        Argument::Assign(_) => false,
    }
}

/// `name=value`; IFS has no meaning yet.
fn assign_of(alloc: Global, assign: &Assign) -> Result<Option<PlainAssign>, Memory>
    ensures { IfOk result (λ o. o ≡ assign_of assign.now) }
{
    if assign.append || !assign.path.parts.is_empty() {
        return Ok(None);
    }
    let AssignValue::Word(word) = &assign.value else {
        return Ok(None);
    };
    let Some(value) = word_of(alloc, false, word.as_slice())? else {
        return Ok(None);
    };
    if assign.path.name.text().bytes() == b"IFS".as_slice() {
        return Ok(None);
    }
    let name = assign.path.name.copy(alloc)?;
    Ok(Some(PlainAssign { name, value }))
}

#[tactic(auto, using(crate::proofs::Fronts::one_more, crate::proofs::Fronts::none_more, crate::proofs::Fronts::all_found))]
fn words_of(alloc: Global, arguments: &[Argument]) -> Result<Option<Items<PlainWord>>, Memory>
    ensures { IfOk result (λ o. o ≡ collected argument_of arguments.now) }
{
    let mut words = Items::new(alloc);
    for argument in arguments {
        match argument_of(alloc, argument)? {
            Some(word) => words.push(word)?,
            None => return Ok(None),
        }
    }
    Ok(Some(words))
}

#[tactic(auto, using(crate::proofs::Fronts::one_more, crate::proofs::Fronts::none_more, crate::proofs::Fronts::all_found))]
fn assigns_of(alloc: Global, assigns: &[Assign]) -> Result<Option<Items<PlainAssign>>, Memory>
    ensures { IfOk result (λ o. o ≡ collected assign_of assigns.now) }
{
    let mut found = Items::new(alloc);
    for assign in assigns {
        match assign_of(alloc, assign)? {
            Some(assign) => found.push(assign)?,
            None => return Ok(None),
        }
    }
    Ok(Some(found))
}

fn simple_of(
    alloc: Global,
    assigns: &[Assign],
    words: &[Argument],
    redirects: &[Redirect<Word>],
) -> Result<Option<PlainCommand>, Memory>
    ensures { IfOk result (λ o. o ≡ simple_of assigns.now words.now redirects.now) }
{
    if !redirects.is_empty() {
        return Ok(None);
    }
    let Some((name, words)) = words.split_first() else {
        return Ok(assigns_of(alloc, assigns)?.map(|assigns| PlainCommand::Assign { assigns }));
    };
    if !assigns.is_empty() || !is_print(name) {
        return Ok(None);
    }
    Ok(words_of(alloc, words)?.map(|words| PlainCommand::Print { words }))
}

/// What is run of a simple command; nothing where it isn't built.
pub(crate) fn command_of(alloc: Global, command: &Command) -> Result<Option<PlainCommand>, Memory>
    ensures { IfOk result (λ o. o ≡ command_of command.now) }
{
    match command {
        Command::Simple {
            assigns,
            words,
            redirects,
        } => simple_of(
            alloc,
            assigns.as_slice(),
            words.as_slice(),
            redirects.as_slice(),
        ),
        _ => Ok(None),
    }
}
