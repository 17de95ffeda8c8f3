//! The line that ends a here-document.
ghost use Rattle.std.specs.Prelude.{◌≡◌, ◌++◌, ◌∷◌, ℕ, List, IfOk};
ghost use Rattle.ksh_lexer.specs.EndWord.{end_word, is_quoted, unquoted};
ghost use Rattle.ksh_lexer.specs.declared.end_line.Within.TheVariants as within;

use crate::unquote::escape;
use ksh_base::{Memory, Text};
use std::alloc::Global;

/// In which quoting a byte of the word stands.
#[derive(Clone, Copy, Debug, PartialEq, Eq)]
pub(crate) enum Within {
    Nothing,
    /// Behind a backslash.
    Backslash,
    /// In `'..'`
    Single,
    /// In `".."`
    Double,
    /// Behind a backslash in `".."`
    QuotedBackslash,
    /// Between the `$` and the `'` of `$'..'`
    Dollar,
    /// In `$'..'`, where so many bytes belong to an escape.
    Ansi(usize),
}

/// The line that ends the body of a here-document, whose operator that word follows: its bytes without the quotes. Nothing
/// is expanded in it.
pub fn end_word(alloc: Global, word: &[u8]) -> Result<Text, Memory>
    ensures { IfOk result (λ line. line ≡ end_word word.now) }
{
    let mut line = Text::empty(alloc);
    let mut within = Within::Nothing;
    for (i, byte) in word.iter().enumerate() {
        within = read(&mut line, within, *byte, &word[i + 1..])?;
    }
    if matches!(within, Within::Backslash | Within::QuotedBackslash) {
        line.push(b'\\')?;
    }
    Ok(line)
}

/// Whether any byte of the word is quoted, or quotes.
pub fn is_quoted(word: &[u8]) -> bool
    ensures { result ≡ is_quoted word.now }
{
    for byte in word {
        if matches!(*byte, b'\'' | b'"' | b'\\') {
            return true;
        }
    }
    false
}

/// Adds what a byte stands for.
fn read(line: &mut Text, within: Within, byte: u8, rest: &[u8]) -> Result<Within, Memory>
    ensures { IfOk result (λ w. line.old ++ unquoted within (byte ∷ rest.now) ≡ line.new ++ unquoted w rest.now) }
{
    match within {
        Within::Nothing => in_nothing(line, byte, rest),
        Within::Backslash => behind_backslash(line, byte),
        Within::Single => in_single(line, byte),
        Within::Double => in_double(line, byte),
        Within::QuotedBackslash => behind_quoted_backslash(line, byte),
        Within::Dollar => Ok(Within::Ansi(0)),
        Within::Ansi(0) => in_ansi(line, byte, rest),
        Within::Ansi(taken) => Ok(Within::Ansi(taken - 1)),
    }
}

fn in_nothing(line: &mut Text, byte: u8, rest: &[u8]) -> Result<Within, Memory>
    ensures { IfOk result (λ w. line.old ++ unquoted within.Nothing (byte ∷ rest.now) ≡ line.new ++ unquoted w rest.now) }
{
    match byte {
        b'\'' => return Ok(Within::Single),
        b'"' => return Ok(Within::Double),
        b'\\' => return Ok(Within::Backslash),
        b'$' if rest.first() == Some(&b'"') => return Ok(Within::Nothing),
        b'$' if rest.first() == Some(&b'\'') => return Ok(Within::Dollar),
        _ => line.push(byte)?,
    }
    Ok(Within::Nothing)
}

fn behind_backslash(line: &mut Text, byte: u8) -> Result<Within, Memory>
    ensures { IfOk result (λ w. (rest : List ℕ) → line.old ++ unquoted within.Backslash (byte ∷ rest) ≡ line.new ++ unquoted w rest) }
{
    if byte != b'\n' {
        line.push(byte)?;
    }
    Ok(Within::Nothing)
}

fn in_single(line: &mut Text, byte: u8) -> Result<Within, Memory>
    ensures { IfOk result (λ w. (rest : List ℕ) → line.old ++ unquoted within.Single (byte ∷ rest) ≡ line.new ++ unquoted w rest) }
{
    if byte == b'\'' {
        return Ok(Within::Nothing);
    }
    line.push(byte)?;
    Ok(Within::Single)
}

fn in_double(line: &mut Text, byte: u8) -> Result<Within, Memory>
    ensures { IfOk result (λ w. (rest : List ℕ) → line.old ++ unquoted within.Double (byte ∷ rest) ≡ line.new ++ unquoted w rest) }
{
    match byte {
        b'"' => return Ok(Within::Nothing),
        b'\\' => return Ok(Within::QuotedBackslash),
        _ => line.push(byte)?,
    }
    Ok(Within::Double)
}

fn behind_quoted_backslash(line: &mut Text, byte: u8) -> Result<Within, Memory>
    ensures { IfOk result (λ w. (rest : List ℕ) → line.old ++ unquoted within.QuotedBackslash (byte ∷ rest) ≡ line.new ++ unquoted w rest) }
{
    match byte {
        b'\n' => return Ok(Within::Double),
        b'$' | b'`' | b'"' | b'\\' => line.push(byte)?,
        _ => {
            line.push(b'\\')?;
            line.push(byte)?;
        }
    }
    Ok(Within::Double)
}

fn in_ansi(line: &mut Text, byte: u8, rest: &[u8]) -> Result<Within, Memory>
    ensures { IfOk result (λ w. line.old ++ unquoted (within.Ansi 0) (byte ∷ rest.now) ≡ line.new ++ unquoted w rest.now) }
{
    if byte == b'\'' {
        return Ok(Within::Nothing);
    }
    if byte != b'\\' {
        line.push(byte)?;
        return Ok(Within::Ansi(0));
    }
    let (byte, more) = escape(rest);
    line.push(byte)?;
    Ok(Within::Ansi(more))
}
