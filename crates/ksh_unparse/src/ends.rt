//! The words that end the bodies of here-documents.
ghost use Rattle.std.specs.Prelude.{◌≡◌, ◌&&◌, IfOk, true};
ghost use Rattle.ksh_unparse.specs.Layout.{end_of, end_word, has_line, is_line};

use itoa::Buffer;
use ksh_base::{Memory, Text};
use std::alloc::Global;

/// The first of `E0`, `E1`, .. that is no line of the body.
pub fn choose_end(alloc: Global, body: &[u8]) -> Result<Text, Memory>
    ensures { IfOk result (λ w. w ≡ end_of body.now) }
{
    let mut number: u64 = 0;
    'numbers: for _ in body {
        let word = end_word(alloc, number)?;
        if !has_line(word.bytes(), body) {
            return Ok(word);
        }
        number += 1;
    }
    end_word(alloc, number)
}

/// `E` and the number.
fn end_word(alloc: Global, number: u64) -> Result<Text, Memory>
    ensures { IfOk result (λ w. w ≡ end_word number) }
{
    let mut buffer = Buffer::new();
    let mut word = Text::of(alloc, b"E")?;
    word.append(buffer.format(number).as_bytes())?;
    Ok(word)
}

/// Whether the word is a line of the text.
fn has_line(word: &[u8], text: &[u8]) -> bool
    ensures { result ≡ has_line word.now true text.now }
{
    let mut start = true;
    let mut rest = text;
    while let Some((byte, more)) = rest.split_first() {
        if start && is_line(word, rest) {
            return true;
        }
        start = *byte == b'\n';
        rest = more;
    }
    false
}

/// Whether the word is all that is left of the line.
fn is_line(word: &[u8], text: &[u8]) -> bool
    ensures { result ≡ is_line word.now text.now }
{
    let mut word = word;
    let mut rest = text;
    while let Some((wanted, wants)) = word.split_first() {
        let Some((byte, more)) = rest.split_first() else {
            return false;
        };
        if *byte != *wanted {
            return false;
        }
        word = wants;
        rest = more;
    }
    match rest.split_first() {
        Some((byte, _)) => *byte == b'\n',
        None => true,
    }
}
