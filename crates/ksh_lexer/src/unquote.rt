ghost use Rattle.std.specs.Prelude.{◌≡◌, ◌≤◌, ◌<◌, ◌+◌, ◌++◌, true, IfOk, length, take, drop};
ghost use Rattle.ksh_lexer.specs.Unquoted.{ansi_bytes, escape, escaped, hex, hex_more, hex_value, is_hex, is_octal, octal, octal_more};

use bstr::ByteSlice;
use ksh_base::{Memory, Text};
use std::alloc::Global;

/// The bytes for which those between `$'` and `'` stand.
pub fn ansi_text(alloc: Global, inside: &[u8]) -> Result<Text, Memory>
    ensures { IfOk result (λ text. text ≡ ansi_bytes inside.now) }
{
    let mut text = Text::empty(alloc);
    let mut rest = inside;
    while let Some((first, behind)) = rest.split_first() {
        if *first == b'\\' {
            let (byte, more) = escape(behind);
            text.push(byte)?;
            rest = &behind[more..];
        } else {
            let plain = plain_len(behind);
            text.append(&rest[..plain + 1])?;
            rest = &behind[plain..];
        }
    }
    Ok(text)
}

/// How many bytes in front are no backslash.
fn plain_len(bytes: &[u8]) -> usize
    ensures within { result ≤ length bytes.now }
    ensures front { ansi_bytes bytes.now ≡ take result bytes.now ++ ansi_bytes (drop result bytes.now) }
{
    match bytes.find_byte(b'\\') {
        Some(end) => end,
        None => bytes.len(),
    }
}

/// The byte for which a backslash before these bytes stands, and how many of them belong to it. A
/// backslash that quotes nothing stands for itself.
pub(crate) fn escape(behind: &[u8]) -> (u8, usize)
    ensures escape { result ≡ escape behind.now }
    ensures within { result.1 ≤ length behind.now }
{
    match behind.split_first() {
        Some((byte, more)) => escaped(*byte, more),
        None => (b'\\', 0),
    }
}

fn escaped(byte: u8, more: &[u8]) -> (u8, usize)
    ensures escaped { result ≡ escaped byte more.now }
    ensures within { result.1 ≤ 1 + length more.now }
{
    match byte {
        b'a' => (7, 1),
        b'b' => (8, 1),
        b'e' | b'E' => (27, 1),
        b'f' => (12, 1),
        b'n' => (10, 1),
        b'r' => (13, 1),
        b't' => (9, 1),
        b'v' => (11, 1),
        b'\\' | b'\'' | b'"' => (byte, 1),
        b'x' => hex(more),
        b'0'..=b'7' => octal(byte - b'0', more),
        _ => (b'\\', 0),
    }
}

/// Behind `\x`: one or two hexadecimal digits.
fn hex(more: &[u8]) -> (u8, usize)
    ensures hex { result ≡ hex more.now }
    ensures within { result.1 ≤ 1 + length more.now }
{
    match more.split_first() {
        Some((digit, after)) if is_hex(*digit) => hex_more(hex_value(*digit), after),
        _ => (b'\\', 0),
    }
}

fn hex_more(value: u8, after: &[u8]) -> (u8, usize)
    requires { value < 16 }
    ensures hex_more { result ≡ hex_more value after.now }
    ensures within { result.1 ≤ 2 + length after.now }
{
    match after.split_first() {
        Some((digit, _)) if is_hex(*digit) => (value * 16 + hex_value(*digit), 3),
        _ => (value, 2),
    }
}

fn is_hex(byte: u8) -> bool
    ensures { result ≡ is_hex byte }
{
    matches!(byte, b'0'..=b'9' | b'a'..=b'f' | b'A'..=b'F')
}

fn hex_value(byte: u8) -> u8
    requires { is_hex byte ≡ true }
    ensures value { result ≡ hex_value byte }
    ensures small { result < 16 }
{
    if byte <= b'9' {
        byte - b'0'
    } else if byte <= b'F' {
        byte - b'A' + 10
    } else {
        byte - b'a' + 10
    }
}

/// Behind a first octal digit: up to two more.
fn octal(value: u8, more: &[u8]) -> (u8, usize)
    requires { value < 8 }
    ensures octal { result ≡ octal value more.now }
    ensures within { result.1 ≤ 1 + length more.now }
{
    match more.split_first() {
        Some((digit, after)) if is_octal(*digit) => octal_more(value * 8 + (*digit - b'0'), after),
        _ => (value, 1),
    }
}

fn octal_more(value: u8, after: &[u8]) -> (u8, usize)
    requires { value < 64 }
    ensures octal_more { result ≡ octal_more value after.now }
    ensures within { result.1 ≤ 2 + length after.now }
{
    match after.split_first() {
        Some((digit, _)) if is_octal(*digit) => {
            let wide = u32::from(value) * 8 + u32::from(*digit - b'0');
            ((wide % 256) as u8, 3)
        }
        _ => (value, 2),
    }
}

fn is_octal(byte: u8) -> bool
    ensures { result ≡ is_octal byte }
{
    matches!(byte, b'0'..=b'7')
}
