//! Bytes as they are written.
ghost use Rattle.std.specs.Prelude.{◌≡◌, ◌++◌, OnOk};
ghost use Rattle.std.specs.List.{list_all};
ghost use Rattle.ksh_unparse.specs.Quoting.{each_byte, in_body, in_dollar_quotes, is_simple, quoted};

use ksh_base::{Memory, Text};

/// Appends the bytes in quotes, so that they are read as those bytes.
pub fn append_quoted(bytes: &[u8], text: &mut Text) -> Result<(), Memory>
    ensures { OnOk result (text.new ≡ text.old ++ quoted bytes.now) }
{
    if all_simple(bytes) {
        text.append(b"'")?;
        text.append(bytes)?;
        return text.append(b"'");
    }
    text.append(b"$'")?;
    append_escaped(bytes, text)?;
    text.append(b"'")
}

/// Whether each byte stands for itself in `'..'`.
fn all_simple(bytes: &[u8]) -> bool
    ensures { result ≡ list_all is_simple bytes.now }
{
    for byte in bytes {
        if !is_simple(*byte) {
            return false;
        }
    }
    true
}

fn is_simple(byte: u8) -> bool
    ensures { result ≡ is_simple byte }
{
    (32 <= byte && byte <= 126) && !(byte == 39)
}

fn append_escaped(bytes: &[u8], text: &mut Text) -> Result<(), Memory>
    ensures { OnOk result (text.new ≡ text.old ++ each_byte in_dollar_quotes bytes.now) }
{
    for byte in bytes {
        append_in_dollar_quotes(*byte, text)?;
    }
    Ok(())
}

/// A byte in `$'..'`.
fn append_in_dollar_quotes(byte: u8, text: &mut Text) -> Result<(), Memory>
    ensures { OnOk result (text.new ≡ text.old ++ in_dollar_quotes byte) }
{
    if byte == b'\\' {
        return text.append(b"\\\\");
    }
    if byte == b'\'' {
        return text.append(b"\\'");
    }
    if byte == b'\n' {
        return text.append(b"\\n");
    }
    if byte == b'\t' {
        return text.append(b"\\t");
    }
    if 32 <= byte && byte <= 126 {
        return text.push(byte);
    }
    text.append(&[b'\\', 48 + byte / 64, 48 + byte / 8 % 8, 48 + byte % 8])
}

/// Appends the bytes as the body of a here-document has them.
pub fn append_in_body(bytes: &[u8], text: &mut Text) -> Result<(), Memory>
    ensures { OnOk result (text.new ≡ text.old ++ each_byte in_body bytes.now) }
{
    for byte in bytes {
        append_body_byte(*byte, text)?;
    }
    Ok(())
}

fn append_body_byte(byte: u8, text: &mut Text) -> Result<(), Memory>
    ensures { OnOk result (text.new ≡ text.old ++ in_body byte) }
{
    if byte == b'$' || (byte == b'`' || byte == b'\\') {
        return text.append(&[b'\\', byte]);
    }
    text.push(byte)
}
