ghost use Rattle.std.specs.Prelude.{◌≡◌};
ghost use Rattle.ksh_lexer.specs.Bytes.{in_name};
ghost use Rattle.ksh_lexer.specs.Names.{are_in_name, are_names, is_name, is_own_name, is_path};

use crate::piece::starts_name;

fn in_name(byte: u8) -> bool
    ensures { result ≡ in_name byte }
{
    starts_name(byte) || byte.is_ascii_digit()
}

fn are_in_name(bytes: &[u8]) -> bool
    ensures { result ≡ are_in_name bytes.now }
{
    for byte in bytes {
        if !in_name(*byte) {
            return false;
        }
    }
    true
}

/// A letter or `_`, then letters, digits and `_`.
fn is_own_name(bytes: &[u8]) -> bool
    ensures { result ≡ is_own_name bytes.now }
{
    match bytes.split_first() {
        Some((first, behind)) => starts_name(*first) && are_in_name(behind),
        None => false,
    }
}

/// Whether the bytes are a name, of which `.sh` is one.
pub(crate) fn is_name(bytes: &[u8]) -> bool
    ensures { result ≡ is_name bytes.now }
{
    bytes == b".sh".as_slice() || is_own_name(bytes)
}

/// Whether the bytes are names with dots between them, perhaps those below `.sh`.
pub fn is_path(word: &[u8]) -> bool
    ensures { result ≡ is_path word.now }
{
    match word {
        [b'.', b's', b'h', b'.', ..] => are_names(&word[1..]),
        _ => are_names(word),
    }
}

fn are_names(word: &[u8]) -> bool
    ensures { result ≡ are_names word.now }
{
    let mut begins = true;
    for byte in word {
        let fits = if begins {
            starts_name(*byte)
        } else {
            in_name(*byte) || *byte == b'.'
        };
        if !fits {
            return false;
        }
        begins = *byte == b'.';
    }
    !begins
}
