//! What words are for the grammar.
ghost use Rattle.std.specs.Prelude.{◌≡◌, ◌≤◌, length, take};
ghost use Rattle.ksh_lexer.specs.Bytes.{in_name, starts_name};
ghost use Rattle.ksh_kinds.specs.Words.{assigns, has_dot, is_assignment, known, long_known, path_front, shape, short_known, test, word_kind};

use ksh_lexer::is_path;
use ksh_syntax::Kind;

/// The kind of a whole word of plain bytes, where assignments are looked for or not.
pub fn word_kind(looks: bool, word: &[u8]) -> Kind
    ensures { result ≡ word_kind looks word.now }
{
    match known(word) {
        Some(kind) => kind,
        None => shape(looks, word),
    }
}

/// A word that the grammar knows by its letters.
fn known(word: &[u8]) -> Option<Kind>
    ensures { result ≡ known word.now }
{
    match short_known(word) {
        Some(kind) => Some(kind),
        None => long_known(word),
    }
}

/// One of at most four letters.
fn short_known(word: &[u8]) -> Option<Kind>
    ensures { result ≡ short_known word.now }
{
    match word {
        b"if" => Some(Kind::If),
        b"then" => Some(Kind::Then),
        b"else" => Some(Kind::Else),
        b"elif" => Some(Kind::Elif),
        b"fi" => Some(Kind::Fi),
        b"case" => Some(Kind::Case),
        b"esac" => Some(Kind::Esac),
        b"for" => Some(Kind::For),
        b"do" => Some(Kind::Do),
        b"done" => Some(Kind::Done),
        b"{" => Some(Kind::LeftBrace),
        b"}" => Some(Kind::RightBrace),
        b"[[" => Some(Kind::LeftBrackets),
        b"!" => Some(Kind::Bang),
        b"]]" => Some(Kind::RightBrackets),
        b"in" => Some(Kind::In),
        b"time" => Some(Kind::Time),
        _ => None,
    }
}

/// One of more than four letters.
fn long_known(word: &[u8]) -> Option<Kind>
    ensures { result ≡ long_known word.now }
{
    if word == b"while".as_slice() {
        return Some(Kind::While);
    }
    if word == b"until".as_slice() {
        return Some(Kind::Until);
    }
    if word == b"function".as_slice() {
        return Some(Kind::Function);
    }
    if word == b"select".as_slice() {
        return Some(Kind::Select);
    }
    if word == b"namespace".as_slice() {
        return Some(Kind::Namespace);
    }
    if word == b"typeset".as_slice() {
        return Some(Kind::Typeset);
    }
    None
}

/// The name of a test.
fn test(word: &[u8]) -> Option<Kind>
    ensures { result ≡ test word.now }
{
    match word {
        b"-n" => Some(Kind::Unary),
        b"-z" => Some(Kind::Unary),
        b"-a" => Some(Kind::Unary),
        b"-e" => Some(Kind::Unary),
        b"-f" => Some(Kind::Unary),
        b"-d" => Some(Kind::Unary),
        b"-r" => Some(Kind::Unary),
        b"-w" => Some(Kind::Unary),
        b"-x" => Some(Kind::Unary),
        b"-s" => Some(Kind::Unary),
        b"-o" => Some(Kind::Unary),
        b"-v" => Some(Kind::Unary),
        b"=" => Some(Kind::Binary),
        b"==" => Some(Kind::Binary),
        b"!=" => Some(Kind::Binary),
        b"-eq" => Some(Kind::Binary),
        b"-ne" => Some(Kind::Binary),
        b"-lt" => Some(Kind::Binary),
        b"-le" => Some(Kind::Binary),
        b"-gt" => Some(Kind::Binary),
        b"-ge" => Some(Kind::Binary),
        _ => None,
    }
}

/// What the bytes of a word are that isn't known by its letters.
fn shape(looks: bool, word: &[u8]) -> Kind
    ensures { result ≡ shape looks word.now }
{
    if is_path(word) {
        if has_dot(word) {
            Kind::Dotted
        } else {
            Kind::Name
        }
    } else if looks && is_assignment(word) {
        Kind::Assignment
    } else {
        match test(word) {
            Some(kind) => kind,
            None => Kind::Other,
        }
    }
}

/// Whether the bytes begin with a path and `=` or `+=`.
pub fn is_assignment(word: &[u8]) -> bool
    ensures { result ≡ is_assignment word.now }
{
    let front = path_len(word);
    is_path(&word[..front]) && assigns(&word[front..])
}

fn assigns(word: &[u8]) -> bool
    ensures { result ≡ assigns word.now }
{
    matches!(word, [b'=', ..] | [b'+', b'=', ..])
}

/// How many bytes in front may stand in a path.
pub(crate) fn path_len(word: &[u8]) -> usize
    ensures count { result ≡ length (path_front word.now) }
    ensures front { take result word.now ≡ path_front word.now }
    ensures within { result ≤ length word.now }
{
    for (i, byte) in word.iter().enumerate() {
        if !(in_name(*byte) || *byte == b'.') {
            return i;
        }
    }
    word.len()
}

fn has_dot(word: &[u8]) -> bool
    ensures { result ≡ has_dot word.now }
{
    for byte in word {
        if *byte == b'.' {
            return true;
        }
    }
    false
}

fn starts_name(byte: u8) -> bool
    ensures { result ≡ starts_name byte }
{
    byte.is_ascii_alphabetic() || byte == b'_'
}

fn in_name(byte: u8) -> bool
    ensures { result ≡ in_name byte }
{
    starts_name(byte) || byte.is_ascii_digit()
}
