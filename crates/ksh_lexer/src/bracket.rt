ghost use Rattle.std.specs.Prelude.{◌≡◌, ◌+◌, ◌<◌, ◌≤◌, length, drop, slice_get, None, Some, MatchOption};
ghost use Rattle.ksh_lexer.specs.Brackets.{after_bracket, begins_with, continues_assignment, is_assigned};
ghost use Rattle.ksh_lexer.specs.Bytes.{is};
ghost use Rattle.ksh_lexer.specs.Tok.{is_element, is_key, is_value, may_assign};

use crate::mode::LexMode;
use crate::names::is_path;

/// How many brackets may be open inside a subscript.
const MOST_OPEN: u32 = 63;

/// What stands behind the `]` of a subscript.
fn after_bracket(inside: &[u8]) -> Option<&[u8]>
    ensures { MatchOption result (after_bracket 0 inside.now ≡ None) (λ rest. after_bracket 0 inside.now ≡ Some rest.now) }
{
    let mut rest = inside;
    let mut depth = 0;
    while let Some((byte, behind)) = rest.split_first() {
        rest = behind;
        match *byte {
            b'\n' => return None,
            b'[' if depth == MOST_OPEN => return None,
            b'[' => depth += 1,
            b']' if depth == 0 => return Some(rest),
            b']' => depth -= 1,
            _ => {}
        }
    }
    None
}

/// Whether an assignment goes on there.
fn continues_assignment(rest: &[u8]) -> bool
    ensures { result ≡ continues_assignment (Some rest.now) }
{
    match rest.split_first() {
        Some((b'=' | b'.' | b'[', _)) => true,
        Some((b'+', behind)) => begins_with(behind, b'='),
        _ => false,
    }
}

fn begins_with(rest: &[u8], byte: u8) -> bool
    ensures { result ≡ begins_with byte rest.now }
{
    match rest.split_first() {
        Some((first, _)) => *first == byte,
        None => false,
    }
}

fn may_assign(mode: LexMode) -> bool
    ensures { result ≡ may_assign mode }
{
    matches!(mode, LexMode::Command | LexMode::Argument | LexMode::Value)
}

/// Whether the byte stands at a place.
pub(crate) fn is_at(text: &[u8], at: usize, byte: u8) -> bool
    ensures { result ≡ is byte (slice_get text.now at) }
{
    match text.get(at) {
        Some(found) => *found == byte,
        None => false,
    }
}

/// Whether the path between two places is that of an element, with which an assignment goes on.
pub(crate) fn is_element(mode: LexMode, text: &[u8], from: usize, end: usize) -> bool
    requires { (from ≤ end) × (end ≤ length text.now) }
    ensures { result ≡ is_element mode text.now from end }
{
    if !may_assign(mode) || !is_at(text, end, b'[') || !is_path(&text[from..end]) {
        return false;
    }
    match after_bracket(&text[end + 1..]) {
        Some(rest) => continues_assignment(rest),
        None => false,
    }
}

/// Whether the bracket at a place is that of a key.
pub(crate) fn is_key(mode: LexMode, text: &[u8], from: usize) -> bool
    requires { from < length text.now }
    ensures { result ≡ is_key mode text.now from }
{
    if !matches!(mode, LexMode::Value) || text[from] != b'[' {
        return false;
    }
    match after_bracket(&text[from + 1..]) {
        Some(rest) => begins_with(rest, b'='),
        None => false,
    }
}
