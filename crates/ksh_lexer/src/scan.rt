ghost use Rattle.std.specs.Prelude.{◌≡◌, ◌+◌, ◌<◌, ◌≤◌, length, drop, slice_get};
ghost use Rattle.bstr.specs.Bytes.{not_in};
ghost use Rattle.ksh_lexer.specs.Bytes.{is_blank, present};
ghost use Rattle.ksh_lexer.specs.Class.{in_class};
ghost use Rattle.ksh_lexer.specs.Reach.{IsRun, at_byte, joins_at, next, no_byte, reach, span};

use crate::mode::Ahead;
use crate::piece::starts_name;
use bstr::ByteSlice;

/// Classes of bytes that come in runs.
#[derive(Clone, Copy, Debug, PartialEq, Eq)]
pub(crate) enum Class {
    Tab,
    Digit,
    /// Letters, digits and `_`.
    Name,
    /// Those and `.`.
    Path,
}

fn in_class(class: Class, byte: u8) -> bool
    ensures { result ≡ in_class class byte }
{
    match class {
        Class::Tab => byte == b'\t',
        Class::Digit => byte.is_ascii_digit(),
        Class::Name => starts_name(byte) || byte.is_ascii_digit(),
        Class::Path => starts_name(byte) || byte.is_ascii_digit() || byte == b'.',
    }
}

/// Where the bytes of the class end.
pub(crate) fn class_end(class: Class, text: &[u8], from: usize) -> usize
    requires { from ≤ length text.now }
    ensures { IsRun (at_byte (in_class class)) text.now from result }
{
    let mut end = from;
    while end < text.len() && in_class(class, text[end]) {
        end += 1;
    }
    end
}

/// The first place of a byte of the set, or the end.
pub(crate) fn find_set(text: &[u8], from: usize, set: &[u8]) -> usize
    requires { from ≤ length text.now }
    ensures { IsRun (at_byte (not_in set.now)) text.now from result }
{
    let rest = &text[from..];
    match rest.find_byteset(set) {
        Some(at) => from + at,
        None => text.len(),
    }
}

fn is_blank(byte: u8) -> bool
    ensures { result ≡ is_blank byte }
{
    byte == b' ' || byte == b'\t'
}

/// Where blanks and joined lines end.
#[tactic(auto, using(crate::proofs::Span::blank_step, crate::proofs::Span::join_step, crate::proofs::Span::stop))]
pub(crate) fn past_blanks(text: &[u8], from: usize) -> usize
    requires { from ≤ length text.now }
    ensures past { result ≡ from + span is_blank (drop from text.now) }
    ensures within { result ≤ length text.now }
{
    let mut end = from;
    loop {
        if is_join(text, end) {
            end += 2;
        } else if end < text.len() && is_blank(text[end]) {
            end += 1;
        } else {
            return end;
        }
    }
}

/// Where joined lines end.
#[tactic(auto, using(crate::proofs::Span::class_step, crate::proofs::Span::join_step, crate::proofs::Span::stop))]
fn past_joins(text: &[u8], from: usize) -> usize
    requires { from ≤ length text.now }
    ensures past { result ≡ from + span no_byte (drop from text.now) }
    ensures within { result ≤ length text.now }
{
    let mut end = from;
    while is_join(text, end) {
        end += 2;
    }
    end
}

/// Whether a backslash and a newline stand there.
fn is_join(text: &[u8], at: usize) -> bool
    requires { at ≤ length text.now }
    ensures { result ≡ joins_at text.now at }
{
    text.len() - at >= 2 && text[at] == b'\\' && text[at + 1] == b'\n'
}

/// The place that comes after another. Joined lines are left out.
pub(crate) fn next(text: &[u8], at: usize) -> usize
    requires { at ≤ length text.now + 1 }
    ensures next { result ≡ next text.now at }
    ensures later { at < result }
    ensures near { result ≤ length text.now + 2 }
    ensures within { at < length text.now → result ≤ length text.now }
{
    if at >= text.len() || text[at] == b'\\' {
        return at + 1;
    }
    past_joins(text, at + 1)
}

/// The byte at a place and the two that come after it.
pub(crate) fn look(text: &[u8], at: usize) -> Ahead
    requires { at ≤ length text.now }
    ensures first { result.first ≡ slice_get text.now at }
    ensures second { result.second ≡ slice_get text.now (next text.now at) }
    ensures third { result.third ≡ slice_get text.now (next text.now (next text.now at)) }
{
    let second = next(text, at);
    let third = next(text, second);
    Ahead {
        first: text.get(at).copied(),
        second: text.get(second).copied(),
        third: text.get(third).copied(),
    }
}

/// The place behind that many bytes.
pub(crate) fn reach(text: &[u8], from: usize, width: usize) -> usize
    requires from { from ≤ length text.now }
    requires width { width ≤ present (slice_get text.now from) (slice_get text.now (next text.now from)) (slice_get text.now (next text.now (next text.now from))) }
    ensures reach { result ≡ reach text.now from width }
    ensures later { from ≤ result }
    ensures within { result ≤ length text.now }
{
    match width {
        0 => from,
        1 => from + 1,
        2 => next(text, from) + 1,
        _ => next(text, next(text, from)) + 1,
    }
}
