// A table has a row a line. Each row is told to both ways of matching.
mod calls;
mod depth;
mod pairs;
mod tables;

use crate::plain_matches;
use ksh_base::Memory;
use ksh_pattern::{Marked, Pattern};
use std::alloc::Global;

/// What stands before the first such byte, and behind it.
fn cut(text: &[u8], at: u8) -> (&[u8], &[u8]) {
    match text.iter().position(|byte| *byte == at) {
        Some(end) => (&text[..end], &text[end + 1..]),
        None => (text, &text[text.len()..]),
    }
}

/// A pattern, in which a backslash quotes the byte behind it.
fn pattern(alloc: Global, text: &[u8]) -> Result<Pattern, Memory> {
    let mut marks = Vec::new(alloc);
    let mut quoted = false;
    for byte in text {
        if !quoted && *byte == b'\\' {
            quoted = true;
        } else {
            marks.push(Marked {
                byte: *byte,
                quoted,
            })?;
            quoted = false;
        }
    }
    Pattern::make(alloc, marks.as_slice())
}

/// Whether a pattern matches a text.
fn matches(alloc: Global, text: &[u8], candidate: &[u8]) -> Result<bool, Memory> {
    pattern(alloc, text)?.matches(candidate)
}

/// Whether both ways say of a text what is wanted.
fn both_say(p: &Pattern, text: &[u8], wanted: bool) -> Result<bool, Memory> {
    Ok(p.matches(text)? == wanted && plain_matches(p, text) == Some(wanted))
}
