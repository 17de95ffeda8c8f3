ghost use Rattle.std.specs.Prelude.{◌≡◌, ◌+◌, ◌≤◌, length, take};
ghost use Rattle.ksh_lexer.specs.Place.{IsMark, fault_at, longest_text, newlines};

use crate::fault::{SyntaxFault, SyntaxKind};
use ksh_base::Place;

/// A byte of a text, and the line on which it stands.
#[derive(Clone, Copy, Debug, PartialEq, Eq)]
pub(crate) struct Mark {
    pub byte: usize,
    pub line: u32,
}

/// The text's first byte.
pub(crate) const FIRST: Mark = Mark { byte: 0, line: 1 };

/// The mark of a byte, counted on from another mark where that stands before it.
pub(crate) fn mark_at(text: &[u8], mark: Mark, byte: usize) -> Mark
    requires size { length text.now ≤ longest_text }
    requires byte { byte ≤ length text.now }
    requires mark { IsMark text.now mark }
    ensures byte { result.byte ≡ byte }
    ensures mark { IsMark text.now result }
{
    let from = if mark.byte <= byte { mark } else { FIRST };
    count_on(text, from, byte)
}

#[tactic(auto, using(crate::proofs::Counts::counted_on, crate::proofs::Counts::few_before))]
fn count_on(text: &[u8], from: Mark, byte: usize) -> Mark
    requires size { length text.now ≤ longest_text }
    requires byte { (from.byte ≤ byte) × (byte ≤ length text.now) }
    requires mark { IsMark text.now from }
    ensures byte { result.byte ≡ byte }
    ensures mark { IsMark text.now result }
{
    Mark {
        byte,
        line: from.line + newlines(&text[from.byte..byte]),
    }
}

fn newlines(bytes: &[u8]) -> u32
    requires { length bytes.now ≤ longest_text }
    ensures count { result ≡ newlines bytes.now }
    ensures few { result ≤ length bytes.now }
{
    let mut count = 0;
    for byte in bytes {
        if *byte == b'\n' {
            count += 1;
        }
    }
    count
}

/// A fault at a byte of the text.
pub(crate) fn fault_at(text: &[u8], kind: SyntaxKind, byte: u32) -> SyntaxFault
    requires { length (take byte text.now) ≤ longest_text }
    ensures { result ≡ fault_at text.now kind byte }
{
    let end = byte as usize;
    let before = if end < text.len() { &text[..end] } else { text };
    SyntaxFault {
        kind,
        place: Place {
            line: 1 + newlines(before),
            byte,
        },
    }
}
