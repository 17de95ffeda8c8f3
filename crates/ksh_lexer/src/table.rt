ghost use Rattle.std.specs.Prelude.{◌≡◌, ◌<◌, ◌≤◌, length, slice_get};
ghost use Rattle.ksh_lexer.specs.Begin.{begins, begins_at, is_ordinary, is_plain, runs};
ghost use Rattle.ksh_lexer.specs.Bytes.{present};
ghost use Rattle.ksh_lexer.specs.Reach.{IsRun, next};
ghost use Rattle.ksh_lexer.specs.Width.{width};

use crate::mode::{Ahead, LexMode};
use crate::outer::{Begins, between};
use crate::parameter::{form, parameter, target};
use crate::piece::piece;
use crate::scan::look;

/// What the bytes begin under the mode.
fn begins(mode: LexMode, ahead: Ahead) -> Begins
    ensures begins { result ≡ begins mode ahead.first ahead.second ahead.third }
    ensures fits { width result ≤ present ahead.first ahead.second ahead.third }
{
    match mode {
        LexMode::Command
        | LexMode::Argument
        | LexMode::Pattern
        | LexMode::Condition
        | LexMode::Value => between(mode, ahead),
        LexMode::Parameter => parameter(ahead),
        LexMode::Form => form(ahead),
        LexMode::Target => target(ahead),
        _ => piece(mode, ahead),
    }
}

/// What begins at a place.
pub(crate) fn begins_at(mode: LexMode, text: &[u8], at: usize) -> Begins
    requires { at ≤ length text.now }
    ensures begins { result ≡ begins_at mode text.now at }
    ensures fits { width result ≤ present (slice_get text.now at) (slice_get text.now (next text.now at)) (slice_get text.now (next text.now (next text.now at))) }
{
    begins(mode, look(text, at))
}

/// Whether the byte stands for itself whatever comes after it. It may for other bytes too.
fn is_ordinary(mode: LexMode, byte: u8) -> bool
    ensures { result ≡ is_ordinary mode byte }
{
    match mode {
        LexMode::Quoted { .. } => !matches!(byte, 0 | b'"' | b'$' | b'`' | b'\\'),
        LexMode::HereBody { .. } => !matches!(byte, 0 | b'\n' | b'$' | b'`' | b'\\'),
        LexMode::Word | LexMode::Group | LexMode::Braced(_) | LexMode::Subscript => is_plain(byte),
        LexMode::Arithmetic | LexMode::LoopArithmetic | LexMode::Parentheses => is_plain(byte),
        _ => false,
    }
}

/// Whether the byte is a letter, a digit, one of `_ - . , =`, or from 0x80 on.
fn is_plain(byte: u8) -> bool
    ensures { result ≡ is_plain byte }
{
    byte.is_ascii_alphanumeric() || matches!(byte, b'_' | b'-' | b'.' | b',' | b'=' | 0x80..)
}

/// Whether the byte at a place stands for itself.
#[tactic(auto, using(crate::proofs::Ordinary::ordinary_runs))]
fn runs(mode: LexMode, text: &[u8], at: usize) -> bool
    requires { at < length text.now }
    ensures { result ≡ runs mode text.now at }
{
    if is_ordinary(mode, text[at]) {
        return true;
    }
    matches!(begins_at(mode, text, at), Begins::Run)
}

/// Where the bytes that stand for themselves end.
pub(crate) fn run_end(mode: LexMode, text: &[u8], from: usize) -> usize
    requires { from ≤ length text.now }
    ensures { IsRun (runs mode) text.now from result }
{
    let mut end = from;
    while end < text.len() && runs(mode, text, end) {
        end += 1;
    }
    end
}
