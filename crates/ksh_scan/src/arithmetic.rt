//! Arithmetic texts that are parsed with the script.
ghost use Rattle.std.specs.Prelude.{◌≡◌, ◌≤◌, IfOk, IfSome, length};
ghost use Rattle.ksh_arith.specs.Grammar.{is_blank};
ghost use Rattle.ksh_lexer.specs.Place.{longest_text};
ghost use Rattle.ksh_scan.specs.Openings.{innermost};
ghost use Rattle.ksh_scan.specs.Seeing.{text_of};
ghost use Rattle.ksh_scan.specs.Arithmetic.{Told, arithmetic_fault, bad_arithmetic, ends_arithmetic, expands, expression_fault, fault_within, in_text, is_all_blank, is_close, is_expanding, is_join, is_loop, joined, place_of};

use crate::after::slice;
use crate::opening::{innermost, is_separator};
use crate::see::Seen;
use crate::state::State;
use ksh_arith::{ArithRefused, parse_arith};
use ksh_base::{Memory, Text};
use ksh_lexer::SyntaxKind;
use ksh_syntax::{Kind, Mode};
use std::alloc::Global;

/// `$`, a backquote or a quote.
fn is_expanding(byte: u8) -> bool
    ensures { result ≡ is_expanding byte }
{
    byte == b'$' || byte == b'`' || byte == b'"' || byte == b'\''
}

/// Whether the text is expanded when it runs, and parsed then.
fn expands(text: &[u8]) -> bool
    ensures { result ≡ expands text.now }
{
    for byte in text {
        if is_expanding(*byte) {
            return true;
        }
    }
    false
}

fn is_blank(byte: u8) -> bool
    ensures { result ≡ is_blank byte }
{
    byte == b' ' || byte == b'\t' || byte == b'\n'
}

fn is_all_blank(text: &[u8]) -> bool
    ensures { result ≡ is_all_blank text.now }
{
    for byte in text {
        if !is_blank(*byte) {
            return false;
        }
    }
    true
}

fn is_join(first: u8, second: u8) -> bool
    ensures { result ≡ is_join first second }
{
    first == b'\\' && second == b'\n'
}

/// The text without the backslashes that stand before a newline, and those newlines.
fn joined(alloc: Global, text: &[u8]) -> Result<Text, Memory>
    ensures { IfOk result (λ t. t ≡ joined text.now) }
{
    let mut kept = Text::empty(alloc);
    let mut rest = text;
    while let Some((first, behind)) = rest.split_first() {
        let Some((second, more)) = behind.split_first() else {
            kept.push(*first)?;
            return Ok(kept);
        };
        if is_join(*first, *second) {
            rest = more;
        } else {
            kept.push(*first)?;
            rest = behind;
        }
    }
    Ok(kept)
}

/// Where the byte stands in the text that has so many before it in what is joined; the end where there are no more.
fn place_of(text: &[u8], count: usize) -> usize
    ensures place { result ≡ place_of text.now count }
    ensures within { result ≤ length text.now }
{
    let mut place = 0;
    let mut left = count;
    let mut rest = text;
    while let Some((first, behind)) = rest.split_first() {
        let Some((second, more)) = behind.split_first() else {
            return if left == 0 { place } else { place + 1 };
        };
        if is_join(*first, *second) {
            place += 2;
            rest = more;
        } else if left == 0 {
            return place;
        } else {
            place += 1;
            left -= 1;
            rest = behind;
        }
    }
    place
}

/// The fault of an expression, which may be left out or not.
fn expression_fault(
    alloc: Global,
    optional: bool,
    text: &[u8],
) -> Result<Option<(SyntaxKind, usize)>, Memory>
    ensures { IfOk result (λ told. told ≡ expression_fault optional text.now) }
{
    if optional && is_all_blank(text) {
        return Ok(None);
    }
    match parse_arith(alloc, text) {
        Ok(_) => Ok(None),
        Err(ArithRefused::Bad(byte)) => Ok(Some((SyntaxKind::BadArithmetic, byte))),
        Err(ArithRefused::TooDeep(byte)) => Ok(Some((SyntaxKind::TooDeep, byte))),
        Err(ArithRefused::Memory) => Err(Memory),
    }
}

/// The fault of an arithmetic text, which may be left out or not.
fn arithmetic_fault(
    alloc: Global,
    optional: bool,
    text: &[u8],
) -> Result<Option<(SyntaxKind, usize)>, Memory>
    ensures fault { IfOk result (λ told. told ≡ arithmetic_fault optional text.now) }
    ensures within { IfOk result (λ told. IfSome told (λ (t : Told). t.1 ≤ length text.now)) }
{
    if expands(text) {
        return Ok(None);
    }
    let joined = joined(alloc, text)?;
    match expression_fault(alloc, optional, joined.bytes())? {
        Some((kind, byte)) => Ok(Some((kind, place_of(text, byte)))),
        None => Ok(None),
    }
}

fn is_close(kind: Kind) -> bool
    ensures { result ≡ is_close kind }
{
    matches!(kind, Kind::Close)
}

/// Whether an arithmetic text ends there: `))` ends one, and `;` those of `for` but the last.
fn ends_arithmetic(mode: Mode, kind: Kind) -> bool
    ensures { result ≡ ends_arithmetic mode kind }
{
    match mode {
        Mode::Arithmetic => is_close(kind),
        Mode::LoopArithmetic => is_separator(kind),
        _ => false,
    }
}

fn is_loop(mode: Mode) -> bool
    ensures { result ≡ is_loop mode }
{
    matches!(mode, Mode::LoopArithmetic)
}

impl<'a> State<'a> {
    /// The fault of the arithmetic text that the token ends, and its byte: none where the text is an expression, or is expanded
    /// when it runs.
    pub(crate) fn bad_arithmetic(
        &self,
        alloc: Global,
        mode: Mode,
        seen: Seen,
    ) -> Result<Option<(SyntaxKind, u32)>, Memory>
        requires { (seen.token.from ≤ seen.token.to) × (seen.token.to ≤ longest_text) }
        ensures { IfOk result (λ told. told ≡ bad_arithmetic self.now mode seen) }
    {
        if !ends_arithmetic(mode, seen.kind) {
            return Ok(None);
        }
        self.fault_within(alloc, mode, seen.token.from)
    }

    #[tactic(auto, using(crate::proofs::Expressions::slice_small))]
    fn fault_within(
        &self,
        alloc: Global,
        mode: Mode,
        end: usize,
    ) -> Result<Option<(SyntaxKind, u32)>, Memory>
        requires { end ≤ longest_text }
        ensures { IfOk result (λ told. told ≡ fault_within (text_of self.now) mode end (innermost self.now.source.openings)) }
    {
        let Some(opening) = innermost(self.source.openings.as_slice()) else {
            return Ok(None);
        };
        let text = slice(self.source.lexer.text(), opening.part as usize, end);
        let optional = is_loop(mode) || opening.is_later;
        match arithmetic_fault(alloc, optional, text)? {
            Some((kind, byte)) => Ok(Some((kind, opening.part + byte as u32))),
            None => Ok(None),
        }
    }
}
