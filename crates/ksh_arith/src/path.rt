//! The paths of variables in arithmetic.
ghost use Rattle.std.specs.Prelude.{◌≡◌, ◌≤◌, ◌<◌, ◌+◌, ◌^◌, [], length, IfSome, IfOk};
ghost use Rattle.ksh_arith.specs.Grammar.{Gives, cut, name_read, shell_name, first_name, member_read, subscript_read, bracket_end, inner_after, part_read, higher, parts_read, path_read};
ghost use Rattle.std.specs.Option.{option_map};

use crate::fault::ArithRefused;
use crate::scan::{begins, begins_name, behind, front, name_length};
use arith_tree::{ArithPart, ArithPath};
use ksh_base::{Items, Name, Text};
use std::alloc::Global;

/// So many bytes as a name, and the text behind them.
fn make_name(alloc: Global, text: &[u8], length: usize) -> Result<(Name, &[u8]), ArithRefused>
    ensures { Gives (λ r. (r.0, r.1.now)) result (cut length text.now) }
{
    match Name::read(alloc, front(text, length)) {
        Ok(name) => Ok((name, behind(text, length))),
        Err(_) => Err(ArithRefused::Memory),
    }
}

/// A name, which must begin there, and the text behind it.
#[tactic(auto, unfolding(crate::specs::Grammar::name_read))]
fn read_name(alloc: Global, text: &[u8]) -> Result<(Name, &[u8]), ArithRefused>
    ensures { Gives (λ r. (r.0, r.1.now)) result (name_read text.now) }
{
    if !begins_name(text) {
        return Err(ArithRefused::Bad(text.len()));
    }
    make_name(alloc, text, name_length(text))
}

/// `.sh`, whose dot stands there.
#[tactic(auto, unfolding(crate::specs::Grammar::shell_name))]
fn read_shell_name(alloc: Global, text: &[u8]) -> Result<(Name, &[u8]), ArithRefused>
    ensures { Gives (λ r. (r.0, r.1.now)) result (shell_name text.now) }
{
    let second = behind(text, 1);
    if !begins(b's', second) {
        return Err(ArithRefused::Bad(second.len()));
    }
    let third = behind(text, 2);
    if !begins(b'h', third) {
        return Err(ArithRefused::Bad(third.len()));
    }
    make_name(alloc, text, 3)
}

fn read_first_name(alloc: Global, text: &[u8]) -> Result<(Name, &[u8]), ArithRefused>
    ensures { Gives (λ r. (r.0, r.1.now)) result (first_name text.now) }
{
    if begins(b'.', text) {
        return read_shell_name(alloc, text);
    }
    read_name(alloc, text)
}

/// `.name`, whose dot stands there.
fn read_member(alloc: Global, text: &[u8]) -> Result<(ArithPart, &[u8]), ArithRefused>
    ensures { Gives (λ r. (r.0, r.1.now)) result (member_read text.now) }
{
    match read_name(alloc, behind(text, 1)) {
        Ok((name, rest)) => Ok((ArithPart::Member(name), rest)),
        Err(refused) => Err(refused),
    }
}

/// How many other brackets are open behind a byte, inside one that is open; nothing where the byte closes that one.
fn inner_after(byte: u8, inner: usize) -> Option<usize>
    requires { inner < 2 ^ 63 }
    ensures value { result ≡ inner_after byte inner }
    ensures small { IfSome result (λ n. n ≤ inner + 1) }
{
    if byte == b'[' {
        return Some(inner + 1);
    }
    if byte != b']' {
        return Some(inner);
    }
    inner.checked_sub(1)
}

/// Where the bracket closes that is open before the text.
fn bracket_end(text: &[u8]) -> Option<usize>
    ensures { result ≡ bracket_end text.now 0 }
{
    let mut inner = 0usize;
    let mut at = 0usize;
    let mut rest = text;
    while let Some((first, more)) = rest.split_first() {
        match inner_after(*first, inner) {
            Some(next) => inner = next,
            None => return Some(at),
        }
        at += 1;
        rest = more;
    }
    None
}

/// `[text]`, whose bracket stands there.
fn read_subscript(alloc: Global, text: &[u8]) -> Result<(ArithPart, &[u8]), ArithRefused>
    ensures { Gives (λ r. (r.0, r.1.now)) result (subscript_read text.now) }
{
    let inside = behind(text, 1);
    let Some(end) = bracket_end(inside) else {
        return Err(ArithRefused::Bad(0));
    };
    match Text::of(alloc, front(inside, end)) {
        Ok(subscript) => Ok((ArithPart::Sub(subscript), behind(behind(inside, end), 1))),
        Err(_) => Err(ArithRefused::Memory),
    }
}

/// The part of a path that stands there, if any.
#[tactic(auto, unfolding(crate::specs::Grammar::part_read))]
fn read_part(
    alloc: Global,
    levels: u32,
    text: &[u8],
) -> Result<Option<(ArithPart, &[u8])>, ArithRefused>
    ensures { Gives (λ r. option_map (λ p. (p.0, p.1.now)) r) result (part_read levels text.now) }
{
    if begins(b'.', text) {
        return match read_member(alloc, text) {
            Ok(read) => Ok(Some(read)),
            Err(refused) => Err(refused),
        };
    }
    if !begins(b'[', text) {
        return Ok(None);
    }
    if levels < 2 {
        return Err(ArithRefused::TooDeep(text.len()));
    }
    match read_subscript(alloc, text) {
        Ok(read) => Ok(Some(read)),
        Err(refused) => Err(refused),
    }
}

fn higher(part: &ArithPart, height: u32) -> u32
    ensures value { result ≡ higher part.now height }
    ensures low { height ≤ 2 → result ≤ 2 }
{
    match part {
        ArithPart::Member(_) => height,
        ArithPart::Sub(_) => 2,
    }
}

/// The parts of a path, and how high it is.
fn read_parts(
    alloc: Global,
    levels: u32,
    text: &[u8],
) -> Result<(Items<ArithPart>, u32, &[u8]), ArithRefused>
    ensures means { Gives (λ r. ((r.0, r.1), r.2.now)) result (parts_read (length text.now) levels [] 1 text.now) }
    ensures low { IfOk result (λ r. r.1 ≤ 2) }
{
    let mut parts = Items::new(alloc);
    let mut height = 1;
    let mut rest = text;
    let mut left = text.len();
    while left > 0 {
        match read_part(alloc, levels, rest) {
            Ok(read) => match read {
                Some((part, more)) => {
                    height = higher(&part, height);
                    if parts.push(part).is_err() {
                        return Err(ArithRefused::Memory);
                    }
                    rest = more;
                }
                None => return Ok((parts, height, rest)),
            },
            Err(refused) => return Err(refused),
        }
        left -= 1;
    }
    Ok((parts, height, rest))
}

/// The path that stands there, how high it is, and the text behind it.
#[tactic(auto, unfolding(crate::specs::Grammar::path_read))]
pub fn read_path(
    alloc: Global,
    levels: u32,
    text: &[u8],
) -> Result<(ArithPath, u32, &[u8]), ArithRefused>
    ensures means { Gives (λ r. ((r.0, r.1), r.2.now)) result (path_read levels text.now) }
    ensures low { IfOk result (λ r. r.1 ≤ 2) }
{
    match read_first_name(alloc, text) {
        Ok((name, rest)) => match read_parts(alloc, levels, rest) {
            Ok((parts, height, rest)) => Ok((ArithPath { name, parts }, height, rest)),
            Err(refused) => Err(refused),
        },
        Err(refused) => Err(refused),
    }
}
