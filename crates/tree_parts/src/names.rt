//! Names and paths.
ghost use Rattle.std.specs.Prelude.{◌≡◌, ◌≤◌, ◌<◌, ◌+◌, ◌++◌, ◌∷◌, [], true, false, drop, take, length, map, IfOk, IfSome, OnOk, MatchOption};
ghost use Rattle.ksh_ast.specs.declared.tree.TreePart.TheVariants as part;
ghost use Rattle.ksh_kinds.specs.Words.{path_front};
ghost use Rattle.ksh_lexer.specs.Bytes.{in_name, starts_name};
ghost use Rattle.tree_parts.specs.Literals.{from_place};
ghost use Rattle.tree_parts.specs.Parts.{all_names, are_in_name, between_dots, is_name, names_of, path_of, path_word, prefix_of, with_part_text, with_parts_text};

use crate::arithmetic::plain_text;
use crate::literals::{add_literal, add_pieces, literal_word};
use crate::queue::Queue;
use crate::sign::Sign;
use ksh_ast::{TreePart, TreePath, Word};
use ksh_base::{Items, Memory, Name, NameFault, Text};
use std::alloc::Global;

/// The bytes of a token from a place of the script on; none where the token ends before.
#[tactic(auto, using(crate::proofs::Pieces::dropped_all))]
pub fn from_place(sign: Sign, at: usize, bytes: &[u8]) -> &[u8]
    ensures { result.now ≡ from_place sign at bytes.now }
{
    let front = at.saturating_sub(sign.from);
    if front > bytes.len() {
        return &bytes[bytes.len()..];
    }
    &bytes[front..]
}

/// The name that the bytes are; nothing exactly where they are none.
#[tactic(auto, using(crate::proofs::Naming::no_bytes))]
pub fn name_of(alloc: Global, bytes: &[u8]) -> Result<Option<Name>, Memory>
    ensures { IfOk result (λ o. MatchOption o (is_name bytes.now ≡ false) (λ n. (n ≡ bytes.now) × (is_name bytes.now ≡ true))) }
{
    match Name::read(alloc, bytes) {
        Ok(name) => Ok(Some(name)),
        Err(NameFault::Memory) => Err(Memory),
        Err(NameFault::Empty) => Ok(None),
        Err(NameFault::BadByte(_)) => Ok(None),
    }
}

/// Where the first dot stands.
fn dot_place(bytes: &[u8]) -> Option<usize>
    ensures place { MatchOption result (between_dots bytes.now ≡ bytes.now ∷ []) (λ i. between_dots bytes.now ≡ take i bytes.now ∷ between_dots (drop (i + 1) bytes.now)) }
    ensures within { IfSome result (λ i. i < length bytes.now) }
{
    for (i, byte) in bytes.iter().enumerate() {
        if *byte == b'.' {
            return Some(i);
        }
    }
    None
}

/// The names with those behind them that the bytes are.
#[tactic(auto, using(crate::proofs::Naming::bad_first, crate::proofs::Naming::one_more_name, crate::proofs::Naming::last_name))]
fn names_behind(
    alloc: Global,
    names: Items<Name>,
    bytes: &[u8],
) -> Result<Option<Items<Name>>, Memory>
    ensures { IfOk result (λ o. MatchOption o (all_names (between_dots bytes.now) ≡ false) (λ ns. (ns ≡ names ++ between_dots bytes.now) × (all_names (between_dots bytes.now) ≡ true))) }
{
    let mut found = names;
    let mut rest = bytes;
    while let Some(at) = dot_place(rest) {
        match name_of(alloc, &rest[..at])? {
            Some(name) => found.push(name)?,
            None => return Ok(None),
        }
        rest = &rest[at + 1..];
    }
    match name_of(alloc, rest)? {
        Some(name) => {
            found.push(name)?;
            Ok(Some(found))
        }
        None => Ok(None),
    }
}

fn are_in_name(bytes: &[u8]) -> bool
    ensures { result ≡ are_in_name bytes.now }
{
    for byte in bytes {
        if !in_name(*byte) {
            return false;
        }
    }
    true
}

fn is_name(bytes: &[u8]) -> bool
    ensures { result ≡ is_name bytes.now }
{
    if bytes == b".sh".as_slice() {
        return true;
    }
    match bytes.split_first() {
        Some((first, rest)) => starts_name(*first) && are_in_name(rest),
        None => false,
    }
}

/// Whether bytes are names with dots between them.
#[tactic(auto, using(crate::proofs::Naming::bad_first, crate::proofs::Naming::one_more_name, crate::proofs::Naming::last_name))]
fn are_between_dots(bytes: &[u8]) -> bool
    ensures { result ≡ all_names (between_dots bytes.now) }
{
    let mut rest = bytes;
    while let Some(at) = dot_place(rest) {
        if !is_name(&rest[..at]) {
            return false;
        }
        rest = &rest[at + 1..];
    }
    is_name(rest)
}

/// Whether bytes are a path.
pub(crate) fn are_names(bytes: &[u8]) -> bool
    ensures { result ≡ all_names (names_of bytes.now) }
{
    match bytes {
        [b'.', b's', b'h', b'.', rest @ ..] => are_between_dots(rest),
        _ => are_between_dots(bytes),
    }
}

/// The names of a path, of which `.sh` is one; nothing exactly where a part of it is no name.
pub fn names_of(alloc: Global, bytes: &[u8]) -> Result<Option<Items<Name>>, Memory>
    ensures { IfOk result (λ o. MatchOption o (all_names (names_of bytes.now) ≡ false) (λ ns. (ns ≡ names_of bytes.now) × (all_names (names_of bytes.now) ≡ true))) }
{
    let mut names = Items::new(alloc);
    match bytes {
        [b'.', b's', b'h', b'.', rest @ ..] => match name_of(alloc, &bytes[..3])? {
            Some(name) => {
                names.push(name)?;
                match names_behind(alloc, names, rest)? {
                    Some(all) => Ok(Some(all)),
                    None => Ok(None),
                }
            }
            None => Ok(None),
        },
        _ => names_behind(alloc, names, bytes),
    }
}

/// The members of these names.
fn members(alloc: Global, names: Queue<Name>) -> Result<Items<TreePart>, Memory>
    ensures { IfOk result (λ ps. ps ≡ map part.Member names) }
{
    let mut left = names;
    let mut parts = Items::new(alloc);
    while let Some(name) = left.next() {
        parts.push(TreePart::Member(name))?;
    }
    Ok(parts)
}

/// The path that the bytes are; nothing exactly where a part of it is no name.
#[tactic(auto, using(crate::proofs::Naming::some_names))]
pub fn path_of(alloc: Global, bytes: &[u8]) -> Result<Option<TreePath>, Memory>
    ensures { IfOk result (λ o. MatchOption o (all_names (names_of bytes.now) ≡ false) (λ p. (p ≡ path_of bytes.now) × (all_names (names_of bytes.now) ≡ true))) }
{
    let Some(names) = names_of(alloc, bytes)? else {
        return Ok(None);
    };
    let mut names = Queue::of(alloc, names)?;
    let Some(name) = names.next() else {
        return Ok(None);
    };
    let parts = members(alloc, names)?;
    Ok(Some(TreePath { name, parts }))
}

pub(crate) fn starts_name(byte: u8) -> bool
    ensures { result ≡ starts_name byte }
{
    byte.is_ascii_alphabetic() || byte == b'_'
}

fn in_name(byte: u8) -> bool
    ensures { result ≡ in_name byte }
{
    starts_name(byte) || byte.is_ascii_digit()
}

/// How many bytes in front may stand in a path.
fn path_length(bytes: &[u8]) -> usize
    ensures count { result ≡ length (path_front bytes.now) }
    ensures front { take result bytes.now ≡ path_front bytes.now }
    ensures within { result ≤ length bytes.now }
{
    for (i, byte) in bytes.iter().enumerate() {
        if !(in_name(*byte) || *byte == b'.') {
            return i;
        }
    }
    bytes.len()
}

/// The bytes before the first that stands in no path.
pub fn path_front(bytes: &[u8]) -> &[u8]
    ensures { result.now ≡ path_front bytes.now }
{
    &bytes[..path_length(bytes)]
}

/// The bytes from the first on that stands in no path.
pub(crate) fn behind_path(bytes: &[u8]) -> &[u8]
    ensures { result.now ≡ drop (length (path_front bytes.now)) bytes.now }
{
    &bytes[path_length(bytes)..]
}

/// Puts `.name` behind pieces.
fn add_member(alloc: Global, pieces: &mut Word, name: Name) -> Result<(), Memory>
    ensures { OnOk result (pieces.new ≡ with_part_text pieces.old (part.Member name)) }
{
    let mut text = Text::of(alloc, b".")?;
    text.append(name.text().bytes())?;
    add_literal(alloc, pieces, text.bytes(), false)
}

/// Puts a part of a path behind pieces, as it is written.
fn add_part(alloc: Global, pieces: &mut Word, part: TreePart) -> Result<(), Memory>
    ensures { OnOk result (pieces.new ≡ with_part_text pieces.old part) }
{
    match part {
        TreePart::Member(name) => add_member(alloc, pieces, name),
        TreePart::Sub(word) => {
            add_literal(alloc, pieces, b"[", false)?;
            add_pieces(alloc, pieces, word)?;
            add_literal(alloc, pieces, b"]", false)
        }
        TreePart::Each => add_literal(alloc, pieces, b"[@]", false),
        TreePart::Joined => add_literal(alloc, pieces, b"[*]", false),
    }
}

/// The word that a path is where no assignment follows.
pub fn path_word(alloc: Global, path: TreePath) -> Result<Word, Memory>
    ensures { IfOk result (λ w. w ≡ path_word path) }
{
    let TreePath { name, parts } = path;
    let front = literal_word(alloc, name.text().bytes(), false)?;
    with_parts(alloc, front, parts)
}

/// The bytes with which the names begin that `${!path@}` gives: the path as it is written. Where an expansion stands in it, no name
/// begins so.
pub fn prefix_of(alloc: Global, path: TreePath) -> Result<Text, Memory>
    ensures { IfOk result (λ text. text ≡ prefix_of path) }
{
    let mut name = path.name.text().copy(alloc)?;
    let word = path_word(alloc, path)?;
    if let Some(bytes) = plain_text(word.as_slice()) {
        return Text::of(alloc, bytes);
    }
    name.append(b"[")?;
    Ok(name)
}

/// The pieces with parts of a path behind them.
fn with_parts(alloc: Global, front: Word, parts: Items<TreePart>) -> Result<Word, Memory>
    ensures { IfOk result (λ w. w ≡ with_parts_text front parts) }
{
    let mut pieces = front;
    let mut left = Queue::of(alloc, parts)?;
    while let Some(part) = left.next() {
        add_part(alloc, &mut pieces, part)?;
    }
    Ok(pieces)
}
