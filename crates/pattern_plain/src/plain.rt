//! The definition of a match as a program.
ghost use Rattle.std.specs.Prelude.{◌≡◌, ◌≤◌, ◌&&◌, length, take, drop};
ghost use Rattle.ksh_pattern.specs.Match.{part_matches, matches, one_matches, some_cut, any_number, repeated};

use ksh_base::Items;
use ksh_pattern::{Kind, Part};

/// Whether a part matches a text.
#[cycle(plain)]
fn one(part: &Part, text: &[u8]) -> bool
    ensures { result ≡ part_matches part.now text.now }
{
    match part {
        Part::One(test) => text.len() == 1 && test.accepts(text[0]),
        Part::AnyText => true,
        Part::Group(kind, alternatives) => group(*kind, alternatives.get().as_slice(), text),
    }
}

/// Whether a group does.
#[cycle(plain)]
fn group(kind: Kind, alternatives: &[Items<Part>], text: &[u8]) -> bool
    ensures { result ≡ repeated kind (one_matches alternatives.now) text.now }
{
    match kind {
        Kind::Optional => text.is_empty() || either(alternatives, text),
        Kind::Any => any_number(alternatives, text),
        Kind::Many => one_and_more(alternatives, text),
        Kind::One => either(alternatives, text),
        Kind::Not => !either(alternatives, text),
    }
}

/// Whether one of the alternatives does.
#[cycle(plain)]
fn either(alternatives: &[Items<Part>], text: &[u8]) -> bool
    ensures { result ≡ one_matches alternatives.now text.now }
{
    for parts in alternatives {
        if all(parts.as_slice(), text) {
            return true;
        }
    }
    false
}

/// Whether the alternatives match the text before a cut, and any number of such texts are behind it.
#[cycle(plain)]
fn either_at(alternatives: &[Items<Part>], text: &[u8], cut: usize) -> bool
    requires { cut ≤ length text.now }
    ensures { result ≡ (one_matches alternatives.now (take cut text.now) && any_number (one_matches alternatives.now) (drop cut text.now)) }
{
    let (front, back) = text.split_at(cut);
    either(alternatives, front) && any_number(alternatives, back)
}

/// Whether the text is any number of texts, one after another, that the alternatives match.
#[cycle(plain)]
fn any_number(alternatives: &[Items<Part>], text: &[u8]) -> bool
    ensures { result ≡ any_number (one_matches alternatives.now) text.now }
{
    if text.is_empty() {
        return true;
    }
    let mut cut = 1;
    while cut <= text.len() {
        if either_at(alternatives, text, cut) {
            return true;
        }
        cut += 1;
    }
    false
}

/// Whether it is one such text, and then any number.
#[cycle(plain)]
fn one_and_more(alternatives: &[Items<Part>], text: &[u8]) -> bool
    ensures { result ≡ some_cut (one_matches alternatives.now) (any_number (one_matches alternatives.now)) text.now }
{
    let mut cut = 0;
    while cut <= text.len() {
        if either_at(alternatives, text, cut) {
            return true;
        }
        cut += 1;
    }
    false
}

/// Whether a part matches the text before a cut, and further parts what is behind it.
#[cycle(plain)]
fn all_at(first: &Part, rest: &[Part], text: &[u8], cut: usize) -> bool
    requires { cut ≤ length text.now }
    ensures { result ≡ (part_matches first.now (take cut text.now) && matches rest.now (drop cut text.now)) }
{
    let (front, back) = text.split_at(cut);
    one(first, front) && all(rest, back)
}

/// Whether the parts match the text, one after another. Calls itself once for each of the parts.
#[cycle(plain)]
pub fn all(parts: &[Part], text: &[u8]) -> bool
    ensures { result ≡ matches parts.now text.now }
{
    let Some((first, rest)) = parts.split_first() else {
        return text.is_empty();
    };
    let mut cut = 0;
    while cut <= text.len() {
        if all_at(first, rest, text, cut) {
            return true;
        }
        cut += 1;
    }
    false
}
