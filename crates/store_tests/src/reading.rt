//! Paths, attributes and values as lines write them.
use anyhow::Result;
use ksh_base::{Items, Name, Text};
use std::alloc::Global;
use var_types::{Attrs, HookKind, Path, Step, Value};

/// What stands before the first such mark, and what stands behind it.
pub fn cut(text: &str, mark: char) -> (&str, &str) {
    match text.split_once(mark) {
        Some(parts) => parts,
        None => (text, ""),
    }
}

/// An index where the text is a number, else a key.
fn subscript(alloc: Global, text: &str) -> Result<Step> {
    match text.parse::<u32>() {
        Ok(at) => Ok(Step::Index(at)),
        Err(_) => Ok(Step::Key(Text::of(alloc, text.as_bytes())?)),
    }
}

/// Adds the subscripts of `3][k]`, the first bracket of which was taken.
fn add_subscripts(alloc: Global, steps: &mut Items<Step>, text: &str) -> Result<()> {
    if text.is_empty() {
        return Ok(());
    }
    for part in text.split('[') {
        let (inside, _end) = cut(part, ']');
        steps.push(subscript(alloc, inside)?)?;
    }
    Ok(())
}

/// Adds a member and its subscripts.
fn add_member(alloc: Global, steps: &mut Items<Step>, text: &str) -> Result<()> {
    let (word, subscripts) = cut(text, '[');
    steps.push(Step::Member(Name::read(alloc, word.as_bytes())?))?;
    add_subscripts(alloc, steps, subscripts)
}

fn steps_of(alloc: Global, subscripts: &str, members: &str) -> Result<Items<Step>> {
    let mut steps = Items::new(alloc);
    add_subscripts(alloc, &mut steps, subscripts)?;
    if members.is_empty() {
        return Ok(steps);
    }
    for part in members.split('.') {
        add_member(alloc, &mut steps, part)?;
    }
    Ok(steps)
}

/// A name, its subscripts in brackets, its members behind `.`; `1/` before it for scope 1.
pub fn path(alloc: Global, text: &str) -> Result<Path> {
    let (scope, rest) = match text.split_once('/') {
        Some((number, rest)) => (number.parse::<u32>().unwrap_or(0), rest),
        None => (0, text),
    };
    let (head, members) = cut(rest, '.');
    let (word, subscripts) = cut(head, '[');
    Ok(Path {
        scope,
        name: Name::read(alloc, word.as_bytes())?,
        steps: steps_of(alloc, subscripts, members)?,
    })
}

/// Adds the attribute of a letter; a base or a width stands behind it.
fn add_attribute(attrs: &mut Attrs, word: &str) {
    let Some((letter, number)) = word.split_at_checked(1) else {
        return;
    };
    let width = number.parse::<u32>().unwrap_or(0);
    match letter {
        "i" => attrs.integer = Some(number.parse::<u8>().unwrap_or(10)),
        "u" => attrs.upper = true,
        "l" => attrs.lower = true,
        "L" => attrs.left = Some(width),
        "R" => attrs.right = Some(width),
        "Z" => attrs.zero = Some(width),
        "r" => attrs.readonly = true,
        "x" => attrs.exported = true,
        _ => {}
    }
}

/// Attributes with commas between them; `-` for none.
pub fn attributes(text: &str) -> Attrs {
    let mut attrs = Attrs::none();
    for word in text.split(',') {
        add_attribute(&mut attrs, word);
    }
    attrs
}

/// A kind of value, and behind it what it holds.
pub fn value(alloc: Global, text: &str) -> Result<Value> {
    let (kind, held) = cut(text, ' ');
    Ok(match kind {
        "text" => Value::Plain(Text::of(alloc, held.as_bytes())?),
        "number" => Value::Number(held.parse::<i64>().unwrap_or(0)),
        "compound" => Value::Compound,
        "indexed" => Value::Indexed,
        "associative" => Value::Assoc,
        "reference" => Value::Reference(path(alloc, held)?),
        "targetless" => Value::NoReference,
        "instance" => Value::Instance(Name::read(alloc, held.as_bytes())?),
        _ => Value::Unset,
    })
}

/// What a function is for.
pub fn hook_kind(text: &str) -> HookKind {
    match text {
        "get" => HookKind::Get,
        "set" => HookKind::Set,
        "append" => HookKind::Append,
        _ => HookKind::Unset,
    }
}
