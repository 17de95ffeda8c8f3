ghost use Rattle.std.specs.Prelude.{length};
ghost use Rattle.var_types.specs.Rows.{cell_at};

use crate::{RefFault, resolve};
use ksh_base::{Items, Name};
use std::alloc::Global;
use std::collections::BTreeMap;
use std::test::Fail;
use var_types::{Attrs, Cell, Cells, HookSet, Path, Step, Value};

/// Rows made by hand.
#[derive(Drop)]
struct Rows {
    map: BTreeMap<Path, Cell<u8>>,
}

impl Cells<u8> for Rows {
    ghost rows = { λ r. r.map.entries };

    fn cell(&self, path: &Path) -> Option<&Cell<u8>> {
        self.map.get(path)
    }

    fn count(&self) -> usize {
        self.map.len()
    }
}

/// A path that a text writes: a name of one letter, and members of one letter each.
fn path(alloc: Global, text: &[u8]) -> Result<Path, Fail> {
    let (front, letters) = text.split_at(text.len().min(1));
    let mut steps = Items::new(alloc);
    for letter in letters {
        steps.push(Step::Member(Name::read(alloc, &[*letter])?))?;
    }
    Ok(Path {
        scope: 0,
        name: Name::read(alloc, front)?,
        steps,
    })
}

/// What stands before the first such byte, and behind it if it is there.
fn cut(text: &[u8], at: u8) -> (&[u8], Option<&[u8]>) {
    match text.iter().position(|byte| *byte == at) {
        Some(end) => (&text[..end], Some(&text[end + 1..])),
        None => (text, None),
    }
}

/// The value of a row: a reference where a path is given, without a target where that has no bytes.
fn value(alloc: Global, target: Option<&[u8]>) -> Result<Value, Fail> {
    match target {
        None => Ok(Value::Number(1)),
        Some(text) => {
            if text.is_empty() {
                Ok(Value::NoReference)
            } else {
                Ok(Value::Reference(path(alloc, text)?))
            }
        }
    }
}

/// Rows that words write: a path, and for a reference `:` and its target.
fn made(alloc: Global, words: &[u8]) -> Result<Rows, Fail> {
    let mut map = BTreeMap::new(alloc);
    let mut left = Some(words);
    for _ in 0..words.len() + 1 {
        if let Some(text) = left {
            let (word, rest) = cut(text, b' ');
            let (row, target) = cut(word, b':');
            let cell = Cell {
                attrs: Attrs::none(),
                value: value(alloc, target)?,
                hooks: HookSet::none(),
            };
            map.insert(path(alloc, row)?, cell)?;
            left = rest;
        }
    }
    Ok(Rows { map })
}

/// Whether a path stands for steps below another path.
fn stands_for(
    alloc: Global,
    words: &[u8],
    from: &[u8],
    base: &[u8],
    rest: &[u8],
) -> Result<bool, Fail> {
    let cells = made(alloc, words)?;
    let from = path(alloc, from)?;
    let base = path(alloc, base)?;
    let rest = path(alloc, rest)?;
    Ok(match resolve(alloc, &cells, &from) {
        Ok(found) => *found.base == base && found.rest == rest.steps.as_slice(),
        Err(_) => false,
    })
}

/// Whether a path stands for nothing, because of that fault.
fn faults(alloc: Global, words: &[u8], from: &[u8], fault: RefFault) -> Result<bool, Fail> {
    let cells = made(alloc, words)?;
    let from = path(alloc, from)?;
    Ok(match resolve(alloc, &cells, &from) {
        Ok(_) => false,
        Err(found) => found == fault,
    })
}

#[test]
fn paths_that_are_no_references(rt: HostRuntime) -> Result<(), Fail> {
    let alloc = rt.alloc();
    assert!(rt; stands_for(alloc, b"a", b"a", b"a", b"x")?);
    assert!(rt; stands_for(alloc, b"a", b"b", b"b", b"x")?);
    assert!(rt; stands_for(alloc, b"a ab", b"abc", b"abc", b"x")?);
    Ok(())
}

#[test]
fn chains(rt: HostRuntime) -> Result<(), Fail> {
    let alloc = rt.alloc();
    assert!(rt; stands_for(alloc, b"r:a", b"r", b"a", b"x")?);
    assert!(rt; stands_for(alloc, b"a q:a r:q", b"r", b"a", b"x")?);
    assert!(rt; stands_for(alloc, b"p:a q:p r:q s:r", b"sbc", b"a", b"xbc")?);
    assert!(rt; stands_for(alloc, b"r:ab ab:c", b"rd", b"c", b"xd")?);
    Ok(())
}

#[test]
fn the_longest_front_is_followed(rt: HostRuntime) -> Result<(), Fail> {
    let alloc = rt.alloc();
    assert!(rt; stands_for(alloc, b"r:a rb:c", b"rbd", b"c", b"xd")?);
    assert!(rt; stands_for(alloc, b"r:a rb:c", b"rd", b"a", b"xd")?);
    assert!(rt; stands_for(alloc, b"r: rb:c", b"rb", b"c", b"x")?);
    Ok(())
}

/// A reference before the target's last step isn't followed, nor one at a step behind the front.
#[test]
fn only_the_very_target_is_followed(rt: HostRuntime) -> Result<(), Fail> {
    let alloc = rt.alloc();
    assert!(rt; stands_for(alloc, b"r:ab a:c", b"r", b"ab", b"x")?);
    assert!(rt; stands_for(alloc, b"r:a ab:c", b"rb", b"a", b"xb")?);
    Ok(())
}

#[test]
fn loops(rt: HostRuntime) -> Result<(), Fail> {
    let alloc = rt.alloc();
    assert!(rt; faults(alloc, b"r:r", b"r", RefFault::Loop)?);
    assert!(rt; faults(alloc, b"q:r r:q", b"rb", RefFault::Loop)?);
    assert!(rt; faults(alloc, b"p:q q:r r:q a b c", b"p", RefFault::Loop)?);
    assert!(rt; faults(alloc, b"r:ab ab:r", b"abc", RefFault::Loop)?);
    Ok(())
}

#[test]
fn no_target(rt: HostRuntime) -> Result<(), Fail> {
    let alloc = rt.alloc();
    assert!(rt; faults(alloc, b"r:", b"r", RefFault::NoTarget)?);
    assert!(rt; faults(alloc, b"r:", b"rbc", RefFault::NoTarget)?);
    assert!(rt; faults(alloc, b"p: q:p r:q", b"r", RefFault::NoTarget)?);
    assert!(rt; faults(alloc, b"r:a rb:", b"rb", RefFault::NoTarget)?);
    Ok(())
}
