ghost use Rattle.std.specs.Prelude.{◌≡◌, ◌<◌};

use crate::{assign, word_text};
use ksh_base::{Items, Memory, Name, Text};
use ksh_script::{Assign, Piece, Word};
use shell_state::{ShellState, Vars, named};
use std::alloc::Global;
use std::marker::Brand;
use std::sync::ledger::{Blank, Ledger};
use std::test::Fail;
use tree_steps::Steps;
use var_store::VarFault;
use var_types::{Attrs, Value};

fn plain(alloc: Global, text: &[u8]) -> Result<Word, Memory> {
    let mut pieces = Items::new(alloc);
    pieces.push(Piece::Literal {
        text: Text::of(alloc, text)?,
    })?;
    Ok(Word { pieces })
}

fn value_of(alloc: Global, name: &[u8]) -> Result<Word, Memory> {
    let mut pieces = Items::new(alloc);
    pieces.push(Piece::Value {
        name: Name::read(alloc, name).map_err(|_| Memory)?,
    })?;
    Ok(Word { pieces })
}

fn given(alloc: Global, name: &[u8], text: &[u8]) -> Result<Assign, Memory> {
    Ok(Assign {
        name: Name::read(alloc, name).map_err(|_| Memory)?,
        value: plain(alloc, text)?,
    })
}

/// Declares a variable with these attributes and no value.
fn declare<L: Ledger>(
    vars: &mut Vars,
    alloc: Global,
    name: &[u8],
    attrs: Attrs,
    blank: Blank,
) -> Result<(), VarFault>
    requires name { blank.name ≡ L.name }
    requires parts { blank.parts ≡ L.parts }
    requires some { 0 < L.parts }
{
    let name = Name::read(alloc, name).map_err(|_| Memory)?;
    let path = named(alloc, &name)?;
    vars.declare(&path, attrs, Value::Unset, &mut Steps::<L>::open(blank))
}

fn declared(vars: &mut Vars, alloc: Global, name: &[u8], attrs: Attrs) -> Result<(), VarFault> {
    declare::<Brand>(vars, alloc, name, attrs, Blank::new(1))
}

fn shows(alloc: Global, state: &ShellState, name: &[u8], text: &[u8]) -> Result<bool, Memory> {
    let word = value_of(alloc, name)?;
    Ok(word_text(alloc, &state.vars, &word)?.bytes() == text)
}

/// What stands before a read-only variable is given, and it and what stands behind it aren't.
#[test]
fn a_refused_assignment_is_the_last(rt: HostRuntime) -> Result<(), Fail> {
    let alloc = rt.alloc();
    let mut state = ShellState::root(alloc, 10)?;
    state.status = 7;
    let locked = Attrs {
        readonly: true,
        ..Attrs::none()
    };
    declared(&mut state.vars, alloc, b"c", locked)?;
    let list = [
        given(alloc, b"a", b"1")?,
        given(alloc, b"c", b"2")?,
        given(alloc, b"d", b"3")?,
    ];
    let words = assign(alloc, &mut state, &list)?;
    assert!(rt; words.is_some_and(|words| words.bytes() == b"c: is read only".as_slice()));
    assert!(rt; state.status == 7);
    assert!(rt; shows(alloc, &state, b"a", b"1")?);
    assert!(rt; shows(alloc, &state, b"c", b"")?);
    assert!(rt; shows(alloc, &state, b"d", b"")?);
    Ok(())
}

/// An integer is shown in its base, and takes no text that is no number.
#[test]
fn a_value_is_shown_by_its_attributes(rt: HostRuntime) -> Result<(), Fail> {
    let alloc = rt.alloc();
    let mut state = ShellState::root(alloc, 10)?;
    let integer = Attrs {
        integer: Some(16),
        ..Attrs::none()
    };
    declared(&mut state.vars, alloc, b"n", integer)?;
    let list = [given(alloc, b"n", b"255")?];
    assert!(rt; assign(alloc, &mut state, &list)?.is_none());
    assert!(rt; state.status == 0);
    assert!(rt; shows(alloc, &state, b"n", b"16#ff")?);
    let list = [given(alloc, b"n", b"q")?];
    let words = assign(alloc, &mut state, &list)?;
    assert!(rt; words.is_some_and(|words| words.bytes() == b"n: wrong kind".as_slice()));
    assert!(rt; shows(alloc, &state, b"n", b"16#ff")?);
    Ok(())
}
