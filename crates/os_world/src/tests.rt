// The program's words over listed arguments.
use crate::{SystemWords, program_words};
use ksh_base::{Memory, Text};
use std::alloc::Global;
use std::env::{Env, FillError};
use std::test::Fail;

// A program called with these arguments, its name first.
#[derive(Drop)]
struct Called<'a> {
    arguments: &'a [&'a [u8]],
}

impl<'a> Env for Called<'a> {
    fn arg(&self, i: usize, buf: &mut [u8]) -> Result<usize, FillError> {
        let Some(argument) = self.arguments.get(i) else {
            return Err(FillError::NotPresent);
        };
        if argument.len() > buf.len() {
            return Err(FillError::TooLong);
        }
        buf[..argument.len()].copy_from_slice(argument);
        Ok(argument.len())
    }

    fn var(&self, _name: &str, _buf: &mut [u8]) -> Result<usize, FillError> {
        Err(FillError::NotPresent)
    }

    fn var_at(&self, _i: usize, _buf: &mut [u8]) -> Result<usize, FillError> {
        Err(FillError::NotPresent)
    }
}

// The words of a program that is called so, each ended by `|`.
fn words(alloc: Global, arguments: &[&[u8]]) -> Result<Text, Memory> {
    let found = program_words(&SystemWords::new(Called { arguments }), alloc)?;
    let mut text = Text::empty(alloc);
    for word in found.as_slice() {
        text.append(word.bytes())?;
        text.push(b'|')?;
    }
    Ok(text)
}

#[test]
fn words_follow_the_name(rt: HostRuntime) -> Result<(), Fail> {
    let alloc = rt.alloc();
    assert!(rt; words(alloc, &[])?.is_empty());
    assert!(rt; words(alloc, &[b"kshtree"])?.is_empty());
    let said = words(alloc, &[b"kshtree", b"-c", b"", b"print \xff"])?;
    assert!(rt; said.bytes() == b"-c||print \xff|".as_slice());
    Ok(())
}
