// A table has a row a line: the shell, what it does, and after a colon the answer. The shell 0 is the root, another
// number its fork of that number. A word is told from the next by a space. A row without a colon is a remark.
mod asks;
mod forks;
mod limits;
mod plans;
mod rows;
mod shown;

use asks::{act, own};
use kernel_core::Kernel;
use kernel_objects::BoxPlan;
use ksh_base::{Memory, ShellName};
use shown::{text, word};
use std::alloc::Global;
use std::test::Fail;

// What stands before the first such byte, and behind it.
fn cut(text: &[u8], at: u8) -> (&[u8], &[u8]) {
    match text.iter().position(|byte| *byte == at) {
        Some(end) => (&text[..end], &text[end + 1..]),
        None => (text, &text[text.len()..]),
    }
}

// The number that the digits are.
fn number(digits: &[u8]) -> u32 {
    let mut number = 0u32;
    for digit in digits {
        number = number
            .wrapping_mul(10)
            .wrapping_add(u32::from(digit.wrapping_sub(b'0')));
    }
    number
}

fn shell(alloc: Global, digits: &[u8]) -> Result<ShellName, Memory> {
    let root = ShellName::root(alloc);
    if digits == b"0".as_slice() {
        return Ok(root);
    }
    root.child(alloc, number(digits))
}

// What a shell is answered, as a table says it.
fn answered(alloc: Global, kernel: &mut Kernel, row: &[u8]) -> Result<Vec<u8>, Fail> {
    let (digits, does) = cut(row, b' ');
    let who = shell(alloc, digits)?;
    if !kernel.lives(&who) {
        return Ok(word(alloc, b"gone")?);
    }
    if let Some(said) = own(kernel, &who, does) {
        return Ok(word(alloc, said)?);
    }
    match act(alloc, kernel, &who, does)? {
        Some(answer) => text(alloc, &answer),
        None => Ok(word(alloc, b"waits")?),
    }
}

fn is_so(alloc: Global, kernel: &mut Kernel, row: &[u8]) -> Result<bool, Fail> {
    let (does, wanted) = cut(row, b':');
    if wanted.is_empty() {
        return Ok(true);
    }
    let said = answered(alloc, kernel, does)?;
    Ok(said.as_slice() == &wanted[1..])
}

// The first row that is answered otherwise, counted from 1; 0 for none.
fn differs(alloc: Global, kernel: &mut Kernel, table: &[u8]) -> Result<usize, Fail> {
    let mut rows = table;
    for at in 0..table.len() {
        let (row, rest) = cut(rows, b'\n');
        rows = rest;
        if !is_so(alloc, kernel, row)? {
            return Ok(at + 1);
        }
    }
    Ok(0)
}

fn standard(alloc: Global) -> Result<Kernel, Fail> {
    let plan = BoxPlan::standard(alloc)?;
    Ok(Kernel::new(alloc, plan)?)
}

// How many rows the usual box answers otherwise: the first, counted from 1, or 0.
fn differs_at(alloc: Global, table: &[u8]) -> Result<usize, Fail> {
    let mut kernel = standard(alloc)?;
    differs(alloc, &mut kernel, table)
}
