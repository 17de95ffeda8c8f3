//! Expressions, one a line of the input, and the value of each or its fault. Each is evaluated on a stack as large as a shell's.
#![tactic(auto)]

use arith_tree::{ArithExpr, ArithPath};
use ksh_arith::{ArithFault, ArithRefused, VarAnswer, VarAsk, eval_arith, parse_arith};
use ksh_base::{Memory, Text};
use std::alloc::Global;
use std::thread::Builder;

/// The stack of a thread that runs a shell, in bytes.
const STACK_SIZE: usize = 8 * 1024 * 1024;

/// What becomes of an expression.
#[derive(Clone, Copy, Debug, PartialEq, Eq)]
enum Outcome {
    Value(i64),
    Bad(usize),
    TooDeep(usize),
    Fault,
    Memory,
}

/// The name behind as many openings as a text may have, and before as many closings.
fn around(alloc: Global, open: &[u8], name: &[u8], close: &[u8]) -> Result<Text, Memory> {
    let mut text = Text::empty(alloc);
    for _ in 0..255 {
        text.append(open)?;
    }
    text.append(name)?;
    for _ in 0..255 {
        text.append(close)?;
    }
    Ok(text)
}

/// What a variable holds that is read while so many texts are being read. Most are not set. In what `signs` and `nested` hold, the
/// same variable stands again, 256 levels deep, and in the sixteenth such text it is 7; `endless` never comes to an end.
fn held(alloc: Global, name: &[u8], depth: u32) -> Result<VarAnswer, Memory> {
    if name == b"endless".as_slice() {
        return Ok(VarAnswer::Plain(around(alloc, b"- ", b"endless", b"")?));
    }
    if depth >= 16 {
        return Ok(VarAnswer::Number(7));
    }
    if name == b"signs".as_slice() {
        return Ok(VarAnswer::Plain(around(alloc, b"- ", b"signs", b"")?));
    }
    if name == b"nested".as_slice() {
        return Ok(VarAnswer::Plain(around(alloc, b"(", b"nested", b")")?));
    }
    Ok(VarAnswer::Plain(Text::empty(alloc)))
}

fn value(alloc: Global, expr: &ArithExpr) -> Outcome {
    let mut vars = |_rest: &mut (), _state: &mut (), path: &ArithPath, _what: VarAsk, depth: u32| -> Result<
        VarAnswer,
        Memory,
    > { held(alloc, path.name.text().bytes(), depth) };
    match eval_arith(alloc, expr, &mut (), &mut (), &mut vars, 0) {
        Ok(value) => Outcome::Value(value),
        Err(ArithFault::Value(_)) => Outcome::Fault,
        Err(_) => Outcome::Memory,
    }
}

fn read_and_evaluate(alloc: Global, text: &[u8]) -> Outcome {
    match parse_arith(alloc, text) {
        Ok(expr) => value(alloc, &expr),
        Err(ArithRefused::Bad(byte)) => Outcome::Bad(byte),
        Err(ArithRefused::TooDeep(byte)) => Outcome::TooDeep(byte),
        Err(ArithRefused::Memory) => Outcome::Memory,
    }
}

fn main(rt: HostRuntime) -> anyhow::Result<()> {
    let alloc = rt.alloc();
    for line in rt.lines(alloc) {
        let line = line?;
        let thread = Builder::new().stack_size(STACK_SIZE);
        let work = thread.spawn(&rt, move || {
            let outcome = read_and_evaluate(alloc, line.as_str().as_bytes());
            (line, outcome)
        })?;
        let (line, outcome) = work.join(&rt);
        let text = line.as_str();
        match outcome {
            Outcome::Value(value) => println!(rt; "{text}: {value}")?,
            Outcome::Bad(byte) => println!(rt; "{text}: bad at {byte}")?,
            Outcome::TooDeep(byte) => println!(rt; "{text}: too deep at {byte}")?,
            Outcome::Fault => println!(rt; "{text}: fault")?,
            Outcome::Memory => println!(rt; "{text}: out of memory")?,
        }
    }
    Ok(())
}
