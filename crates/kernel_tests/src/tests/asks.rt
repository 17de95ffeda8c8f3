// What the words of a row ask.
use super::{cut, number};
use kernel_ask::{Answer, Ask, Call, Handle, Mode, Phase, Program};
use kernel_core::Kernel;
use ksh_base::{Items, Memory, ShellName, Text};
use std::alloc::Global;

// Marks the last fork, where that may be.
fn mark(kernel: &mut Kernel, who: &ShellName, child: u32, begun: bool) -> bool {
    let may = kernel.lives(who)
        && kernel.forks(who) == child as usize
        && kernel.phase(who, child) == Some(Phase::Made);
    if may {
        kernel.mark(who, child, begun);
    }
    may
}

// Waits for a fork, where that may be.
fn wait(kernel: &mut Kernel, who: &ShellName, child: u32) -> &'static [u8] {
    if !kernel.lives(who) || kernel.phase(who, child) != Some(Phase::Begun) {
        return b"no";
    }
    if kernel.waited(who, child, 7) {
        b"ended"
    } else {
        b"waits"
    }
}

fn end(kernel: &mut Kernel, who: &ShellName) -> &'static [u8] {
    if kernel.lives(who) {
        kernel.end(who);
    }
    b"ended"
}

fn phase(kernel: &Kernel, who: &ShellName, child: u32) -> &'static [u8] {
    match kernel.phase(who, child) {
        Some(Phase::Made) => b"made",
        Some(Phase::Begun) => b"begun",
        Some(Phase::Unrun) => b"unrun",
        Some(Phase::Waited) => b"waited",
        None => b"none",
    }
}

fn said(done: bool) -> &'static [u8] {
    if done { b"done" } else { b"no" }
}

// What a call of the kernel that is no ask says; none for an ask.
pub(crate) fn own(kernel: &mut Kernel, who: &ShellName, does: &[u8]) -> Option<&'static [u8]> {
    let (verb, rest) = cut(does, b' ');
    match verb {
        b"begin" => Some(said(mark(kernel, who, number(rest), true))),
        b"no-thread" => Some(said(mark(kernel, who, number(rest), false))),
        b"wait-shell" => Some(wait(kernel, who, number(rest))),
        b"end" => Some(end(kernel, who)),
        b"phase" => Some(phase(kernel, who, number(rest))),
        _ => None,
    }
}

fn handle(digits: &[u8]) -> Handle {
    Handle(number(digits))
}

fn mode(word: &[u8]) -> Mode {
    match word {
        b"read" => Mode::Read,
        b"write" => Mode::Write,
        b"append" => Mode::Append,
        b"both" => Mode::ReadWrite,
        b"new" => Mode::New,
        _ => Mode::Scratch,
    }
}

fn open(alloc: Global, rest: &[u8]) -> Result<Call, Memory> {
    let (word, path) = cut(rest, b' ');
    let path = Text::of(alloc, path)?;
    Ok(Call::Open {
        path,
        mode: mode(word),
    })
}

fn write(alloc: Global, rest: &[u8]) -> Result<Call, Memory> {
    let (digits, bytes) = cut(rest, b' ');
    let bytes = Text::of(alloc, bytes)?;
    Ok(Call::Write {
        handle: handle(digits),
        bytes,
    })
}

fn read(rest: &[u8]) -> Call {
    let (digits, most) = cut(rest, b' ');
    Call::Read {
        handle: handle(digits),
        max: number(most),
    }
}

// A handle, or `-` for none.
fn given(word: &[u8]) -> Option<Handle> {
    if word == b"-".as_slice() {
        None
    } else {
        Some(handle(word))
    }
}

// Runs the program at a path with handles for input, output and errors.
fn start(alloc: Global, rest: &[u8]) -> Result<Call, Memory> {
    let (path, rest) = cut(rest, b' ');
    let (input, rest) = cut(rest, b' ');
    let (output, errors) = cut(rest, b' ');
    let path = Text::of(alloc, path)?;
    let program = Program {
        path,
        args: Items::new(alloc),
        env: Items::new(alloc),
        cwd: Text::empty(alloc),
        input: given(input),
        output: given(output),
        errors: given(errors),
    };
    Ok(Call::Start { program })
}

fn looks(alloc: Global, verb: &[u8], rest: &[u8]) -> Result<Call, Memory> {
    let path = Text::of(alloc, rest)?;
    Ok(if verb == b"list".as_slice() {
        Call::List { path }
    } else {
        Call::Stat { path }
    })
}

fn by_number(verb: &[u8], number: u32) -> Call {
    let handle = Handle(number);
    match verb {
        b"dup" => Call::Dup { handle },
        b"close" => Call::Close { handle },
        b"wait" => Call::WaitProgram { number },
        b"poll" => Call::Poll { child: number },
        _ => Call::Pipe,
    }
}

fn call(alloc: Global, verb: &[u8], rest: &[u8]) -> Result<Call, Memory> {
    match verb {
        b"open" => open(alloc, rest),
        b"read" => Ok(read(rest)),
        b"write" => write(alloc, rest),
        b"start" => start(alloc, rest),
        b"list" | b"stat" => looks(alloc, verb, rest),
        _ => Ok(by_number(verb, number(rest))),
    }
}

// The handles to keep.
fn keep(alloc: Global, words: &[u8]) -> Result<Items<Handle>, Memory> {
    let mut kept = Items::new(alloc);
    let mut rest = words;
    for _ in 0..words.len() {
        let (word, more) = cut(rest, b' ');
        rest = more;
        if !word.is_empty() {
            kept.push(handle(word))?;
        }
    }
    Ok(kept)
}

fn ask(alloc: Global, does: &[u8]) -> Result<Ask<u32>, Memory> {
    let (verb, rest) = cut(does, b' ');
    if verb == b"fork".as_slice() {
        let keep = keep(alloc, rest)?;
        return Ok(Ask::Fork { start: 0, keep });
    }
    let call = call(alloc, verb, rest)?;
    Ok(Ask::Asked(call))
}

// Asks the kernel, where the shell lives.
pub(crate) fn act(
    alloc: Global,
    kernel: &mut Kernel,
    who: &ShellName,
    does: &[u8],
) -> Result<Option<Answer>, Memory> {
    let ask = ask(alloc, does)?;
    if !kernel.lives(who) || matches!(ask, Ask::Begin { .. } | Ask::WaitShell { .. }) {
        return Ok(None);
    }
    kernel.try_act(alloc, who, &ask)
}
