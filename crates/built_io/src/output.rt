ghost use Rattle.std.specs.Prelude.{◌≡◌, ◌≤◌, if◌then◌else◌};
ghost use Rattle.std.proofs.Common.{take, drop};
ghost use Rattle.ksh_meaning.specs.Finished.{ended};
ghost use Rattle.ksh_meaning.specs.Output.{tells, piece, after_write, puts_out};
ghost use Rattle.ksh_meaning.specs.Serving.{Serves, ServedBy};
ghost use Rattle.built_io.specs.Pieces.{piece_ended};

use kernel_ask::{Call, Handle, Refusal};
use ksh_base::Text;
use ksh_meaning::{ask, fault_text, is_broken, refused_text, settle_text, write_refused};
use shell_state::{Flow, ShellState, Stop, Task, Told};
use std::alloc::Global;

/// A text on descriptor 2. It is lost where it is refused, unless it finds no reader.
pub fn tell<S, C: FnMut(&mut S, &mut ShellState, Task) -> Result<Told, Stop>>(
    alloc: Global,
    rest: &mut S,
    state: &mut ShellState,
    ctx: &mut C,
    line: u32,
    words: &[u8],
) -> Result<Flow, Stop>
    requires { Serves C.FnMut state.old.level state.old.budget (ctx.old, rest.old) }
    ensures served { ServedBy C.FnMut (ctx.old, rest.old) (tells line words.now state.old) (ended state.new result) (ctx.new, rest.new) }
    ensures serves { Serves C.FnMut state.new.level state.new.budget (ctx.new, rest.new) }
    ensures budget { state.new.budget ≤ state.old.budget }
    ensures level { state.new.level ≡ state.old.level }
{
    let Ok(bytes) = fault_text(alloc, line, words) else {
        return Err(Stop::Memory);
    };
    let call = Call::Write {
        handle: Handle(2),
        bytes,
    };
    match ask(rest, state, ctx, call) {
        Ok(answer) => Ok(settle_text(state, answer)),
        Err(stop) => Err(stop),
    }
}

/// One piece of a builtin's output, and its text where it was refused. Says whether it was.
pub fn write_piece<S, C: FnMut(&mut S, &mut ShellState, Task) -> Result<Told, Stop>>(
    alloc: Global,
    rest: &mut S,
    state: &mut ShellState,
    ctx: &mut C,
    line: u32,
    name: &[u8],
    bytes: &[u8],
) -> Result<(Flow, bool), Stop>
    requires { Serves C.FnMut state.old.level state.old.budget (ctx.old, rest.old) }
    ensures served { ServedBy C.FnMut (ctx.old, rest.old) (piece line name.now bytes.now state.old) (piece_ended state.new result) (ctx.new, rest.new) }
    ensures serves { Serves C.FnMut state.new.level state.new.budget (ctx.new, rest.new) }
    ensures budget { state.new.budget ≤ state.old.budget }
    ensures level { state.new.level ≡ state.old.level }
{
    let Ok(bytes) = Text::of(alloc, bytes) else {
        return Err(Stop::Memory);
    };
    let call = Call::Write {
        handle: Handle(1),
        bytes,
    };
    match ask(rest, state, ctx, call) {
        Ok(answer) => after_write(alloc, rest, state, ctx, line, name, write_refused(answer)),
        Err(stop) => Err(stop),
    }
}

fn after_write<S, C: FnMut(&mut S, &mut ShellState, Task) -> Result<Told, Stop>>(
    alloc: Global,
    rest: &mut S,
    state: &mut ShellState,
    ctx: &mut C,
    line: u32,
    name: &[u8],
    refused: Option<Refusal>,
) -> Result<(Flow, bool), Stop>
    requires { Serves C.FnMut state.old.level state.old.budget (ctx.old, rest.old) }
    ensures served { ServedBy C.FnMut (ctx.old, rest.old) (after_write line name.now state.old refused) (piece_ended state.new result) (ctx.new, rest.new) }
    ensures serves { Serves C.FnMut state.new.level state.new.budget (ctx.new, rest.new) }
    ensures budget { state.new.budget ≤ state.old.budget }
    ensures level { state.new.level ≡ state.old.level }
{
    let Some(refusal) = refused else {
        return Ok((Flow::Next, false));
    };
    if is_broken(refusal) {
        state.status = 141;
        return Ok((Flow::Exit, true));
    }
    let Ok(words) = refused_text(alloc, name, refusal) else {
        return Err(Stop::Memory);
    };
    match tell(alloc, rest, state, ctx, line, words.bytes()) {
        Ok(flow) => Ok((flow, true)),
        Err(stop) => Err(stop),
    }
}

// The status of a builtin whose output was refused, or taken.
fn status_by(refused: bool) -> u8
    ensures { result ≡ (if refused then 1 else 0) }
{
    if refused { 1 } else { 0 }
}

// The first 4,096 bytes, or all where there are fewer, and the rest.
fn cut(bytes: &[u8]) -> (&[u8], &[u8])
    ensures piece { result.0.now ≡ take 4096 bytes.now }
    ensures rest { result.1.now ≡ drop 4096 bytes.now }
{
    if bytes.len() > 4096 {
        bytes.split_at(4096)
    } else {
        (bytes, &[])
    }
}

/// All that a builtin prints, in Writes of 4,096 bytes and a rest.
pub fn put_out<S, C: FnMut(&mut S, &mut ShellState, Task) -> Result<Told, Stop>>(
    alloc: Global,
    rest: &mut S,
    state: &mut ShellState,
    ctx: &mut C,
    line: u32,
    name: &[u8],
    bytes: &[u8],
) -> Result<Flow, Stop>
    requires { Serves C.FnMut state.old.level state.old.budget (ctx.old, rest.old) }
    ensures served { ServedBy C.FnMut (ctx.old, rest.old) (puts_out line name.now bytes.now state.old) (ended state.new result) (ctx.new, rest.new) }
    ensures budget { state.new.budget ≤ state.old.budget }
    ensures level { state.new.level ≡ state.old.level }
{
    let mut refused = false;
    let mut left = bytes;
    for turn in 0..(bytes.len() + 4095) / 4096 {
        let (piece, more) = cut(left);
        left = more;
        match write_piece(alloc, rest, state, ctx, line, name, piece) {
            Ok((Flow::Next, bad)) => refused |= bad,
            Ok((Flow::Exit, _)) => return Ok(Flow::Exit),
            Err(stop) => return Err(stop),
        }
    }
    state.status = status_by(refused);
    Ok(Flow::Next)
}
