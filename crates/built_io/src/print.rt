ghost use Rattle.std.specs.Prelude.{◌≡◌, ◌≤◌};
ghost use Rattle.ksh_meaning.specs.Builtins.{builtin};
ghost use Rattle.ksh_meaning.specs.Finished.{ended};
ghost use Rattle.ksh_meaning.specs.Print.{print};
ghost use Rattle.ksh_meaning.specs.Serving.{Serves, ServedBy};

use crate::join::joined;
use crate::output::put_out;
use ksh_base::Text;
use shell_state::{Builtin, Flow, ShellState, Stop, Task, Told};
use std::alloc::Global;

// `print`: its words with one blank between and a newline after.
fn run_print<S, C: FnMut(&mut S, &mut ShellState, Task) -> Result<Told, Stop>>(
    alloc: Global,
    line: u32,
    rest: &mut S,
    state: &mut ShellState,
    ctx: &mut C,
    words: &[Text],
) -> Result<Flow, Stop>
    requires { Serves C.FnMut state.old.level state.old.budget (ctx.old, rest.old) }
    ensures served { ServedBy C.FnMut (ctx.old, rest.old) (print line words.now state.old) (ended state.new result) (ctx.new, rest.new) }
    ensures budget { state.new.budget ≤ state.old.budget }
    ensures level { state.new.level ≡ state.old.level }
{
    let Ok(mut text) = joined(alloc, words) else {
        return Err(Stop::Memory);
    };
    if text.push(b'\n').is_err() {
        return Err(Stop::Memory);
    }
    put_out(alloc, rest, state, ctx, line, b"print", text.bytes())
}

/// Runs a builtin that writes or reads. `line` is the line of its texts, `words` are the words after
/// its name, and `ctx` does its tasks: it is handed the rest of the shell and the state.
pub fn run_io<S, C: FnMut(&mut S, &mut ShellState, Task) -> Result<Told, Stop>>(
    alloc: Global,
    which: Builtin,
    line: u32,
    rest: &mut S,
    state: &mut ShellState,
    ctx: &mut C,
    words: &[Text],
) -> Result<Flow, Stop>
    requires { Serves C.FnMut state.old.level state.old.budget (ctx.old, rest.old) }
    ensures served { ServedBy C.FnMut (ctx.old, rest.old) (builtin which line words.now state.old) (ended state.new result) (ctx.new, rest.new) }
    ensures budget { state.new.budget ≤ state.old.budget }
    ensures level { state.new.level ≡ state.old.level }
{
    match which {
        Builtin::Print => run_print(alloc, line, rest, state, ctx, words),
    }
}
