ghost use Rattle.std.specs.Prelude.{◌≡◌, ◌≤◌, IfOk};
ghost use Rattle.ksh_meaning.specs.Finished.{ended};
ghost use Rattle.ksh_meaning.specs.Serving.{Serves, Performs, Did, Answers, IsAnswered, IsRan, as_ran, as_answered};
ghost use Rattle.shell_state.specs.declared.task.Task.TheVariants.{Ask, Run};
ghost use Rattle.shell_state.specs.declared.task.Told.TheVariants.{Answered, Ran};

use kernel_ask::{Answer, Call};
use ksh_script::List;
use shell_state::{Flow, ShellState, Stop, Task, Told};

fn perform<S, C: FnMut(&mut S, &mut ShellState, Task) -> Result<Told, Stop>>(
    rest: &mut S,
    state: &mut ShellState,
    ctx: &mut C,
    task: Task,
) -> Result<Told, Stop>
    requires { Serves C.FnMut state.old.level state.old.budget (ctx.old, rest.old) }
    ensures did { Performs C.FnMut (ctx.old, rest.old) state.old task result (ctx.new, rest.new) state.new }
    ensures serves { Serves C.FnMut state.new.level state.new.budget (ctx.new, rest.new) }
    ensures budget { state.new.budget ≤ state.old.budget }
    ensures level { state.new.level ≡ state.old.level }
    ensures answers { IfOk result (λ told. Answers task told) }
{
    ctx(rest, state, task)
}

fn answer_of(told: Told) -> Answer
    requires { IsAnswered told }
    ensures { told ≡ Answered result }
{
    match told {
        Told::Answered(answer) => answer,
        Told::Ran(_) => unreachable!(),
    }
}

fn flow_of(told: Told) -> Flow
    requires { IsRan told }
    ensures { told ≡ Ran result }
{
    match told {
        Told::Ran(flow) => flow,
        Told::Answered(_) => unreachable!(),
    }
}

/// Lets the shell ask the world.
pub fn ask<S, C: FnMut(&mut S, &mut ShellState, Task) -> Result<Told, Stop>>(
    rest: &mut S,
    state: &mut ShellState,
    ctx: &mut C,
    call: Call,
) -> Result<Answer, Stop>
    requires { Serves C.FnMut state.old.level state.old.budget (ctx.old, rest.old) }
    ensures did { Did C.FnMut (ctx.old, rest.old) (state.old, Ask call) (ended state.new (as_answered result)) (ctx.new, rest.new) }
    ensures serves { Serves C.FnMut state.new.level state.new.budget (ctx.new, rest.new) }
    ensures budget { state.new.budget ≤ state.old.budget }
    ensures level { state.new.level ≡ state.old.level }
{
    match perform(rest, state, ctx, Task::Ask(call)) {
        Ok(told) => Ok(answer_of(told)),
        Err(stop) => Err(stop),
    }
}

/// Lets the shell run a list.
pub fn run_list<S, C: FnMut(&mut S, &mut ShellState, Task) -> Result<Told, Stop>>(
    rest: &mut S,
    state: &mut ShellState,
    ctx: &mut C,
    list: &List,
) -> Result<Flow, Stop>
    requires { Serves C.FnMut state.old.level state.old.budget (ctx.old, rest.old) }
    ensures did { Did C.FnMut (ctx.old, rest.old) (state.old, Run list.now) (ended state.new (as_ran result)) (ctx.new, rest.new) }
    ensures serves { Serves C.FnMut state.new.level state.new.budget (ctx.new, rest.new) }
    ensures budget { state.new.budget ≤ state.old.budget }
    ensures level { state.new.level ≡ state.old.level }
{
    let Ok(copy) = list.copy() else {
        return Err(Stop::Memory);
    };
    match perform(rest, state, ctx, Task::Run(copy)) {
        Ok(told) => Ok(flow_of(told)),
        Err(stop) => Err(stop),
    }
}
