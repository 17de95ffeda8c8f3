// Runs lists.
ghost use Rattle.std.specs.Prelude.{◌≡◌, ◌<◌, ◌≤◌, ◌∷◌, ◌++◌, [], true, vec_len, IfOk, remove};
ghost use Rattle.kernel_ask.specs.Seen.{marked};
ghost use Rattle.ksh_meaning.specs.Serving.{Answers};
ghost use Rattle.ksh_meaning.specs.Subshell.{subshell, fork, begin, wait};
ghost use Rattle.ksh_meaning.specs.Mean.{list_of, work, form, perform, run_builtin};
ghost use Rattle.ksh_meaning.specs.Finished.{Means, ended};
ghost use Rattle.ksh_meaning.specs.Expand.{words_of};
ghost use Rattle.shell_state.specs.declared.task.Builtin.TheVariants.{Print};
ghost use Rattle.ksh_script.specs.declared.tree.Command.{out-Command};
ghost use Rattle.shell_family.specs.Family.{Runs, CanRun, Keeps};
ghost use Rattle.shell_family.specs.Fits.{IsShell, Stays, IsPending, IsJoining, IsTaken, IsSame, IsLast, IsAt, running};
ghost use Rattle.shell_family.specs.declared.forked.Awaited.TheVariants.{Joined};

use crate::child::{close, make, note_handed, note_running, note_waited, open};
use crate::plain::{ask, eval_assign, fail, not_forked};
use built_io::run_io;
use kernel_ask::Port;
use ksh_base::Text;
use ksh_meaning::spend;
use ksh_script::{Command, Item, List, Word};
use shell_family::{Awaited, Forked, Outcome, OutcomeOf, Shell};
use shell_state::{Builtin, Flow, ShellState, Start, Stop, Task, Told};
use shell_thread::{Album, Handled, ShellEnd, Spawner};
use std::alloc::Global;
use std::snapshot::Snapshot;
use word_expand::words_of;

// Starts a child, and notes what became of it. Whether it was begun.
#[cycle(shell)]
fn begin<Po: Port<Start> + 'static, P: Spawner + 'static, A: Album<Po> + 'static>(
    shell: &mut Shell<Po, P, A>,
    level: u32,
    child: u32,
    job: Forked<Po, P, A>,
) -> bool
    requires pending { IsPending Po.sees A.list P.faults A.spare level shell.old child job }
    requires room { 0 < P.spare shell.old.spawner }
    ensures shell { IsShell Po.sees A.list P.faults A.spare level shell.new }
    ensures stays { Stays Po.sees P.faults shell.old shell.new }
    ensures seen { Po.sees shell.new.port ≡ marked (Po.sees shell.old.port) child result }
    ensures last { result ≡ true → IsLast shell.new.handles.items child }
{
    let alloc = shell.alloc;
    let promise = OutcomeOf {
        job: Snapshot::of(&job),
    };
    let work = move |go: bool| -> Outcome<Po, P, A>
        requires { CanRun Po.sees A.list job }
        ensures { Keeps Po.sees A.list P.faults job result }
    {
        if go {
            Outcome::Ran(run_job(alloc, job))
        } else {
            Outcome::Back(job)
        }
    };
    match shell.spawner.start(promise, work) {
        Ok(handle) => {
            note_running(shell, level, child, handle);
            true
        }
        Err(outcome) => note_handed(shell, level, child, outcome),
    }
}

// The end of a job that was started. One that was handed back is run here.
#[cycle(shell)]
fn join_job<Po: Port<Start> + 'static, P: Spawner + 'static, A: Album<Po> + 'static>(
    alloc: Global,
    handle: Handled<Outcome<Po, P, A>, OutcomeOf<Po, P, A>, P::Rt>,
) -> ShellEnd<Po, A>
    requires { CanRun Po.sees A.list handle.job.value }
    ensures { Runs Po.sees A.list P.faults handle.job.value result }
{
    match handle.join() {
        Outcome::Ran(end) => end,
        Outcome::Back(job) => run_job(alloc, job),
    }
}

/// Runs a shell to its end.
#[cycle(shell)]
pub fn run_job<Po: Port<Start> + 'static, P: Spawner + 'static, A: Album<Po> + 'static>(
    alloc: Global,
    job: Forked<Po, P, A>,
) -> ShellEnd<Po, A>
    requires { CanRun Po.sees A.list job }
    ensures { Runs Po.sees A.list P.faults job result }
{
    let (mut shell, mut state, body) = open(alloc, job);
    let flow = eval_list(&mut shell, &mut state, body.get().as_slice());
    shell.port.end();
    join_all(&mut shell, state.level);
    close(shell, state.status, flow)
}

// Joins all children.
#[cycle(shell)]
fn join_all<Po: Port<Start> + 'static, P: Spawner + 'static, A: Album<Po> + 'static>(
    shell: &mut Shell<Po, P, A>,
    level: u32,
)
    requires level { level ≤ 64 }
    requires joining { IsJoining Po.sees A.list P.faults A.spare level (Po.sees shell.old.port) shell.old.album shell.old.handles.items }
    ensures joining { IsJoining Po.sees A.list P.faults A.spare level (Po.sees shell.old.port) shell.new.album shell.new.handles.items }
    ensures idle { running shell.new.handles.items ≡ 0 }
    ensures same { IsSame shell.old shell.new }
{
    for turn in 0..shell.handles.len() {
        let _ = join_at(shell, level, 0);
    }
}

// Joins the child whose entry stands there, and puts its entry last.
#[cycle(shell)]
fn join_at<Po: Port<Start> + 'static, P: Spawner + 'static, A: Album<Po> + 'static>(
    shell: &mut Shell<Po, P, A>,
    level: u32,
    at: usize,
) -> (u32, u8)
    requires at { at < vec_len shell.old.handles }
    requires level { level ≤ 64 }
    requires joining { IsJoining Po.sees A.list P.faults A.spare level (Po.sees shell.old.port) shell.old.album shell.old.handles.items }
    ensures joining { IsJoining Po.sees A.list P.faults A.spare level (Po.sees shell.old.port) shell.new.album shell.new.handles.items }
    ensures last { shell.new.handles.items ≡ remove shell.old.handles.items at ++ (result.0, Joined result.1) ∷ [] }
    ensures len { vec_len shell.new.handles ≡ vec_len shell.old.handles }
    ensures same { IsSame shell.old shell.new }
    ensures child { IsAt shell.old.handles.items at result.0 }
{
    let (child, awaited) = shell.handles.remove(at);
    let status = settle(shell, level, child, awaited);
    shell
        .handles
        .push_reserved((child, Awaited::Joined(status)));
    (child, status)
}

// The status of a child that was begun. Where it ran, its end is kept.
#[cycle(shell)]
fn settle<Po: Port<Start> + 'static, P: Spawner + 'static, A: Album<Po> + 'static>(
    shell: &mut Shell<Po, P, A>,
    level: u32,
    child: u32,
    awaited: Awaited<Po, P, A>,
) -> u8
    requires level { level ≤ 64 }
    requires taken { IsTaken Po.sees A.list P.faults A.spare level shell.old child awaited }
    ensures joining { IsJoining Po.sees A.list P.faults A.spare level (Po.sees shell.old.port) shell.new.album (shell.old.handles.items ++ (child, Joined result) ∷ []) }
    ensures same { IsSame shell.old shell.new }
    ensures handles { shell.new.handles ≡ shell.old.handles }
{
    match awaited {
        Awaited::Joined(v) => v,
        Awaited::Running(handle) => {
            let end = join_job(shell.alloc, handle);
            let v = end.status;
            shell.album.keep(end);
            v
        }
    }
}

// Waits for the child whose entry stands last.
#[cycle(shell)]
fn wait_last<Po: Port<Start> + 'static, P: Spawner + 'static, A: Album<Po> + 'static>(
    shell: &mut Shell<Po, P, A>,
    state: &mut ShellState,
    child: u32,
) -> Result<Flow, Stop>
    requires shell { IsShell Po.sees A.list P.faults A.spare state.old.level shell.old }
    requires last { IsLast shell.old.handles.items child }
    requires some { 0 < vec_len shell.old.handles }
    ensures means { Means state.old.budget (Po.sees shell.old.port).done (Po.sees shell.new.port).done (λ n. wait child state.old) (ended state.new result) }
    ensures shell { IsShell Po.sees A.list P.faults A.spare state.old.level shell.new }
    ensures stays { Stays Po.sees P.faults shell.old shell.new }
    ensures level { state.new.level ≡ state.old.level }
    ensures budget { state.new.budget ≤ state.old.budget }
{
    if !spend(state, 1) {
        return Err(Stop::Spent);
    }
    let at = shell.handles.len() - 1;
    let (found, status) = join_at(shell, state.level, at);
    note_waited(shell, state.level, found, status);
    state.status = status;
    Ok(Flow::Next)
}

// Begins a child that was forked, and waits for it.
#[cycle(shell)]
fn run_child<Po: Port<Start> + 'static, P: Spawner + 'static, A: Album<Po> + 'static>(
    shell: &mut Shell<Po, P, A>,
    state: &mut ShellState,
    child: u32,
    job: Forked<Po, P, A>,
) -> Result<Flow, Stop>
    requires pending { IsPending Po.sees A.list P.faults A.spare state.old.level shell.old child job }
    requires room { 0 < P.spare shell.old.spawner }
    ensures means { Means state.old.budget (Po.sees shell.old.port).done (Po.sees shell.new.port).done (λ n. begin child state.old) (ended state.new result) }
    ensures shell { IsShell Po.sees A.list P.faults A.spare state.old.level shell.new }
    ensures stays { Stays Po.sees P.faults shell.old shell.new }
    ensures level { state.new.level ≡ state.old.level }
    ensures budget { state.new.budget ≤ state.old.budget }
{
    if begin(shell, state.level, child, job) {
        wait_last(shell, state, child)
    } else {
        state.status = 254;
        Ok(Flow::Next)
    }
}

// Forks a shell, and runs it.
#[cycle(shell)]
fn fork_shell<Po: Port<Start> + 'static, P: Spawner + 'static, A: Album<Po> + 'static>(
    shell: &mut Shell<Po, P, A>,
    state: &mut ShellState,
    line: u32,
    list: &List,
) -> Result<Flow, Stop>
    requires shell { IsShell Po.sees A.list P.faults A.spare state.old.level shell.old }
    requires level { state.old.level < 64 }
    ensures means { Means state.old.budget (Po.sees shell.old.port).done (Po.sees shell.new.port).done (λ n. fork line list.now state.old) (ended state.new result) }
    ensures shell { IsShell Po.sees A.list P.faults A.spare state.old.level shell.new }
    ensures stays { Stays Po.sees P.faults shell.old shell.new }
    ensures level { state.new.level ≡ state.old.level }
    ensures budget { state.new.budget ≤ state.old.budget }
{
    match make(shell, state, list) {
        Ok(made) => match made {
            Ok((child, job)) => run_child(shell, state, child, job),
            Err(refusal) => not_forked(shell, state, line, refusal),
        },
        Err(_) => Err(Stop::Memory),
    }
}

// `( list )`: the units of the Fork and of its Begin are spent together.
#[cycle(shell)]
fn eval_subshell<Po: Port<Start> + 'static, P: Spawner + 'static, A: Album<Po> + 'static>(
    shell: &mut Shell<Po, P, A>,
    state: &mut ShellState,
    line: u32,
    list: &List,
) -> Result<Flow, Stop>
    requires shell { IsShell Po.sees A.list P.faults A.spare state.old.level shell.old }
    ensures means { Means state.old.budget (Po.sees shell.old.port).done (Po.sees shell.new.port).done (λ n. subshell line list.now state.old) (ended state.new result) }
    ensures shell { IsShell Po.sees A.list P.faults A.spare state.old.level shell.new }
    ensures stays { Stays Po.sees P.faults shell.old shell.new }
    ensures level { state.new.level ≡ state.old.level }
    ensures budget { state.new.budget ≤ state.old.budget }
{
    if state.level >= 64 {
        return fail(shell, state, line, b"too deep");
    }
    if !spend(state, 2) {
        return Err(Stop::Spent);
    }
    fork_shell(shell, state, line, list)
}

// A builtin, with its words. Its tasks are done by this shell.
#[cycle(shell)]
fn eval_builtin<Po: Port<Start> + 'static, P: Spawner + 'static, A: Album<Po> + 'static>(
    shell: &mut Shell<Po, P, A>,
    state: &mut ShellState,
    which: Builtin,
    line: u32,
    words: &[Text],
) -> Result<Flow, Stop>
    requires shell { IsShell Po.sees A.list P.faults A.spare state.old.level shell.old }
    ensures means { Means state.old.budget (Po.sees shell.old.port).done (Po.sees shell.new.port).done (λ n. run_builtin (work n) which line words.now state.old) (ended state.new result) }
    ensures shell { IsShell Po.sees A.list P.faults A.spare state.old.level shell.new }
    ensures stays { Stays Po.sees P.faults shell.old shell.new }
    ensures level { state.new.level ≡ state.old.level }
    ensures budget { state.new.budget ≤ state.old.budget }
{
    let alloc = shell.alloc;
    let limit = state.budget.left();
    let level = state.level;
    let mut ctx = |rest: &mut Shell<Po, P, A>, inner: &mut ShellState, task: Task| -> Result<
        Told,
        Stop,
    >
        requires shell { IsShell Po.sees A.list P.faults A.spare level rest.old }
        requires level { inner.old.level ≡ level }
        requires budget { inner.old.budget ≤ limit }
        ensures means { Means limit (Po.sees rest.old.port).done (Po.sees rest.new.port).done (λ n. perform (work n) (inner.old, task)) (ended inner.new result) }
        ensures shell { IsShell Po.sees A.list P.faults A.spare level rest.new }
        ensures stays { Stays Po.sees P.faults rest.old rest.new }
        ensures level { inner.new.level ≡ inner.old.level }
        ensures budget { inner.new.budget ≤ inner.old.budget }
        ensures answers { IfOk result (λ told. Answers task told) }
    {
        let _ = &limit;
        let _ = &level;
        do_task(rest, inner, task)
    };
    run_io(alloc, which, line, shell, state, &mut ctx, words)
}

#[cycle(shell)]
fn do_task<Po: Port<Start> + 'static, P: Spawner + 'static, A: Album<Po> + 'static>(
    shell: &mut Shell<Po, P, A>,
    state: &mut ShellState,
    task: Task,
) -> Result<Told, Stop>
    requires { IsShell Po.sees A.list P.faults A.spare state.old.level shell.old }
    ensures means { Means state.old.budget (Po.sees shell.old.port).done (Po.sees shell.new.port).done (λ n. perform (work n) (state.old, task)) (ended state.new result) }
    ensures shell { IsShell Po.sees A.list P.faults A.spare state.old.level shell.new }
    ensures stays { Stays Po.sees P.faults shell.old shell.new }
    ensures level { state.new.level ≡ state.old.level }
    ensures budget { state.new.budget ≤ state.old.budget }
    ensures answers { IfOk result (λ told. Answers task told) }
{
    match task {
        Task::Ask(call) => match ask(shell, state, call) {
            Ok(answer) => Ok(Told::Answered(answer)),
            Err(stop) => Err(stop),
        },
        Task::Run(list) => match eval_list(shell, state, list.get().as_slice()) {
            Ok(flow) => Ok(Told::Ran(flow)),
            Err(stop) => Err(stop),
        },
    }
}

// A form that runs words as a builtin.
#[cycle(shell)]
fn eval_print<Po: Port<Start> + 'static, P: Spawner + 'static, A: Album<Po> + 'static>(
    shell: &mut Shell<Po, P, A>,
    state: &mut ShellState,
    line: u32,
    words: &[Word],
) -> Result<Flow, Stop>
    requires { IsShell Po.sees A.list P.faults A.spare state.old.level shell.old }
    ensures means { Means state.old.budget (Po.sees shell.old.port).done (Po.sees shell.new.port).done (λ n. run_builtin (work n) Print line (words_of state.old.vars words.now) state.old) (ended state.new result) }
    ensures shell { IsShell Po.sees A.list P.faults A.spare state.old.level shell.new }
    ensures stays { Stays Po.sees P.faults shell.old shell.new }
    ensures level { state.new.level ≡ state.old.level }
    ensures budget { state.new.budget ≤ state.old.budget }
{
    let Ok(texts) = words_of(shell.alloc, &state.vars, words) else {
        return Err(Stop::Memory);
    };
    eval_builtin(shell, state, Builtin::Print, line, texts.as_slice())
}

#[cycle(shell)]
fn eval_form<Po: Port<Start> + 'static, P: Spawner + 'static, A: Album<Po> + 'static>(
    shell: &mut Shell<Po, P, A>,
    state: &mut ShellState,
    line: u32,
    command: &Command,
) -> Result<Flow, Stop>
    requires { IsShell Po.sees A.list P.faults A.spare state.old.level shell.old }
    ensures means { Means state.old.budget (Po.sees shell.old.port).done (Po.sees shell.new.port).done (λ n. form (work n) line (out-Command command.now) state.old) (ended state.new result) }
    ensures shell { IsShell Po.sees A.list P.faults A.spare state.old.level shell.new }
    ensures stays { Stays Po.sees P.faults shell.old shell.new }
    ensures level { state.new.level ≡ state.old.level }
    ensures budget { state.new.budget ≤ state.old.budget }
{
    match command {
        Command::Print { words } => eval_print(shell, state, line, words.as_slice()),
        Command::Assign { assigns } => eval_assign(shell, state, line, assigns.as_slice()),
        Command::Subshell { body } => eval_subshell(shell, state, line, body),
        Command::NotBuilt => fail(shell, state, line, b"not built"),
    }
}

// Runs one command.
#[cycle(shell)]
fn eval_item<Po: Port<Start> + 'static, P: Spawner + 'static, A: Album<Po> + 'static>(
    shell: &mut Shell<Po, P, A>,
    state: &mut ShellState,
    item: &Item,
) -> Result<Flow, Stop>
    requires { IsShell Po.sees A.list P.faults A.spare state.old.level shell.old }
    ensures means { Means state.old.budget (Po.sees shell.old.port).done (Po.sees shell.new.port).done (λ n. work n item.now state.old) (ended state.new result) }
    ensures shell { IsShell Po.sees A.list P.faults A.spare state.old.level shell.new }
    ensures stays { Stays Po.sees P.faults shell.old shell.new }
    ensures level { state.new.level ≡ state.old.level }
    ensures budget { state.new.budget ≤ state.old.budget }
{
    if !spend(state, 1) {
        return Err(Stop::Spent);
    }
    eval_form(shell, state, item.line, &item.command)
}

/// Runs a list.
#[cycle(shell)]
pub fn eval_list<Po: Port<Start> + 'static, P: Spawner + 'static, A: Album<Po> + 'static>(
    shell: &mut Shell<Po, P, A>,
    state: &mut ShellState,
    list: &[Item],
) -> Result<Flow, Stop>
    requires { IsShell Po.sees A.list P.faults A.spare state.old.level shell.old }
    ensures means { Means state.old.budget (Po.sees shell.old.port).done (Po.sees shell.new.port).done (λ n. list_of (work n) list.now state.old) (ended state.new result) }
    ensures shell { IsShell Po.sees A.list P.faults A.spare state.old.level shell.new }
    ensures stays { Stays Po.sees P.faults shell.old shell.new }
    ensures level { state.new.level ≡ state.old.level }
    ensures budget { state.new.budget ≤ state.old.budget }
{
    for item in list {
        match eval_item(shell, state, item) {
            Ok(flow) => match flow {
                Flow::Next => {}
                left => return Ok(left),
            },
            Err(stop) => return Err(stop),
        }
    }
    Ok(Flow::Next)
}
