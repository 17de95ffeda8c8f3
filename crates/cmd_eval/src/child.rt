// What a shell does to its children that runs none.
ghost use Rattle.std.specs.Prelude.{◌≡◌, ◌<◌, ◌≤◌, ◌+◌, ◌^◌, [], ◌∷◌, ◌++◌, true, false, List, ℕ, vec_len, vec_capacity, IfOk, OnOk, MatchResult};
ghost use Rattle.kernel_ask.specs.Seen.{marked, waited_for, more};
ghost use Rattle.kernel_ask.specs.declared.ask.Ask.TheVariants.{Fork};
ghost use Rattle.kernel_ask.specs.declared.ask.Answer.TheVariants.{Forked as SaysForked, Refused};
ghost use Rattle.ksh_meaning.specs.Subshell.{copy_of, standard};
ghost use Rattle.shell_family.specs.Family.{Runs, CanRun, Keeps};
ghost use Rattle.shell_family.specs.Meaning.{stop_by, status_by};
ghost use Rattle.shell_family.specs.Fits.{IsShell, Stays, IsPending, Noted, IsLast};
ghost use Rattle.shell_family.specs.declared.forked.Forked.{Forked as Job};
ghost use Rattle.shell_family.specs.declared.forked.Awaited.TheVariants.{Joined};
ghost use Rattle.shell_family.specs.declared.forked.Awaited.{Awaited as Wait};

use kernel_ask::{ForkRefused, Handle, Port, Refusal, Snapshot};
use ksh_base::{Memory, ShellName};
use ksh_script::List;
use shell_family::{Awaited, Forked, Outcome, OutcomeOf, Shell};
use shell_state::{Flow, ShellState, Start, Stop};
use shell_thread::{Album, Handled, ShellEnd, ShellStop, Spawner};
use std::alloc::Global;

// The handles of the descriptors 0, 1 and 2.
const STANDARD: [Handle; 3] = [Handle(0), Handle(1), Handle(2)];

// Makes room for a fork.
fn ready<Po: Port<Start>, P: Spawner, A: Album<Po>>(
    shell: &mut Shell<Po, P, A>,
    level: u32,
) -> Result<(), Memory>
    requires { IsShell Po.sees A.list P.faults A.spare level shell.old }
    ensures shell { IsShell Po.sees A.list P.faults A.spare level shell.new }
    ensures stays { Stays Po.sees P.faults shell.old shell.new }
    ensures port { shell.new.port ≡ shell.old.port }
    ensures start { OnOk result (0 < P.spare shell.new.spawner) }
    ensures handle { OnOk result (vec_len shell.new.handles < vec_capacity shell.new.handles) }
    ensures album { OnOk result (vec_len shell.new.handles < A.spare shell.new.album) }
{
    shell.spawner.room(shell.alloc)?;
    shell.handles.reserve(1)?;
    shell.album.room(shell.handles.len() + 1)?;
    Ok(())
}

// What a child begins with, twice, and its name but for its number.
struct Parts {
    start: Start,
    given: Start,
    name: ShellName,
}

fn make_parts(
    alloc: Global,
    name: &ShellName,
    state: &ShellState,
    list: &List,
) -> Result<Parts, Memory>
    requires { state.now.level < 64 }
    ensures start { IfOk result (λ r. r.start ≡ copy_of list.now state.now) }
    ensures given { IfOk result (λ r. r.given ≡ r.start) }
    ensures budget { IfOk result (λ r. r.start.state.budget < 2 ^ 64) }
    ensures name { IfOk result (λ r. r.name ≡ name.now ++ 0 ∷ []) }
{
    let state = state.fork()?;
    let body = list.copy()?;
    let start = Start { state, body };
    let given = start.fork(alloc)?;
    let name = name.child(alloc, 0)?;
    Ok(Parts { start, given, name })
}

// Forks: the child is made, and is to be started.
pub fn make<Po: Port<Start>, P: Spawner, A: Album<Po>>(
    shell: &mut Shell<Po, P, A>,
    state: &ShellState,
    list: &List,
) -> Result<Result<(u32, Forked<Po, P, A>), Refusal>, Memory>
    requires shell { IsShell Po.sees A.list P.faults A.spare state.now.level shell.old }
    requires level { state.now.level < 64 }
    ensures stays { Stays Po.sees P.faults shell.old shell.new }
    ensures shell { MatchResult result (λ r. MatchResult r (λ f. IsPending Po.sees A.list P.faults A.spare state.now.level shell.new f.0 f.1) (λ _. IsShell Po.sees A.list P.faults A.spare state.now.level shell.new)) (λ _. IsShell Po.sees A.list P.faults A.spare state.now.level shell.new) }
    ensures start { IfOk result (λ r. IfOk r (λ _. 0 < P.spare shell.new.spawner)) }
    ensures done { MatchResult result (λ r. MatchResult r (λ f. (Po.sees shell.new.port).done ≡ more (Po.sees shell.old.port).done (Fork (copy_of list.now state.now) standard) (SaysForked f.0)) (λ why. (Po.sees shell.new.port).done ≡ more (Po.sees shell.old.port).done (Fork (copy_of list.now state.now) standard) (Refused why))) (λ _. (Po.sees shell.new.port).done ≡ (Po.sees shell.old.port).done) }
{
    ready(shell, state.level)?;
    let Parts {
        start,
        given,
        mut name,
    } = make_parts(shell.alloc, &shell.name, state, list)?;
    match shell.port.fork(shell.alloc, given, &STANDARD) {
        Ok((child, port)) => {
            name.set_last(child);
            let job = Forked {
                name,
                start,
                port,
                spawner: shell.spawner.split(),
                album: shell.album.fresh(),
            };
            Ok(Ok((child, job)))
        }
        Err(ForkRefused::Memory(_)) => Err(Memory),
        Err(ForkRefused::Refused(refusal, _)) => Ok(Err(refusal)),
    }
}

// The child runs.
pub fn note_running<Po: Port<Start>, P: Spawner, A: Album<Po>>(
    shell: &mut Shell<Po, P, A>,
    level: u32,
    child: u32,
    handle: Handled<Outcome<Po, P, A>, OutcomeOf<Po, P, A>, P::Rt>,
)
    requires { IsPending Po.sees A.list P.faults A.spare level shell.old child handle.job.value }
    ensures shell { IsShell Po.sees A.list P.faults A.spare level shell.new }
    ensures noted { Noted Po.sees 0 shell.old shell.new }
    ensures seen { Po.sees shell.new.port ≡ marked (Po.sees shell.old.port) child true }
    ensures last { IsLast shell.new.handles.items child }
{
    shell.port.mark(child, true);
    shell
        .handles
        .push_reserved((child, Awaited::Running(handle)));
}

// No thread was had for the child.
fn note_unrun<Po: Port<Start>, P: Spawner, A: Album<Po>>(
    shell: &mut Shell<Po, P, A>,
    level: u32,
    child: u32,
    job: Forked<Po, P, A>,
)
    requires pending { IsPending Po.sees A.list P.faults A.spare level shell.old child job }
    requires fault { (p : P) × (0 < P.faults p) }
    ensures shell { IsShell Po.sees A.list P.faults A.spare level shell.new }
    ensures noted { Noted Po.sees 1 shell.old shell.new }
    ensures seen { Po.sees shell.new.port ≡ marked (Po.sees shell.old.port) child false }
{
    shell.port.mark(child, false);
    let Forked {
        name,
        start: _,
        mut port,
        spawner: _,
        album,
    } = job;
    port.end();
    shell.album.keep(ShellEnd {
        name,
        status: 254,
        stop: ShellStop::Unrun,
        port,
        album,
    });
}

// The child ran before there was a handle on it.
fn note_ran<Po: Port<Start>, P: Spawner, A: Album<Po>>(
    shell: &mut Shell<Po, P, A>,
    level: u32,
    child: u32,
    end: ShellEnd<Po, A>,
)
    requires { (job : Job Po P A) × IsPending Po.sees A.list P.faults A.spare level shell.old child job × Runs Po.sees A.list P.faults job end }
    ensures shell { IsShell Po.sees A.list P.faults A.spare level shell.new }
    ensures noted { Noted Po.sees 0 shell.old shell.new }
    ensures seen { Po.sees shell.new.port ≡ marked (Po.sees shell.old.port) child true }
    ensures last { IsLast shell.new.handles.items child }
{
    shell.port.mark(child, true);
    let status = end.status;
    shell.album.keep(end);
    shell
        .handles
        .push_reserved((child, Awaited::Joined(status)));
}

// What a start handed back. Whether the child ran.
pub fn note_handed<Po: Port<Start>, P: Spawner, A: Album<Po>>(
    shell: &mut Shell<Po, P, A>,
    level: u32,
    child: u32,
    outcome: Outcome<Po, P, A>,
) -> bool
    requires pending { (job : Job Po P A) × IsPending Po.sees A.list P.faults A.spare level shell.old child job × Keeps Po.sees A.list P.faults job outcome }
    requires fault { (p : P) × (0 < P.faults p) }
    ensures shell { IsShell Po.sees A.list P.faults A.spare level shell.new }
    ensures noted { Noted Po.sees 1 shell.old shell.new }
    ensures seen { Po.sees shell.new.port ≡ marked (Po.sees shell.old.port) child result }
    ensures last { result ≡ true → IsLast shell.new.handles.items child }
{
    match outcome {
        Outcome::Ran(end) => {
            note_ran(shell, level, child, end);
            true
        }
        Outcome::Back(job) => {
            note_unrun(shell, level, child, job);
            false
        }
    }
}

// Notes that the child whose entry stands last was waited for.
pub fn note_waited<Po: Port<Start>, P: Spawner, A: Album<Po>>(
    shell: &mut Shell<Po, P, A>,
    level: u32,
    child: u32,
    status: u8,
)
    requires shell { IsShell Po.sees A.list P.faults A.spare level shell.old }
    requires last { (hs : List (ℕ × Wait Po P A P.Rt)) × (shell.old.handles.items ≡ hs ++ (child, Joined status) ∷ []) }
    requires some { 0 < vec_len shell.old.handles }
    ensures shell { IsShell Po.sees A.list P.faults A.spare level shell.new }
    ensures stays { Stays Po.sees P.faults shell.old shell.new }
    ensures seen { Po.sees shell.new.port ≡ waited_for (Po.sees shell.old.port) child status }
{
    let left = shell.handles.len() - 1;
    shell.handles.truncate(left);
    shell.port.waited(child, status);
}

// A shell that has just begun, with its state and its list.
pub fn open<Po: Port<Start>, P: Spawner, A: Album<Po>>(
    alloc: Global,
    job: Forked<Po, P, A>,
) -> (Shell<Po, P, A>, ShellState, List)
    requires { CanRun Po.sees A.list job }
    ensures shell { IsShell Po.sees A.list P.faults A.spare job.start.state.level result.0 }
    ensures same { (result.0.port ≡ job.port) × (result.0.name ≡ job.name) × (result.1 ≡ job.start.state) × (result.2 ≡ job.start.body) }
{
    let Forked {
        name,
        start,
        port,
        spawner,
        album,
    } = job;
    let Start { state, body } = start;
    let shell = Shell {
        alloc,
        name,
        port,
        spawner,
        album,
        handles: Vec::new(alloc),
    };
    (shell, state, body)
}

// How a shell ends, and its status, from its list's end and its state's status.
fn stop_of(flow: Result<Flow, Stop>, status: u8) -> (ShellStop, u8)
    ensures stop { result.0 ≡ stop_by flow }
    ensures status { result.1 ≡ status_by flow status }
{
    match flow {
        Ok(_) => (ShellStop::Meant, status),
        Err(Stop::Spent) => (ShellStop::Spent, 123),
        Err(Stop::Memory) => (ShellStop::Memory, 121),
    }
}

// The end of a shell.
pub fn close<Po: Port<Start>, P: Spawner, A: Album<Po>>(
    shell: Shell<Po, P, A>,
    status: u8,
    flow: Result<Flow, Stop>,
) -> ShellEnd<Po, A>
    ensures same { (result.port ≡ shell.port) × (result.name ≡ shell.name) × (result.album ≡ shell.album) }
    ensures stop { result.stop ≡ stop_by flow }
    ensures status { result.status ≡ status_by flow status }
{
    let Shell {
        alloc: _,
        name,
        port,
        spawner: _,
        album,
        handles: _,
    } = shell;
    let (stop, status) = stop_of(flow, status);
    ShellEnd {
        name,
        status,
        stop,
        port,
        album,
    }
}
