// The top call.
ghost use Rattle.std.specs.Prelude.{◌≡◌, [], None, IfOk, OnOk, IsErrOf};
ghost use Rattle.ksh_base.specs.Source.{Rose};
ghost use Rattle.ksh_base.specs.Words.{IsKnown};
ghost use Rattle.ksh_run.specs.Script.{IsText, IsFile};
ghost use Rattle.ksh_run.specs.Top.{EndsBoth, EndsBy, EndsPlan, EndsRun, EndsText, IsFresh, IsRoot, why_of};
ghost use Rattle.ksh_run.specs.declared.ended.Why.TheVariants.{Memory};
ghost use Rattle.shell_family.specs.Told.{ForTold, from};
ghost use Rattle.ksh_base.specs.declared.source.ReadRefused.{ReadRefused};

use crate::check::check_root;
use crate::ended::{Ended, Why};
use crate::refuse::{lose, refuse, refuse_text, refuse_words};
use crate::texts::source_text;
use cmd_eval::run_job;
use kernel_ask::{Port, World};
use ksh_base::{
    Plan, ReadRefused, ScriptFrom, ShellName, Source, Text, WordsRefused, read_script, read_words,
};
use ksh_program::{Unparsed, read_program};
use ksh_script::List;
use shell_family::Forked;
use shell_state::{ShellState, Start};
use shell_thread::{Album, ShellStop, Spawner};
use std::alloc::Global;

/// The bytes that are taken of a file at most: one more than a script may have.
pub const MOST_READ: usize = 16_777_217;

/// The script's text. The source is read for a file alone.
pub fn script_text<S: Source>(
    alloc: Global,
    source: &mut S,
    script: ScriptFrom,
) -> Result<Text, ReadRefused>
    requires { IsKnown script }
    ensures text { IfOk result (IsText script (S.left source.old)) }
    ensures kept { OnOk result (S.faults source.new ≡ S.faults source.old) }
    ensures failed { IsErrOf result ReadRefused.Failed → IsFile script × Rose (S.faults source.old) (S.faults source.new) }
{
    match script {
        ScriptFrom::Given(text) => Ok(text),
        ScriptFrom::File(_) => read_script(alloc, source, MOST_READ),
        ScriptFrom::Generated(_) => unreachable!(),
    }
}

// Runs the list to its end.
fn run_list<Po: Port<Start> + 'static, P: Spawner + 'static, A: Album<Po> + 'static>(
    alloc: Global,
    budget: u64,
    body: List,
    port: Po,
    spawner: P,
    album: A,
) -> Ended<Po, A>
    requires fresh { IsFresh (Po.sees port) }
    requires album { ForTold (A.list album) (λ ends. ends ≡ []) }
    ensures ends { EndsRun Po.sees budget body result }
    ensures root { ForTold result.root (IsRoot Po.sees A.list P.faults (from (Po.sees port))) }
{
    let Ok(state) = ShellState::root(alloc, budget) else {
        return lose(alloc, port, spawner, album);
    };
    let end = run_job(
        alloc,
        Forked {
            name: ShellName::root(alloc),
            start: Start { state, body },
            port,
            spawner,
            album,
        },
    );
    Ended {
        status: end.status,
        why: why_of(end.stop),
        root: Some(end),
    }
}

// Why a run ended whose root ended so.
fn why_of(stop: ShellStop) -> Why
    ensures { result ≡ why_of stop }
{
    match stop {
        ShellStop::Meant => Why::Meant,
        ShellStop::Spent => Why::Spent,
        _ => Why::Memory,
    }
}

// Runs the script that the text is, or refuses it.
fn run_text<Po: Port<Start> + 'static, P: Spawner + 'static, A: Album<Po> + 'static>(
    alloc: Global,
    budget: u64,
    text: &[u8],
    port: Po,
    spawner: P,
    album: A,
) -> Ended<Po, A>
    requires fresh { IsFresh (Po.sees port) }
    requires album { ForTold (A.list album) (λ ends. ends ≡ []) }
    ensures ends { EndsText Po.sees budget text.now result }
    ensures root { ForTold result.root (IsRoot Po.sees A.list P.faults (from (Po.sees port))) }
{
    match read_program(alloc, text) {
        Ok(list) => run_list(alloc, budget, list, port, spawner, album),
        Err(Unparsed::Fault(fault)) => refuse_text(alloc, fault, port, spawner, album),
        Err(Unparsed::Memory) => lose(alloc, port, spawner, album),
    }
}

// Checks the text alone, or runs the script that it is.
fn run_or_check<Po: Port<Start> + 'static, P: Spawner + 'static, A: Album<Po> + 'static>(
    alloc: Global,
    check: bool,
    budget: u64,
    text: &[u8],
    port: Po,
    spawner: P,
    album: A,
) -> Ended<Po, A>
    requires fresh { IsFresh (Po.sees port) }
    requires album { ForTold (A.list album) (λ ends. ends ≡ []) }
    ensures ends { EndsBoth Po.sees check budget text.now result }
    ensures root { ForTold result.root (IsRoot Po.sees A.list P.faults (from (Po.sees port))) }
{
    if check {
        check_root(alloc, text, port, spawner, album)
    } else {
        run_text(alloc, budget, text, port, spawner, album)
    }
}

// Reads the script and runs it, or checks it alone.
fn run_plan<S: Source, Po: Port<Start> + 'static, P: Spawner + 'static, A: Album<Po> + 'static>(
    alloc: Global,
    plan: Plan,
    source: &mut S,
    port: Po,
    spawner: P,
    album: A,
) -> Ended<Po, A>
    requires known { IsKnown plan.script }
    requires fresh { IsFresh (Po.sees port) }
    requires album { ForTold (A.list album) (λ ends. ends ≡ []) }
    ensures ends { EndsPlan Po.sees plan (S.left source.old) (S.faults source.old) (S.faults source.new) result }
    ensures root { ForTold result.root (IsRoot Po.sees A.list P.faults (from (Po.sees port))) }
{
    match script_text(alloc, source, plan.script) {
        Ok(text) => run_or_check(
            alloc,
            plan.check,
            plan.budget,
            text.bytes(),
            port,
            spawner,
            album,
        ),
        Err(ReadRefused::Failed) => match source_text(alloc) {
            Ok(line) => refuse(alloc, port, spawner, album, Why::SourceFault, 122, line),
            Err(_) => lose(alloc, port, spawner, album),
        },
        Err(ReadRefused::Memory) => lose(alloc, port, spawner, album),
    }
}

// Memory ran out before there was a root.
fn no_root<Po, A>() -> Ended<Po, A>
    ensures { (result.why ≡ Memory) × (result.status ≡ 121) × (result.root ≡ None) }
{
    Ended {
        status: 121,
        why: Why::Memory,
        root: None,
    }
}

/// Runs the program's words: the script that they name, in a root shell of the world, and all that
/// it forks.
///
/// In this order: the words, the root's port, the source, the script's text, the run. `Usage`
/// comes exactly where the words have that fault, `SourceFault` exactly where a read of this call
/// failed, `Syntax` with the text's first fault, and each of them has written one line on
/// handle 2; else the root is a run of the script's commands, and `Meant` and `Spent` are the meaning's.
/// With `-n` the script is checked alone: `Meant` has the status 0 then, and nothing was asked. Want of memory may come at each step.
pub fn run_shell<
    S: Source,
    W: World<Start> + Drop,
    P: Spawner + 'static,
    A: Album<W::Port> + 'static,
>(
    alloc: Global,
    words: &[Text],
    env: &[(Text, Text)],
    source: &mut S,
    world: W,
    spawner: P,
    album: A,
) -> Ended<W::Port, A>
    requires env { env.now ≡ [] }
    requires album { ForTold (A.list album) (λ ends. ends ≡ []) }
    ensures ends { EndsBy W.Port.sees words.now (S.left source.old) (S.faults source.old) (S.faults source.new) result.why result.status result.root }
    ensures root { ForTold result.root (IsRoot W.Port.sees A.list P.faults (W.origin world, W.told world)) }
{
    let _ = env;
    match read_words(alloc, words) {
        Ok(plan) => match world.root(alloc) {
            Ok(port) => run_plan(alloc, plan, source, port, spawner, album),
            Err(_) => no_root(),
        },
        Err(WordsRefused::Usage(fault)) => match world.root(alloc) {
            Ok(port) => refuse_words(alloc, fault, port, spawner, album),
            Err(_) => no_root(),
        },
        Err(WordsRefused::Memory) => no_root(),
    }
}
