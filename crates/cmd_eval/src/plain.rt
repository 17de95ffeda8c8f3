// Asks and texts.
ghost use Rattle.std.specs.Prelude.{◌≡◌, ◌≤◌};
ghost use Rattle.kernel_ask.specs.declared.ask.Ask.TheVariants.{Asked};
ghost use Rattle.ksh_meaning.specs.Units.{asked};
ghost use Rattle.ksh_meaning.specs.Faults.{tell, fail};
ghost use Rattle.ksh_meaning.specs.Assign.{assigned, settled};
ghost use Rattle.ksh_meaning.specs.Subshell.{not_forked};
ghost use Rattle.ksh_meaning.specs.Finished.{Means, ended};
ghost use Rattle.shell_family.specs.Fits.{IsShell, Stays};

use kernel_ask::{Answer, Call, Handle, Port, Refusal};
use ksh_meaning::{fault_text, refused_text, settle_text, spend};
use ksh_script::Assign;
use shell_family::Shell;
use shell_state::{Flow, ShellState, Start, Stop};
use shell_thread::{Album, Spawner};
use word_expand::assign;

// One ask, for one unit.
pub fn ask<Po: Port<Start>, P: Spawner, A: Album<Po>>(
    shell: &mut Shell<Po, P, A>,
    state: &mut ShellState,
    call: Call,
) -> Result<Answer, Stop>
    requires { IsShell Po.sees A.list P.faults A.spare state.old.level shell.old }
    ensures means { Means state.old.budget (Po.sees shell.old.port).done (Po.sees shell.new.port).done (λ n. asked (Asked call) state.old) (ended state.new result) }
    ensures shell { IsShell Po.sees A.list P.faults A.spare state.old.level shell.new }
    ensures stays { Stays Po.sees P.faults shell.old shell.new }
    ensures level { state.new.level ≡ state.old.level }
    ensures budget { state.new.budget ≤ state.old.budget }
{
    if !spend(state, 1) {
        return Err(Stop::Spent);
    }
    match shell.port.act(shell.alloc, call) {
        Ok(answer) => Ok(answer),
        Err(_) => Err(Stop::Memory),
    }
}

// A text on descriptor 2, from the command of that line.
fn tell<Po: Port<Start>, P: Spawner, A: Album<Po>>(
    shell: &mut Shell<Po, P, A>,
    state: &mut ShellState,
    line: u32,
    words: &[u8],
) -> Result<Flow, Stop>
    requires { IsShell Po.sees A.list P.faults A.spare state.old.level shell.old }
    ensures means { Means state.old.budget (Po.sees shell.old.port).done (Po.sees shell.new.port).done (λ n. tell line words.now state.old) (ended state.new result) }
    ensures shell { IsShell Po.sees A.list P.faults A.spare state.old.level shell.new }
    ensures stays { Stays Po.sees P.faults shell.old shell.new }
    ensures level { state.new.level ≡ state.old.level }
    ensures budget { state.new.budget ≤ state.old.budget }
{
    let Ok(bytes) = fault_text(shell.alloc, line, words) else {
        return Err(Stop::Memory);
    };
    let call = Call::Write {
        handle: Handle(2),
        bytes,
    };
    match ask(shell, state, call) {
        Ok(answer) => Ok(settle_text(state, answer)),
        Err(stop) => Err(stop),
    }
}

// A fork was refused.
pub fn not_forked<Po: Port<Start>, P: Spawner, A: Album<Po>>(
    shell: &mut Shell<Po, P, A>,
    state: &mut ShellState,
    line: u32,
    refusal: Refusal,
) -> Result<Flow, Stop>
    requires { IsShell Po.sees A.list P.faults A.spare state.old.level shell.old }
    ensures means { Means state.old.budget (Po.sees shell.old.port).done (Po.sees shell.new.port).done (λ n. not_forked line refusal state.old) (ended state.new result) }
    ensures shell { IsShell Po.sees A.list P.faults A.spare state.old.level shell.new }
    ensures stays { Stays Po.sees P.faults shell.old shell.new }
    ensures level { state.new.level ≡ state.old.level }
    ensures budget { state.new.budget ≤ state.old.budget }
{
    let Ok(words) = refused_text(shell.alloc, b"fork", refusal) else {
        return Err(Stop::Memory);
    };
    match tell(shell, state, line, words.bytes()) {
        Ok(Flow::Next) => {
            state.status = 1;
            Ok(Flow::Next)
        }
        Ok(Flow::Exit) => Ok(Flow::Exit),
        Err(stop) => Err(stop),
    }
}

// A fault has its text, and the shell ends.
pub fn fail<Po: Port<Start>, P: Spawner, A: Album<Po>>(
    shell: &mut Shell<Po, P, A>,
    state: &mut ShellState,
    line: u32,
    words: &[u8],
) -> Result<Flow, Stop>
    requires { IsShell Po.sees A.list P.faults A.spare state.old.level shell.old }
    ensures means { Means state.old.budget (Po.sees shell.old.port).done (Po.sees shell.new.port).done (λ n. fail line words.now state.old) (ended state.new result) }
    ensures shell { IsShell Po.sees A.list P.faults A.spare state.old.level shell.new }
    ensures stays { Stays Po.sees P.faults shell.old shell.new }
    ensures level { state.new.level ≡ state.old.level }
    ensures budget { state.new.budget ≤ state.old.budget }
{
    match tell(shell, state, line, words) {
        Ok(Flow::Next) => {
            state.status = 1;
            Ok(Flow::Exit)
        }
        Ok(Flow::Exit) => Ok(Flow::Exit),
        Err(stop) => Err(stop),
    }
}

// Assignments without a command word.
pub fn eval_assign<Po: Port<Start>, P: Spawner, A: Album<Po>>(
    shell: &mut Shell<Po, P, A>,
    state: &mut ShellState,
    line: u32,
    assigns: &[Assign],
) -> Result<Flow, Stop>
    requires { IsShell Po.sees A.list P.faults A.spare state.old.level shell.old }
    ensures means { Means state.old.budget (Po.sees shell.old.port).done (Po.sees shell.new.port).done (λ n. settled line (assigned assigns.now state.old)) (ended state.new result) }
    ensures shell { IsShell Po.sees A.list P.faults A.spare state.old.level shell.new }
    ensures stays { Stays Po.sees P.faults shell.old shell.new }
    ensures level { state.new.level ≡ state.old.level }
    ensures budget { state.new.budget ≤ state.old.budget }
{
    let Ok(refused) = assign(shell.alloc, state, assigns) else {
        return Err(Stop::Memory);
    };
    match refused {
        None => Ok(Flow::Next),
        Some(words) => fail(shell, state, line, words.bytes()),
    }
}
