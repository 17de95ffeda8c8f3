// Ends of a root before its list began.
ghost use Rattle.std.specs.Prelude.{◌≡◌, [], true, false};
ghost use Rattle.ksh_run.specs.Texts.{syntax_line, usage_line};
ghost use Rattle.ksh_run.specs.Top.{IsFresh, IsLost, IsRoot, Passes, Refuses};
ghost use Rattle.ksh_run.specs.declared.ended.Why.TheVariants.{Syntax, Usage};
ghost use Rattle.kernel_ask.specs.Seen.{acted, ended};
ghost use Rattle.kernel_ask.specs.declared.ask.Answer.{Answer};
ghost use Rattle.ksh_meaning.specs.Output.{write};
ghost use Rattle.shell_family.specs.Told.{ForTold, from};
ghost use Rattle.shell_thread.specs.declared.album.ShellStop.TheVariants.{Before};

use crate::ended::{Ended, Why};
use crate::texts::{syntax_text, usage_text};
use kernel_ask::{Call, Handle, Port};
use ksh_base::{ShellName, Text, UsageFault};
use ksh_lexer::SyntaxFault;
use shell_state::Start;
use shell_thread::{Album, ShellEnd, ShellStop, Spawner};
use std::alloc::Global;

// The end of a root whose list never began.
fn before<Po: Port<Start>, A: Album<Po>>(
    alloc: Global,
    mut port: Po,
    status: u8,
    album: A,
) -> ShellEnd<Po, A>
    requires { (Po.sees port).live ≡ true }
    ensures parts { (result.name ≡ []) × (result.status ≡ status) × (result.stop ≡ Before) × (result.album ≡ album) }
    ensures port { Po.sees result.port ≡ ended (Po.sees port) }
{
    port.end();
    ShellEnd {
        name: ShellName::root(alloc),
        status,
        stop: ShellStop::Before,
        port,
        album,
    }
}

/// Memory ran out before anything was asked. Nothing was started, and the spawner is let go.
pub fn lose<Po: Port<Start>, P: Spawner, A: Album<Po>>(
    alloc: Global,
    port: Po,
    _spawner: P,
    album: A,
) -> Ended<Po, A>
    requires fresh { IsFresh (Po.sees port) }
    requires album { ForTold (A.list album) (λ ends. ends ≡ []) }
    ensures lost { IsLost Po.sees result.why result.status result.root }
    ensures root { ForTold result.root (IsRoot Po.sees A.list P.faults (from (Po.sees port))) }
{
    Ended {
        status: 121,
        why: Why::Memory,
        root: Some(before(alloc, port, 121, album)),
    }
}

/// The script was checked alone, and has no fault. Nothing was asked.
pub fn pass<Po: Port<Start>, P: Spawner, A: Album<Po>>(
    alloc: Global,
    port: Po,
    _spawner: P,
    album: A,
) -> Ended<Po, A>
    requires fresh { IsFresh (Po.sees port) }
    requires album { ForTold (A.list album) (λ ends. ends ≡ []) }
    ensures passes { Passes Po.sees result }
    ensures root { ForTold result.root (IsRoot Po.sees A.list P.faults (from (Po.sees port))) }
{
    Ended {
        status: 0,
        why: Why::Meant,
        root: Some(before(alloc, port, 0, album)),
    }
}

/// The words have a fault.
pub fn refuse_words<Po: Port<Start>, P: Spawner, A: Album<Po>>(
    alloc: Global,
    fault: UsageFault,
    port: Po,
    spawner: P,
    album: A,
) -> Ended<Po, A>
    requires fresh { IsFresh (Po.sees port) }
    requires album { ForTold (A.list album) (λ ends. ends ≡ []) }
    ensures refuses { Refuses Po.sees (Usage fault) (usage_line fault) 2 result }
    ensures root { ForTold result.root (IsRoot Po.sees A.list P.faults (from (Po.sees port))) }
{
    match usage_text(alloc, fault) {
        Ok(line) => refuse(alloc, port, spawner, album, Why::Usage(fault), 2, line),
        Err(_) => lose(alloc, port, spawner, album),
    }
}

/// The script's text has a fault.
pub fn refuse_text<Po: Port<Start>, P: Spawner, A: Album<Po>>(
    alloc: Global,
    fault: SyntaxFault,
    port: Po,
    spawner: P,
    album: A,
) -> Ended<Po, A>
    requires fresh { IsFresh (Po.sees port) }
    requires album { ForTold (A.list album) (λ ends. ends ≡ []) }
    ensures refuses { Refuses Po.sees (Syntax fault) (syntax_line fault) 2 result }
    ensures root { ForTold result.root (IsRoot Po.sees A.list P.faults (from (Po.sees port))) }
{
    match syntax_text(alloc, fault) {
        Ok(line) => refuse(alloc, port, spawner, album, Why::Syntax(fault), 2, line),
        Err(_) => lose(alloc, port, spawner, album),
    }
}

/// One Write of the line on handle 2, whatever its answer.
pub fn refuse<Po: Port<Start>, P: Spawner, A: Album<Po>>(
    alloc: Global,
    mut port: Po,
    spawner: P,
    album: A,
    why: Why,
    status: u8,
    line: Text,
) -> Ended<Po, A>
    requires fresh { IsFresh (Po.sees port) }
    requires album { ForTold (A.list album) (λ ends. ends ≡ []) }
    ensures refuses { Refuses Po.sees why line status result }
    ensures root { ForTold result.root (IsRoot Po.sees A.list P.faults (from (Po.sees port))) }
{
    if write_line(alloc, &mut port, line) {
        return Ended {
            status,
            why,
            root: Some(before(alloc, port, status, album)),
        };
    }
    lose(alloc, port, spawner, album)
}

// One Write of the line on handle 2. Whether there was memory for it.
fn write_line<Po: Port<Start>>(alloc: Global, port: &mut Po, line: Text) -> bool
    requires { (Po.sees port.old).live ≡ true }
    ensures asked { result ≡ true → (answer : Answer) × (Po.sees port.new ≡ acted (Po.sees port.old) (write 2 line) answer) }
    ensures not { result ≡ false → Po.sees port.new ≡ Po.sees port.old }
{
    let call = Call::Write {
        handle: Handle(2),
        bytes: line,
    };
    port.act(alloc, call).is_ok()
}
