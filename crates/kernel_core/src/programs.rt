// Start and WaitProgram.
ghost use Rattle.std.specs.Prelude.{◌≡◌, ◌<◌, IfOk};
ghost use Rattle.kernel_objects.specs.Paths.{node_at};
ghost use Rattle.kernel_core.specs.Programs.{DoesOutput, is_given, run_of, start_refusal, start_turn, wait_program_turn};
ghost use Rattle.kernel_core.specs.Handles.{is_reading, is_writing};
ghost use Rattle.kernel_core.specs.Transfer.{write_stream};
ghost use Rattle.kernel_core.specs.Turn.{Does};

use crate::kernel::{Kernel, Stores, refuse};
use crate::transfer::{held_for_reading, held_for_writing, write_stream};
use kernel_ask::{Answer, Handle, Program, Refusal};
use kernel_objects::{Files, Node, Opened, Shell, refused_before};
use ksh_base::{Memory, ShellName, Text};
use std::alloc::Global;

/// What a run of a program puts out, and its status.
#[derive(Drop)]
pub struct Run {
    pub output: Text,
    pub status: u8,
}

// The program at the path, or why there is none.
fn run_of(alloc: Global, files: &Files, path: &Text) -> Result<Result<Run, Refusal>, Memory>
    ensures { IfOk result (λ r. r ≡ run_of (node_at files.now path.now)) }
{
    match files.get(path) {
        None => Ok(Err(Refusal::NoEntry)),
        Some(Node::Folder) => Ok(Err(Refusal::IsDir)),
        Some(Node::File { .. } | Node::Null) => Ok(Err(Refusal::Denied)),
        Some(Node::Program { output, status }) => {
            let output = output.copy(alloc)?;
            Ok(Ok(Run {
                output,
                status: *status,
            }))
        }
    }
}

fn is_given_reading(shell: &Shell, handle: Option<Handle>) -> bool
    ensures { result ≡ is_given is_reading shell.now handle }
{
    match handle {
        None => true,
        Some(handle) => held_for_reading(shell, handle).is_some(),
    }
}

fn is_given_writing(shell: &Shell, handle: Option<Handle>) -> bool
    ensures { result ≡ is_given is_writing shell.now handle }
{
    match handle {
        None => true,
        Some(handle) => held_for_writing(shell, handle).is_some(),
    }
}

fn start_refusal(shell: &Shell, program: &Program) -> Option<Refusal>
    ensures { result ≡ start_refusal shell.now program.now }
{
    let given = is_given_reading(shell, program.input)
        && is_given_writing(shell, program.output)
        && is_given_writing(shell, program.errors);
    if !given {
        return Some(Refusal::BadHandle);
    }
    if shell.started == u32::MAX {
        return Some(Refusal::TooMany);
    }
    None
}

// Notes a program, once its output was taken by an open row; else the answer is the write's.
fn put_out(
    shell: &mut Shell,
    opened: &mut Opened,
    stores: &mut Stores,
    run: &Run,
) -> Result<Option<Answer>, Memory>
    requires { shell.old.started < 4294967295 }
    ensures { DoesOutput shell.old run.now.status (write_stream opened.old.stream run.now.output opened.old stores.old) result shell.new opened.old opened.new stores.old stores.new }
{
    let had = shell.start(run.status)?;
    let answer = write_stream(opened, stores, run.output.bytes());
    if let Ok(Some(Answer::Taken)) = answer {
        return Ok(Some(Answer::Started(shell.started)));
    }
    shell.unstart(had);
    answer
}

impl Kernel {
    /// Runs a program: its output is written at once.
    #[tactic(auto, using(std::proofs::lemmas::Map::Steps::set_value_same))]
    pub(crate) fn start(
        &mut self,
        alloc: Global,
        who: &ShellName,
        program: &Program,
    ) -> Result<Option<Answer>, Memory>
        ensures { Does (start_turn self.old who.now program.now) result self.old self.new }
    {
        let Some(shell) = self.shells.get_mut(who) else {
            return Ok(None);
        };
        if let Some(why) = refused_before(&self.stores.files, alloc, &program.path)? {
            return Ok(refuse(why));
        }
        let run = match run_of(alloc, &self.stores.files, &program.path)? {
            Ok(run) => run,
            Err(why) => return Ok(refuse(why)),
        };
        if let Some(why) = start_refusal(shell, program) {
            return Ok(refuse(why));
        }
        let Some(handle) = program.output else {
            shell.start(run.status)?;
            return Ok(Some(Answer::Started(shell.started)));
        };
        let Some(held) = held_for_writing(shell, handle) else {
            return Ok(refuse(Refusal::BadHandle));
        };
        let row = held.row.copy(alloc)?;
        let Some(opened) = self.opens.get_mut(&row) else {
            return Ok(refuse(Refusal::BadHandle));
        };
        put_out(shell, opened, &mut self.stores, &run)
    }

    /// The status of a program, once.
    #[tactic(auto, using(std::proofs::lemmas::Map::Steps::set_value_same, crate::proofs::Absent::remove_absent))]
    pub(crate) fn wait_program(&mut self, who: &ShellName, number: u32) -> Option<Answer>
        ensures { Does (wait_program_turn self.old who.now number) (Ok result) self.old self.new }
    {
        let shell = self.shells.get_mut(who)?;
        let Some(status) = shell.programs.remove(&number) else {
            return refuse(Refusal::BadHandle);
        };
        Some(Answer::ProgramEnded(u16::from(status)))
    }
}
