// One ask.
ghost use Rattle.std.specs.Prelude.{◌≡◌, true, Some, cond};
ghost use Rattle.kernel_ask.specs.declared.ask.Answer.TheVariants.{Begun as SaysBegun, NoThread, ShellEnded};
ghost use Rattle.kernel_ask.specs.declared.ask.Ask.TheVariants.{Begin, WaitShell};
ghost use Rattle.kernel_ask.specs.declared.ask.Phase.TheVariants.{Made, Begun};
ghost use Rattle.kernel_core.specs.Forks.{fork_turn, forks, lives, phase};
ghost use Rattle.kernel_core.specs.Step.{AnswersWait, Begins, Tries, call_turn, has_ended, is_tried};
ghost use Rattle.kernel_core.specs.Turn.{Does};

use crate::kernel::Kernel;
use kernel_ask::{Answer, Ask, Call, Phase};
use ksh_base::{Memory, ShellName};
use std::alloc::Global;

impl Kernel {
    fn call(
        &mut self,
        alloc: Global,
        who: &ShellName,
        call: &Call,
    ) -> Result<Option<Answer>, Memory>
        ensures { Does (call_turn self.old who.now call.now) result self.old self.new }
    {
        match call {
            Call::Open { path, mode } => self.open(alloc, who, path, *mode),
            Call::Read { handle, max } => self.read(alloc, who, *handle, *max),
            Call::Write { handle, bytes } => self.write(who, *handle, bytes.bytes()),
            Call::Pipe => self.pipe(alloc, who),
            Call::Dup { handle } => self.dup(alloc, who, *handle),
            Call::Close { handle } => Ok(self.close(who, *handle)),
            Call::List { path } => self.list(alloc, who, path),
            Call::Stat { path } => self.stat(alloc, who, path),
            Call::Start { program } => self.start(alloc, who, program),
            Call::WaitProgram { number } => Ok(self.wait_program(who, *number)),
            Call::Poll { child } => Ok(self.poll(who, *child)),
        }
    }

    /// Answers a call or a fork of a shell that lives. It is none exactly where the ask isn't
    /// ready, and then, or on want of memory, nothing has changed.
    pub fn try_act<F>(
        &mut self,
        alloc: Global,
        who: &ShellName,
        ask: &Ask<F>,
    ) -> Result<Option<Answer>, Memory>
        requires live { lives self.old who.now ≡ true }
        requires tried { is_tried ask.now ≡ true }
        ensures { Tries self.old who.now ask.now result self.new }
    {
        match ask {
            Ask::Asked(call) => self.call(alloc, who, call),
            Ask::Fork { keep, .. } => self.fork(alloc, who, keep.as_slice()),
            Ask::Begin { .. } | Ask::WaitShell { .. } => Ok(None),
        }
    }

    /// Says whether the last fork of a shell has begun, or there was no thread for it. Takes no
    /// memory.
    pub fn mark(&mut self, who: &ShellName, child: u32, begun: bool)
        requires live { lives self.old who.now ≡ true }
        requires last { child ≡ forks self.old who.now }
        requires made { phase self.old who.now child ≡ Some Made }
        ensures { Begins self.old who.now child (cond begun SaysBegun NoThread) self.new }
    {
        let phase = if begun { Phase::Begun } else { Phase::Unrun };
        self.set_phase(who, child, phase);
    }

    fn has_ended(&self, who: &ShellName, child: u32) -> bool
        ensures { result ≡ has_ended self.now who.now child }
    {
        let Some(shell) = self.shells.get(who) else {
            return false;
        };
        match shell.forks.get(&child) {
            Some(forked) => !self.lives(&forked.name),
            None => false,
        }
    }

    /// Notes that a shell waited for a begun fork, and with what status this ended. It is false
    /// exactly where the fork hasn't ended, and then nothing has changed. Takes no memory.
    pub fn waited(&mut self, who: &ShellName, child: u32, status: u8) -> bool
        requires live { lives self.old who.now ≡ true }
        requires begun { phase self.old who.now child ≡ Some Begun }
        ensures { AnswersWait self.old who.now child status result self.new }
    {
        if !self.has_ended(who, child) {
            return false;
        }
        self.set_phase(who, child, Phase::Waited);
        true
    }
}
