// The world of standard output and standard error.
ghost use Rattle.std.specs.Prelude.{◌≡◌, ◌<◌, ◌≤◌, ◌+◌, false, true, None, [], ◌∷◌, ◌++◌, length, vec_len, vec_capacity, slice_set, IfOk, IfErr, OnErr};
ghost use Rattle.kernel_ask.specs.Causes.{CountsRefusal};

use kernel_ask::{Answer, Call, ForkRefused, Handle, Phase, Port, Refusal, Snapshot, World};
use ksh_base::{Memory, ShellName, Text};
use std::alloc::Global;
use std::io::{self, ErrorKind, Print, Stderr, Stdout};

/// A world that writes handle 1 on standard output and handle 2 on standard error, lets each
/// handle be closed, and refuses every other call as Io. It tells no transcript.
#[derive(Drop)]
pub struct StdWorld {
    out: Stdout,
    errors: Stderr,
}

impl StdWorld {
    pub fn new(out: Stdout, errors: Stderr) -> StdWorld
        ensures { (result.out ≡ out) × (result.errors ≡ errors) }
    {
        StdWorld { out, errors }
    }
}

/// The part of that world that one shell sees.
#[derive(Drop)]
pub struct StdPort {
    out: Stdout,
    errors: Stderr,
    name: ShellName,
    children: Vec<Phase>,
    live: bool,
    refusals: u64,
}

impl StdPort {
    fn new(alloc: Global, out: Stdout, errors: Stderr, name: ShellName) -> StdPort
        ensures name { result.name ≡ name }
        ensures children { result.children.items ≡ [] }
        ensures live { result.live ≡ true }
        ensures refusals { result.refusals ≡ 0 }
    {
        StdPort {
            out,
            errors,
            name,
            children: Vec::new(alloc),
            live: true,
            refusals: 0,
        }
    }

    fn write(&self, handle: Handle, bytes: &Text) -> Answer {
        let written = match handle.0 {
            1 => self.out.write_all(bytes.bytes()),
            2 => self.errors.write_all(bytes.bytes()),
            _ => return Answer::Refused(Refusal::Io),
        };
        match written {
            Ok(()) => Answer::Taken,
            Err(error) => Answer::Refused(refusal_of(&error)),
        }
    }

    fn answer(&self, call: &Call) -> Answer {
        match call {
            Call::Write { handle, bytes } => self.write(*handle, bytes),
            Call::Close { .. } => Answer::Closed,
            _ => Answer::Refused(Refusal::Io),
        }
    }

    // The port of the next fork, with room for it.
    fn child(&mut self, alloc: Global, number: u32) -> Result<StdPort, Memory>
        ensures child { IfOk result (λ p. (p.name ≡ self.old.name ++ number ∷ []) × (p.children.items ≡ []) × (p.live ≡ true) × (p.refusals ≡ 0)) }
        ensures room { IfOk result (λ p. vec_len self.new.children < vec_capacity self.new.children) }
        ensures same { (self.new.name ≡ self.old.name) × (self.new.children.items ≡ self.old.children.items) × (self.new.live ≡ self.old.live) × (self.new.refusals ≡ self.old.refusals) }
    {
        let name = self.name.child(alloc, number)?;
        self.children.reserve(1)?;
        Ok(StdPort::new(alloc, self.out, self.errors, name))
    }
}

fn refusal_of(error: &io::Error) -> Refusal {
    if error.kind() == ErrorKind::BrokenPipe {
        Refusal::Broken
    } else {
        Refusal::Io
    }
}

impl<F: Snapshot> Port<F> for StdPort {
    ghost sees = { λ p. record { done = None; children = p.children.items; live = p.live; name = p.name; origin = 0 } };

    ghost refusals = { λ p. p.refusals };

    ghost covers = { λ p. tt };

    fn act(&mut self, _alloc: Global, call: Call) -> Result<Answer, Memory> {
        let answer = self.answer(&call);
        if matches!(answer, Answer::Refused(_)) {
            self.refusals = self.refusals.saturating_add(1);
        }
        Ok(answer)
    }

    fn fork(
        &mut self,
        alloc: Global,
        start: F,
        _keep: &[Handle],
    ) -> Result<(u32, Self), ForkRefused<F>> {
        let many = self.children.len();
        if many >= u32::MAX as usize {
            self.refusals = self.refusals.saturating_add(1);
            return Err(ForkRefused::Refused(Refusal::TooMany, start));
        }
        let number = many as u32 + 1;
        let Ok(child) = self.child(alloc, number) else {
            return Err(ForkRefused::Memory(start));
        };
        self.children.push_reserved(Phase::Made);
        Ok((number, child))
    }

    fn mark(&mut self, child: u32, begun: bool) {
        let at = child as usize - 1;
        self.children[at] = if begun { Phase::Begun } else { Phase::Unrun };
    }

    fn waited(&mut self, child: u32, _status: u8) {
        let at = child as usize - 1;
        self.children[at] = Phase::Waited;
    }

    fn end(&mut self) {
        self.live = false;
    }
}

impl<F: Snapshot> World<F> for StdWorld {
    type Port = StdPort;

    ghost origin = { λ _. 0 };

    ghost told = { λ _. false };

    fn root(self, alloc: Global) -> Result<StdPort, Memory> {
        Ok(StdPort::new(alloc, self.out, self.errors, ShellName::root(alloc)))
    }
}
