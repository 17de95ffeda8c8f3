ghost use Rattle.std.specs.Prelude.{◌≡◌, ℕ, ◌<◌, ◌+◌, ◌^◌, IfOk, OnOk, OnErr};
ghost use Rattle.kernel_objects.specs.declared.shell.Shell.{Shell};
ghost use Rattle.kernel_objects.specs.Rows.{at_number};
ghost use Rattle.kernel_objects.specs.Shells.{given, with_program};

use crate::opened::Held;
use kernel_ask::Phase;
use kernel_tables::Table;
use ksh_base::{Memory, ShellName};

/// A forked shell, as its parent knows it.
#[derive(Drop)]
pub struct Forked {
    pub name: ShellName,
    pub phase: Phase,
}

/// A shell. One that has ended stays, without handles.
#[derive(Drop)]
pub struct Shell {
    pub live: bool,
    /// The number of the next handle. Numbers are never used again.
    pub next: u64,
    pub handles: Table<u32, Held>,
    /// How many programs it has started.
    pub started: u32,
    /// The status of each program that it has started and not waited for, by its number.
    pub programs: Table<u32, u8>,
    /// Its forks, by their numbers, which count from 1.
    pub forks: Table<u32, Forked>,
}

impl Shell {
    /// Gives it a handle.
    pub fn give(&mut self, held: Held) -> Result<(), Memory>
        requires { self.old.next < 2 ^ 32 }
        ensures ok { OnOk result (self.new ≡ given self.old held) }
        ensures err { OnErr result (self.new ≡ self.old) }
    {
        self.handles.put(self.next as u32, held)?;
        self.next += 1;
        Ok(())
    }

    /// Gives it two handles.
    pub fn give_two(&mut self, first: Held, second: Held) -> Result<(), Memory>
        requires { self.old.next + 1 < 2 ^ 32 }
        ensures ok { OnOk result (self.new ≡ given (given self.old first) second) }
        ensures err { OnErr result (self.new ≡ self.old) }
    {
        let number = self.next as u32;
        let had = self.handles.put(number, first)?;
        if self.handles.put(number + 1, second).is_err() {
            self.handles.undo_put(&number, had);
            return Err(Memory);
        }
        self.next += 2;
        Ok(())
    }

    /// Notes a program that it has started, and answers what `unstart` takes.
    pub fn start(&mut self, status: u8) -> Result<Option<u8>, Memory>
        requires { self.old.started < 4294967295 }
        ensures had { IfOk result (λ had. had ≡ at_number (self.old.started + 1) self.old.programs) }
        ensures ok { OnOk result (self.new ≡ with_program self.old status) }
        ensures err { OnErr result (self.new ≡ self.old) }
    {
        let had = self.programs.put(self.started + 1, status)?;
        self.started += 1;
        Ok(had)
    }

    /// Takes back a `start` that has just been made, given what it answered.
    pub fn unstart(&mut self, had: Option<u8>)
        requires { 0 < self.old.started }
        ensures { (s : Shell) (status : ℕ) → self.old ≡ with_program s status → had ≡ at_number (s.started + 1) s.programs → self.new ≡ s }
    {
        let number = self.started;
        self.programs.undo_put(&number, had);
        self.started -= 1;
    }
}
