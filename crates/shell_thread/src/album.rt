// Ends of shells, and what keeps them.
ghost use Rattle.std.specs.Prelude.{◌≡◌, ◌<◌, ◌≤◌, ◌+◌, ℕ, List, Option, OnOk};
ghost use Rattle.shell_thread.specs.declared.album.ShellEnd.{ShellEnd};
ghost use Rattle.shell_thread.specs.Kept.{with, emptied};

use ksh_base::{Memory, ShellName};

/// Why a shell ended.
#[derive(Clone, Copy, Debug, PartialEq, Eq)]
pub enum ShellStop {
    /// Its script came to its end.
    Meant,
    /// The units to be spent weren't left.
    Spent,
    Memory,
    /// There was no thread for it.
    Unrun,
    /// A fault came before its script began.
    Before,
}

/// A shell that has ended, with its port and with the ends of its children.
#[derive(Debug, Drop)]
pub struct ShellEnd<Po, A> {
    pub name: ShellName,
    pub status: u8,
    pub stop: ShellStop,
    pub port: Po,
    pub album: A,
}

/// Keeps the ends of a shell's children.
pub trait Album<Po>: Sized + Send + Drop {
    /// What was kept, the oldest first, where it is told.
    ghost list: { Self → Option (List (ShellEnd Po Self)) };

    /// The ends for which there is room.
    ghost spare: { Self → ℕ };

    /// An empty album that tells exactly where this one does, for a child.
    fn fresh(&self) -> Self
        ensures { list result ≡ emptied (list self.now) };

    /// Makes room for as many ends. Room that was there stays.
    fn room(&mut self, ends: usize) -> Result<(), Memory>
        ensures room { OnOk result (ends ≤ spare self.new) }
        ensures kept { spare self.old ≤ spare self.new }
        ensures list { list self.new ≡ list self.old };

    /// Adds an end, last.
    fn keep(&mut self, end: ShellEnd<Po, Self>)
        requires { 0 < spare self.old }
        ensures list { list self.new ≡ with (list self.old) end }
        ensures spare { spare self.old ≤ spare self.new + 1 };
}
