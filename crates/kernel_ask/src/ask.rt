ghost use Rattle.std.specs.Prelude.{◌≡◌, IfOk};

use ksh_base::{Items, Memory, Text};
use std::alloc::Global;

/// A list of texts.
pub type Texts = Items<Text>;

/// An open file or an end of a pipe, by its number in one shell. A shell's own handles count on
/// from 3 and are never used again.
#[derive(Clone, Copy, Debug, PartialEq, Eq, PartialOrd, Ord)]
pub struct Handle(pub u32);

/// How a file is opened.
#[derive(Clone, Copy, Debug, PartialEq, Eq)]
pub enum Mode {
    /// For reading.
    Read,
    /// For writing, cut to nothing, made where it is missing.
    Write,
    /// For writing at the end, made where it is missing.
    Append,
    /// For both, from the start, made where it is missing.
    ReadWrite,
    /// For writing to a file that must not be there yet.
    New,
    /// A nameless file, once for reading and once for writing; no path is looked at.
    Scratch,
}

/// A program to be started.
#[derive(Debug, Drop)]
pub struct Program {
    pub path: Text,
    /// The words after the command's name.
    pub args: Texts,
    /// Items `NAME=value`.
    pub env: Texts,
    pub cwd: Text,
    pub input: Option<Handle>,
    pub output: Option<Handle>,
    pub errors: Option<Handle>,
}

/// A call on the world. Paths are absolute, without `.`, `..` and `//`.
#[derive(Debug, Drop)]
pub enum Call {
    Open { path: Text, mode: Mode },
    Read { handle: Handle, max: u32 },
    Write { handle: Handle, bytes: Text },
    Pipe,
    Dup { handle: Handle },
    Close { handle: Handle },
    List { path: Text },
    Stat { path: Text },
    Start { program: Program },
    WaitProgram { number: u32 },
    Poll { child: u32 },
}

/// What a transcript says was asked: a call, or one of the three asks about a forked shell.
#[derive(Debug, Drop)]
pub enum Ask<F> {
    Asked(Call),
    Fork { start: F, keep: Items<Handle> },
    Begin { child: u32 },
    WaitShell { child: u32 },
}

/// What is known of a file.
#[derive(Clone, Copy, Debug, PartialEq, Eq)]
pub struct FileFacts {
    pub folder: bool,
    pub plain: bool,
    /// In bytes; 0 for all but files.
    pub size: u64,
    pub readable: bool,
    pub writable: bool,
    pub runnable: bool,
}

/// Why an ask was refused.
#[derive(Clone, Copy, Debug, PartialEq, Eq)]
pub enum Refusal {
    NoEntry,
    NotDir,
    IsDir,
    Exists,
    Denied,
    BadHandle,
    Broken,
    Io,
    TooMany,
}

/// What the world answers.
#[derive(Debug, Drop)]
pub enum Answer {
    Opened(Handle),
    /// The end for reading, then the one for writing.
    Pair(Handle, Handle),
    Bytes(Text),
    /// All bytes were written.
    Taken,
    Closed,
    Names(Texts),
    Facts(FileFacts),
    Started(u32),
    ProgramEnded(u16),
    Running,
    Over,
    Forked(u32),
    Begun,
    NoThread,
    ShellEnded(u8),
    Refused(Refusal),
}

/// An ask with its answer.
#[derive(Debug, Drop)]
pub struct Entry<F> {
    pub ask: Ask<F>,
    pub answer: Answer,
}

/// How far a forked shell is.
#[derive(Clone, Copy, Debug, PartialEq, Eq)]
pub enum Phase {
    /// Forked, and neither begun nor given up.
    Made,
    Begun,
    /// There was no thread for it.
    Unrun,
    /// Begun, ended and waited for.
    Waited,
}

/// What a fork hands to the forked shell, and records in the transcript.
pub trait Snapshot: Sized + Drop {
    /// A copy, equal to this.
    fn fork(&self, alloc: Global) -> Result<Self, Memory>
        ensures { IfOk result (λ s. s ≡ self.now) };
}

/// Why there is no fork. What was handed over comes back.
#[derive(Debug, Drop)]
pub enum ForkRefused<F> {
    Memory(F),
    Refused(Refusal, F),
}
