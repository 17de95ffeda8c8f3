ghost use Rattle.std.specs.Prelude.{◌≡◌, IfOk};

use kernel_tables::{FileBytes, Queue};
use ksh_base::{Memory, ShellName, Text};
use std::alloc::Global;

/// What a handle is good for.
#[derive(Clone, Copy, Debug, PartialEq, Eq)]
pub enum Side {
    Reads,
    Writes,
    Both,
}

/// What stands behind a handle: the name of an open row, and the side of it.
///
/// An open row is named by the shell that opened it and the first handle that this shell got for
/// it, as the list of the shell's numbers followed by the handle. So no name depends on which of
/// two shells came first.
#[derive(Debug, Drop)]
pub struct Held {
    pub row: ShellName,
    pub side: Side,
}

impl Held {
    /// The same row and side.
    pub fn copy(&self, alloc: Global) -> Result<Held, Memory>
        ensures { IfOk result (λ h. h ≡ self.now) }
    {
        let row = self.row.copy(alloc)?;
        Ok(Held {
            row,
            side: self.side,
        })
    }
}

/// What reads and writes through an open row reach. Places are counted in bytes from 0.
#[derive(Drop)]
pub enum Stream {
    /// The box's input, which is read from the place on.
    Input {
        place: usize,
    },
    /// The box's output.
    Output,
    /// The box's errors.
    Errors,
    /// Takes every byte and gives none.
    Null,
    /// The file at a path; writes go to its end or to the place.
    File {
        path: Text,
        place: usize,
        appends: bool,
    },
    /// A pipe, with the bytes that it holds.
    Pipe {
        held: Queue,
    },
    /// A nameless file, with a place for each side.
    Scratch {
        bytes: FileBytes,
        read_at: usize,
        write_at: usize,
    },
}

/// An open row: what one Open or Pipe opened, with how many handles, of all shells, stand for it.
/// It goes with the last of them.
#[derive(Drop)]
pub struct Opened {
    /// Handles that read, or do both.
    pub readers: u64,
    /// Handles that only write.
    pub writers: u64,
    pub stream: Stream,
}
