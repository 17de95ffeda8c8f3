ghost use Rattle.std.specs.Prelude.{◌≡◌, Some};
ghost use Rattle.kernel_ask.specs.declared.ask.Answer.TheVariants.{Refused};

use kernel_ask::{Answer, Refusal};
use kernel_objects::{Files, Opened, Shell};
use kernel_tables::Table;
use ksh_base::{ShellName, Text};

pub(crate) const MOST_HANDLES: usize = 1024;

pub(crate) const MOST_SHELLS: usize = 4096;

pub(crate) const MOST_FILES: usize = 65_536;

pub(crate) const MOST_BYTES: usize = 16_777_216;

pub(crate) const MOST_HELD: usize = 65_536;

pub(crate) const MOST_NUMBER: u64 = 4_294_967_295;

/// What is there whether or not a handle stands for it.
#[derive(Drop)]
pub struct Stores {
    pub(crate) files: Files,
    /// How many nameless files there are.
    pub(crate) nameless: usize,
    pub(crate) input: Text,
    /// What was written on the opening handle 1.
    pub(crate) output: Text,
    /// What was written on the opening handle 2.
    pub(crate) errors: Text,
}

/// What is open, by name.
pub type Opens = Table<ShellName, Opened>;

/// Every shell that was made, by its name.
pub type Shells = Table<ShellName, Shell>;

/// A kernel in memory. Rows stand in the order of names that don't depend on which of two shells
/// came first.
#[derive(Drop)]
pub struct Kernel {
    pub(crate) shells: Shells,
    pub(crate) opens: Opens,
    pub(crate) stores: Stores,
}

pub(crate) fn refuse(why: Refusal) -> Option<Answer>
    ensures { result ≡ Some (Refused why) }
{
    Some(Answer::Refused(why))
}
