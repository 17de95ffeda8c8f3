ghost use Rattle.std.specs.Prelude.{◌≡◌, IfOk, OnOk, OnErr, ◌++◌, ◌∷◌, []};
ghost use Rattle.kernel_objects.specs.Standard.{standard_entries, standard_plan};

use kernel_ask::Refusal;
use ksh_base::{Items, Memory, ShellName, Text};
use std::alloc::Global;
use thiserror::Error;

/// What stands at a path when a box opens.
#[derive(Debug, Drop)]
pub enum BoxEntry {
    Folder,
    /// A file.
    Plain { bytes: Text, writable: bool },
    /// A program: what each run of it puts out, and its status.
    Program { output: Text, status: u8 },
    /// Takes every byte and gives none.
    Null,
}

/// How a box opens, and what it refuses.
#[derive(Debug, Drop)]
pub struct BoxPlan {
    /// Each path with what stands there; a folder comes before what is in it.
    pub entries: Items<(Text, BoxEntry)>,
    /// What the root's handle 0 gives.
    pub input: Text,
    /// Asks that are refused whatever the kernel says: the shell, which of its asks, counted from
    /// 0, and why.
    pub refusals: Items<(ShellName, u64, Refusal)>,
    /// After so many turns an ask that isn't ready is refused as Io; none: it waits on.
    pub patience: Option<u64>,
}

/// Why there is no such box: the first fault in the order of the entries, with its entry's place.
#[derive(Clone, Copy, Debug, PartialEq, Eq, Error)]
pub enum BoxFault {
    /// The path isn't absolute, or it isn't `/` and has a component that is empty, `.` or `..`.
    #[error("the path of entry {0} is not absolute and plain")]
    BadPath(usize),
    /// The path stands in an earlier entry.
    #[error("the path of entry {0} stands there twice")]
    Doubled(usize),
    /// It isn't `/`, and no earlier entry is the folder that it is in.
    #[error("entry {0} is in no folder above it")]
    NoFolder(usize),
    /// A file has more than 16,777,216 bytes, or a program puts out more than 4,096.
    #[error("entry {0} has too many bytes")]
    TooLong(usize),
    #[error("out of memory")]
    Memory,
}

impl From<Memory> for BoxFault {
    ghost use Rattle.std.specs.Prelude.{◌≡◌};
    ghost use Rattle.kernel_objects.specs.declared.plan.BoxFault.TheVariants.{Memory};

    ghost from_gives = { λ _ e. e ≡ Memory };

    fn from(_refused: Memory) -> BoxFault {
        BoxFault::Memory
    }
}

type Entries = Items<(Text, BoxEntry)>;

fn add(alloc: Global, entries: &mut Entries, path: &[u8], entry: BoxEntry) -> Result<(), Memory>
    ensures ok { OnOk result (entries.new ≡ entries.old ++ (path.now, entry) ∷ []) }
{
    entries.push((Text::of(alloc, path)?, entry))?;
    Ok(())
}

fn standard_entries(alloc: Global) -> Result<Entries, Memory>
    ensures { IfOk result (λ es. es ≡ standard_entries) }
{
    let mut entries = Items::new(alloc);
    add(alloc, &mut entries, b"/", BoxEntry::Folder)?;
    add(alloc, &mut entries, b"/bin", BoxEntry::Folder)?;
    add(alloc, &mut entries, b"/dev", BoxEntry::Folder)?;
    add(alloc, &mut entries, b"/tmp", BoxEntry::Folder)?;
    add(alloc, &mut entries, b"/dev/null", BoxEntry::Null)?;
    let hello = BoxEntry::Program {
        output: Text::of(alloc, b"hello\n")?,
        status: 0,
    };
    add(alloc, &mut entries, b"/bin/hello", hello)?;
    let fail = BoxEntry::Program {
        output: Text::empty(alloc),
        status: 3,
    };
    add(alloc, &mut entries, b"/bin/fail", fail)?;
    Ok(entries)
}

impl BoxPlan {
    /// The usual box: the folders `/`, `/bin`, `/dev` and `/tmp`, `/dev/null`, the programs
    /// `/bin/hello` and `/bin/fail`, no input, no refusals and no patience.
    pub fn standard(alloc: Global) -> Result<BoxPlan, Memory>
        ensures { IfOk result (λ p. p ≡ standard_plan) }
    {
        let entries = standard_entries(alloc)?;
        Ok(BoxPlan {
            entries,
            input: Text::empty(alloc),
            refusals: Items::new(alloc),
            patience: None,
        })
    }
}
