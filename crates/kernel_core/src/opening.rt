// A box opens.
ghost use Rattle.std.specs.Prelude.{◌≡◌, [], ◌∷◌, IfOk};
ghost use Rattle.std.specs.List.{list_all};
ghost use Rattle.kernel_core.specs.Opening.{GivesFiles, OpensAs, fault_at, file_bytes, files_in, components_from, is_component, is_long, is_plain, node_of, opening_rows, plan_files, plan_kernel, root_shell};

use crate::kernel::{Kernel, MOST_BYTES, Opens, Shells, Stores};
use kernel_objects::{
    BoxEntry, BoxFault, BoxPlan, Files, Held, Node, Opened, Shell, Side, Stream, refused_before,
};
use kernel_tables::{FileBytes, Table};
use ksh_base::{Items, Memory, ShellName, Text};
use std::alloc::Global;

const MOST_OUTPUT: usize = 4096;

fn is_component(bytes: &[u8]) -> bool
    ensures { result ≡ is_component bytes.now }
{
    !(bytes == b"".as_slice() || bytes == b".".as_slice() || bytes == b"..".as_slice())
}

// Whether each component of the bytes, which follow a `/`, may stand in a path.
fn are_components(alloc: Global, bytes: &[u8]) -> Result<bool, Memory>
    ensures { IfOk result (λ r. r ≡ list_all is_component (components_from [] bytes.now)) }
{
    let mut front = Text::empty(alloc);
    for byte in bytes {
        if *byte == b'/' {
            if !is_component(front.bytes()) {
                return Ok(false);
            }
            front = Text::empty(alloc);
        } else {
            front.push(*byte)?;
        }
    }
    Ok(is_component(front.bytes()))
}

fn is_plain(alloc: Global, path: &[u8]) -> Result<bool, Memory>
    ensures { IfOk result (λ r. r ≡ is_plain path.now) }
{
    let Some((first, rest)) = path.split_first() else {
        return Ok(false);
    };
    if *first != b'/' {
        return Ok(false);
    }
    if rest == b"".as_slice() {
        return Ok(true);
    }
    are_components(alloc, rest)
}

fn is_long(entry: &BoxEntry) -> bool
    ensures { result ≡ is_long entry.now }
{
    match entry {
        BoxEntry::Plain { bytes, .. } => bytes.len() > MOST_BYTES,
        BoxEntry::Program { output, .. } => output.len() > MOST_OUTPUT,
        BoxEntry::Folder | BoxEntry::Null => false,
    }
}

fn fault_at(
    alloc: Global,
    at: usize,
    files: &Files,
    path: &Text,
    entry: &BoxEntry,
) -> Result<Option<BoxFault>, Memory>
    ensures { IfOk result (λ r. r ≡ fault_at at files.now path.now entry.now) }
{
    if !is_plain(alloc, path.bytes())? {
        return Ok(Some(BoxFault::BadPath(at)));
    }
    if files.has(path) {
        return Ok(Some(BoxFault::Doubled(at)));
    }
    if refused_before(files, alloc, path)?.is_some() {
        return Ok(Some(BoxFault::NoFolder(at)));
    }
    if is_long(entry) {
        return Ok(Some(BoxFault::TooLong(at)));
    }
    Ok(None)
}

fn node_of(alloc: Global, entry: &BoxEntry) -> Result<Node, Memory>
    ensures { IfOk result (λ n. n ≡ node_of entry.now) }
{
    Ok(match entry {
        BoxEntry::Folder => Node::Folder,
        BoxEntry::Plain { bytes, writable } => Node::File {
            bytes: FileBytes::of(alloc, bytes.bytes())?,
            writable: *writable,
        },
        BoxEntry::Program { output, status } => Node::Program {
            output: output.copy(alloc)?,
            status: *status,
        },
        BoxEntry::Null => Node::Null,
    })
}

fn plan_files(alloc: Global, entries: &[(Text, BoxEntry)]) -> Result<Files, BoxFault>
    ensures { GivesFiles result (plan_files entries.now) }
{
    let mut files = Table::new(alloc);
    for (at, (path, entry)) in entries.iter().enumerate() {
        if let Some(fault) = fault_at(alloc, at, &files, path, entry)? {
            return Err(fault);
        }
        let node = node_of(alloc, entry)?;
        files.put(path.copy(alloc)?, node)?;
    }
    Ok(files)
}

fn row(alloc: Global, number: u32) -> Result<ShellName, Memory>
    ensures { IfOk result (λ n. n ≡ number ∷ []) }
{
    ShellName::root(alloc).child(alloc, number)
}

fn opening_rows(alloc: Global) -> Result<Opens, Memory>
    ensures { IfOk result (λ r. r ≡ opening_rows) }
{
    let mut opens = Table::new(alloc);
    let input = Opened {
        readers: 1,
        writers: 0,
        stream: Stream::Input { place: 0 },
    };
    opens.put(row(alloc, 0)?, input)?;
    let output = Opened {
        readers: 0,
        writers: 1,
        stream: Stream::Output,
    };
    opens.put(row(alloc, 1)?, output)?;
    let errors = Opened {
        readers: 0,
        writers: 1,
        stream: Stream::Errors,
    };
    opens.put(row(alloc, 2)?, errors)?;
    Ok(opens)
}

fn root_shell(alloc: Global) -> Result<Shell, Memory>
    ensures { IfOk result (λ s. s ≡ root_shell) }
{
    let mut handles = Table::new(alloc);
    let input = Held {
        row: row(alloc, 0)?,
        side: Side::Reads,
    };
    handles.put(0, input)?;
    let output = Held {
        row: row(alloc, 1)?,
        side: Side::Writes,
    };
    handles.put(1, output)?;
    let errors = Held {
        row: row(alloc, 2)?,
        side: Side::Writes,
    };
    handles.put(2, errors)?;
    Ok(Shell {
        live: true,
        next: 3,
        handles,
        started: 0,
        programs: Table::new(alloc),
        forks: Table::new(alloc),
    })
}

fn opening_shells(alloc: Global) -> Result<Shells, Memory>
    ensures { IfOk result (λ s. s ≡ ([], root_shell) ∷ []) }
{
    let mut shells = Table::new(alloc);
    shells.put(ShellName::root(alloc), root_shell(alloc)?)?;
    Ok(shells)
}

impl Kernel {
    /// The kernel of a box as it opens, with the root shell, or the plan's first fault.
    pub fn new(alloc: Global, plan: BoxPlan) -> Result<Kernel, BoxFault>
        ensures { OpensAs result (plan_kernel plan) }
    {
        let files = plan_files(alloc, plan.entries.as_slice())?;
        let shells = opening_shells(alloc)?;
        let opens = opening_rows(alloc)?;
        let BoxPlan { input, .. } = plan;
        Ok(Kernel {
            shells,
            opens,
            stores: Stores {
                files,
                nameless: 0,
                input,
                output: Text::empty(alloc),
                errors: Text::empty(alloc),
            },
        })
    }

    /// What was written on the opening handle 1.
    pub fn output(&self) -> &[u8]
        ensures { result.now ≡ self.now.stores.output }
    {
        self.stores.output.bytes()
    }

    /// What was written on the opening handle 2.
    pub fn errors(&self) -> &[u8]
        ensures { result.now ≡ self.now.stores.errors }
    {
        self.stores.errors.bytes()
    }

    /// Path and bytes of each file that has a path, rising by path. Folders, programs and Null
    /// entries are no files.
    pub fn files(&self, alloc: Global) -> Result<Items<(Text, Text)>, Memory>
        ensures { IfOk result (λ files. files ≡ files_in self.now.stores.files) }
    {
        let mut files = Items::new(alloc);
        for (path, node) in self.stores.files.iter() {
            if let Node::File { bytes, .. } = node {
                let bytes = Text::of(alloc, bytes.as_slice())?;
                files.push((path.copy(alloc)?, bytes))?;
            }
        }
        Ok(files)
    }
}
