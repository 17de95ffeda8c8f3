// Open, with Scratch among its modes, and Pipe.
ghost use Rattle.std.specs.Prelude.{◌≡◌, ◌<◌, ◌+◌, ◌^◌, ◌||◌, ◌&&◌, [], true, IfOk, OnOk, OnErr};
ghost use Rattle.std.specs.Option.{option_copied};
ghost use Rattle.kernel_ask.specs.declared.ask.Answer.TheVariants.{Pair};
ghost use Rattle.kernel_objects.specs.declared.files.Node.TheVariants.{File};
ghost use Rattle.kernel_objects.specs.Rows.{at_name, set_name, put_name};
ghost use Rattle.kernel_core.specs.Files.{is_full};
ghost use Rattle.kernel_core.specs.Open.{cut_at, cut_node, next_row, row_for, row_of_two, with_one, with_two, node_refusal, side_of, stream_of, files_after, pipe_turn, scratch_by, open_turn};
ghost use Rattle.kernel_core.specs.Turn.{Does, by_shell};

use crate::handles::lacks_handles;
use crate::kernel::{Kernel, MOST_FILES, Opens, Stores, refuse};
use kernel_ask::{Answer, Handle, Mode, Refusal};
use kernel_objects::{Files, Held, Node, Opened, Shell, Side, Stream, refused_before};
use kernel_tables::{FileBytes, Queue};
use ksh_base::{Memory, ShellName, Text};
use std::alloc::Global;

/// Whether another file would bring the box above its limit.
fn is_full(stores: &Stores) -> bool
    ensures { result ≡ is_full stores.now }
{
    stores.files.len().saturating_add(stores.nameless) >= MOST_FILES
}

// Opens a row for which one handle of the shell stands.
fn enter_one(
    alloc: Global,
    who: &ShellName,
    shell: &mut Shell,
    opens: &mut Opens,
    side: Side,
    opened: Opened,
) -> Result<Handle, Memory>
    requires { shell.old.next < 2 ^ 32 }
    ensures handle { IfOk result (λ h. h ≡ record { 0 = shell.old.next }) }
    ensures shell { OnOk result (shell.new ≡ with_one who.now shell.old side) }
    ensures row { OnOk result (opens.new ≡ put_name (next_row who.now shell.old) opened opens.old) }
    ensures err { OnErr result ((shell.new ≡ shell.old) × (opens.new ≡ opens.old)) }
{
    let number = shell.next as u32;
    let row = who.child(alloc, number)?;
    let held = Held {
        row: row.copy(alloc)?,
        side,
    };
    let had = opens.put(row.copy(alloc)?, opened)?;
    if shell.give(held).is_err() {
        opens.undo_put(&row, had);
        return Err(Memory);
    }
    Ok(Handle(number))
}

// Opens a row for which two handles of the shell stand, one for each side.
fn enter_two(
    alloc: Global,
    who: &ShellName,
    shell: &mut Shell,
    opens: &mut Opens,
    stream: Stream,
) -> Result<Answer, Memory>
    requires { shell.old.next + 1 < 2 ^ 32 }
    ensures pair { IfOk result (λ a. a ≡ Pair (record { 0 = shell.old.next }) (record { 0 = shell.old.next + 1 })) }
    ensures shell { OnOk result (shell.new ≡ with_two who.now shell.old) }
    ensures row { OnOk result (opens.new ≡ put_name (next_row who.now shell.old) (row_of_two stream) opens.old) }
    ensures err { OnErr result ((shell.new ≡ shell.old) × (opens.new ≡ opens.old)) }
{
    let number = shell.next as u32;
    let row = who.child(alloc, number)?;
    let read = Held {
        row: row.copy(alloc)?,
        side: Side::Reads,
    };
    let write = Held {
        row: row.copy(alloc)?,
        side: Side::Writes,
    };
    let opened = Opened {
        readers: 1,
        writers: 1,
        stream,
    };
    let had = opens.put(row.copy(alloc)?, opened)?;
    if shell.give_two(read, write).is_err() {
        opens.undo_put(&row, had);
        return Err(Memory);
    }
    Ok(Answer::Pair(Handle(number), Handle(number + 1)))
}

// Why what stands at a path, or doesn't, isn't opened so.
fn node_refusal(mode: Mode, node: Option<&Node>) -> Option<Refusal>
    ensures { result ≡ node_refusal mode (option_copied node.entry) }
{
    match node {
        None => match mode {
            Mode::Read => Some(Refusal::NoEntry),
            _ => None,
        },
        Some(Node::Folder) => Some(Refusal::IsDir),
        Some(Node::Program { .. }) => match mode {
            Mode::New => Some(Refusal::Exists),
            _ => Some(Refusal::Denied),
        },
        Some(Node::Null) => match mode {
            Mode::New => Some(Refusal::Exists),
            _ => None,
        },
        Some(Node::File { writable, .. }) => match mode {
            Mode::New => Some(Refusal::Exists),
            Mode::Read => None,
            _ if *writable => None,
            _ => Some(Refusal::Denied),
        },
    }
}

fn side_of(mode: Mode) -> Side
    ensures { result ≡ side_of mode }
{
    match mode {
        Mode::Read => Side::Reads,
        Mode::Write | Mode::Append | Mode::New => Side::Writes,
        Mode::ReadWrite | Mode::Scratch => Side::Both,
    }
}

fn row_for(side: Side, stream: Stream) -> Opened
    ensures { result ≡ row_for side stream }
{
    let (readers, writers) = match side {
        Side::Writes => (0, 1),
        Side::Reads | Side::Both => (1, 0),
    };
    Opened {
        readers,
        writers,
        stream,
    }
}

fn stream_of(alloc: Global, path: &Text, mode: Mode, node: Option<&Node>) -> Result<Stream, Memory>
    ensures { IfOk result (λ s. s ≡ stream_of path.now mode (option_copied node.entry)) }
{
    if let Some(Node::Null) = node {
        return Ok(Stream::Null);
    }
    let path = path.copy(alloc)?;
    Ok(Stream::File {
        path,
        place: 0,
        appends: matches!(mode, Mode::Append),
    })
}

// Opens a file that is missing: it is made empty.
fn enter_missing(
    alloc: Global,
    who: &ShellName,
    shell: &mut Shell,
    opens: &mut Opens,
    files: &mut Files,
    path: &Text,
    side: Side,
    opened: Opened,
) -> Result<Handle, Memory>
    requires { shell.old.next < 2 ^ 32 }
    ensures handle { IfOk result (λ h. h ≡ record { 0 = shell.old.next }) }
    ensures shell { OnOk result (shell.new ≡ with_one who.now shell.old side) }
    ensures row { OnOk result (opens.new ≡ put_name (next_row who.now shell.old) opened opens.old) }
    ensures files { OnOk result (files.new ≡ put_name path.now (File [] true) files.old) }
    ensures err { OnErr result ((shell.new ≡ shell.old) × (opens.new ≡ opens.old) × (files.new ≡ files.old)) }
{
    let file = Node::File {
        bytes: FileBytes::empty(alloc),
        writable: true,
    };
    let had = files.put(path.copy(alloc)?, file)?;
    let Ok(handle) = enter_one(alloc, who, shell, opens, side, opened) else {
        files.undo_put(path, had);
        return Err(Memory);
    };
    Ok(handle)
}

// Cuts the file at the path to nothing.
fn cut(files: &mut Files, path: &Text)
    ensures { files.new ≡ cut_at path.now (at_name path.now files.old) files.old }
{
    if let Some(node) = files.get_mut(path) {
        cut_node(node);
    }
}

fn cut_node(node: &mut Node)
    ensures { node.new ≡ cut_node node.old }
{
    if let Node::File { bytes, .. } = node {
        bytes.cut();
    }
}

// Opens the file at a path: a missing one is made, and Write cuts one to nothing.
fn enter_file(
    alloc: Global,
    who: &ShellName,
    shell: &mut Shell,
    opens: &mut Opens,
    files: &mut Files,
    path: &Text,
    mode: Mode,
    opened: Opened,
) -> Result<Handle, Memory>
    requires { shell.old.next < 2 ^ 32 }
    ensures handle { IfOk result (λ h. h ≡ record { 0 = shell.old.next }) }
    ensures shell { OnOk result (shell.new ≡ with_one who.now shell.old (side_of mode)) }
    ensures row { OnOk result (opens.new ≡ put_name (next_row who.now shell.old) opened opens.old) }
    ensures files { OnOk result (files.new ≡ files_after path.now mode (at_name path.now files.old) files.old) }
    ensures err { OnErr result ((shell.new ≡ shell.old) × (opens.new ≡ opens.old) × (files.new ≡ files.old)) }
{
    let side = side_of(mode);
    if !files.has(path) {
        return enter_missing(alloc, who, shell, opens, files, path, side, opened);
    }
    let handle = enter_one(alloc, who, shell, opens, side, opened)?;
    if let Mode::Write = mode {
        cut(files, path);
    }
    Ok(handle)
}

impl Kernel {
    /// A pipe: a handle for reading and one for writing.
    #[tactic(auto, using(std::proofs::lemmas::Map::Steps::set_value_same))]
    pub(crate) fn pipe(&mut self, alloc: Global, who: &ShellName) -> Result<Option<Answer>, Memory>
        ensures { Does (pipe_turn self.old who.now) result self.old self.new }
    {
        let Some(shell) = self.shells.get_mut(who) else {
            return Ok(None);
        };
        if lacks_handles(shell, 2) {
            return Ok(refuse(Refusal::TooMany));
        }
        let stream = Stream::Pipe {
            held: Queue::new(alloc),
        };
        let pair = enter_two(alloc, who, shell, &mut self.opens, stream)?;
        Ok(Some(pair))
    }

    // A nameless file: a handle for reading and one for writing, each with a place of its own.
    #[tactic(auto, using(std::proofs::lemmas::Map::Steps::set_value_same))]
    fn scratch(&mut self, alloc: Global, who: &ShellName) -> Result<Option<Answer>, Memory>
        ensures { Does (by_shell (at_name who.now self.old.shells) (λ s. scratch_by self.old who.now s)) result self.old self.new }
    {
        let Some(shell) = self.shells.get_mut(who) else {
            return Ok(None);
        };
        if lacks_handles(shell, 2) || is_full(&self.stores) {
            return Ok(refuse(Refusal::TooMany));
        }
        let stream = Stream::Scratch {
            bytes: FileBytes::empty(alloc),
            read_at: 0,
            write_at: 0,
        };
        let pair = enter_two(alloc, who, shell, &mut self.opens, stream)?;
        self.stores.nameless += 1;
        Ok(Some(pair))
    }

    /// Opens the file at a path, or a nameless one for Scratch.
    #[tactic(auto, using(std::proofs::lemmas::Map::Steps::set_value_same))]
    pub(crate) fn open(
        &mut self,
        alloc: Global,
        who: &ShellName,
        path: &Text,
        mode: Mode,
    ) -> Result<Option<Answer>, Memory>
        ensures { Does (open_turn self.old who.now path.now mode) result self.old self.new }
    {
        if let Mode::Scratch = mode {
            return self.scratch(alloc, who);
        }
        let Some(shell) = self.shells.get_mut(who) else {
            return Ok(None);
        };
        if let Some(why) = refused_before(&self.stores.files, alloc, path)? {
            return Ok(refuse(why));
        }
        let full = is_full(&self.stores);
        let node = self.stores.files.get(path);
        if let Some(why) = node_refusal(mode, node) {
            return Ok(refuse(why));
        }
        if lacks_handles(shell, 1) || (node.is_none() && full) {
            return Ok(refuse(Refusal::TooMany));
        }
        let opened = row_for(side_of(mode), stream_of(alloc, path, mode, node)?);
        let handle = enter_file(
            alloc,
            who,
            shell,
            &mut self.opens,
            &mut self.stores.files,
            path,
            mode,
            opened,
        )?;
        Ok(Some(Answer::Opened(handle)))
    }
}
