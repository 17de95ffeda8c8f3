// Read and Write.
ghost use Rattle.std.specs.Prelude.{◌≡◌, ◌+◌, IfOk, OnOk, OnErr, length};
ghost use Rattle.std.specs.Option.{option_copied};
ghost use Rattle.kernel_objects.specs.Paths.{node_at};
ghost use Rattle.kernel_objects.specs.Rows.{at_number};
ghost use Rattle.kernel_core.specs.Handles.{is_reading, is_writing};
ghost use Rattle.kernel_core.specs.Transfer.{DoesRow, DoesWrite, from_place, held_for, read_stream, read_turn, taken_or, write_bytes, write_node, write_stream, write_turn};
ghost use Rattle.kernel_core.specs.Turn.{Does};

use crate::handles::{is_reading, is_writing};
use crate::kernel::{Kernel, MOST_BYTES, MOST_HELD, Stores, refuse};
use kernel_ask::{Answer, Handle, Refusal};
use kernel_objects::{Held, Node, Opened, Shell, Stream};
use kernel_tables::FileBytes;
use ksh_base::{Memory, ShellName, Text};
use std::alloc::Global;

/// The handle's row and side, where it is held and good for reading.
pub(crate) fn held_for_reading(shell: &Shell, handle: Handle) -> Option<&Held>
    ensures { option_copied result ≡ held_for is_reading (at_number handle.0 shell.now.handles) }
{
    let held = shell.handles.get(&handle.0)?;
    if is_reading(held.side) {
        Some(held)
    } else {
        None
    }
}

/// The handle's row and side, where it is held and good for writing.
pub(crate) fn held_for_writing(shell: &Shell, handle: Handle) -> Option<&Held>
    ensures { option_copied result ≡ held_for is_writing (at_number handle.0 shell.now.handles) }
{
    let held = shell.handles.get(&handle.0)?;
    if is_writing(held.side) {
        Some(held)
    } else {
        None
    }
}

// Up to `max` bytes from the place on, which moves past them.
fn read_from(alloc: Global, bytes: &[u8], place: &mut usize, max: usize) -> Result<Text, Memory>
    ensures bytes { IfOk result (λ t. t ≡ from_place place.old max bytes.now) }
    ensures place { IfOk result (λ t. place.new ≡ place.old + length t) }
    ensures err { OnErr result (place.new ≡ place.old) }
{
    if *place >= bytes.len() {
        return Ok(Text::empty(alloc));
    }
    let rest = &bytes[*place..];
    let many = max.min(rest.len());
    let read = Text::of(alloc, &rest[..many])?;
    *place += many;
    Ok(read)
}

fn read_stream(
    alloc: Global,
    opened: &mut Opened,
    stores: &Stores,
    max: usize,
) -> Result<Option<Answer>, Memory>
    ensures { DoesRow (read_stream opened.old.stream max opened.old stores.now) result opened.old opened.new stores.now stores.now }
{
    match &mut opened.stream {
        Stream::Input { place } => {
            let bytes = read_from(alloc, stores.input.bytes(), place, max)?;
            Ok(Some(Answer::Bytes(bytes)))
        }
        Stream::Output | Stream::Errors => Ok(refuse(Refusal::BadHandle)),
        Stream::Null => Ok(Some(Answer::Bytes(Text::empty(alloc)))),
        Stream::File { path, place, .. } => {
            let Some(Node::File { bytes, .. }) = stores.files.get(path) else {
                return Ok(refuse(Refusal::BadHandle));
            };
            let bytes = read_from(alloc, bytes.as_slice(), place, max)?;
            Ok(Some(Answer::Bytes(bytes)))
        }
        Stream::Pipe { held } => {
            if held.len() < max && opened.writers > 0 {
                return Ok(None);
            }
            let bytes = held.take(alloc, max)?;
            Ok(Some(Answer::Bytes(bytes)))
        }
        Stream::Scratch { bytes, read_at, .. } => {
            let bytes = read_from(alloc, bytes.as_slice(), read_at, max)?;
            Ok(Some(Answer::Bytes(bytes)))
        }
    }
}

impl Kernel {
    /// Bytes from what a handle stands for.
    #[tactic(auto, using(std::proofs::lemmas::Map::Steps::set_value_same))]
    pub(crate) fn read(
        &mut self,
        alloc: Global,
        who: &ShellName,
        handle: Handle,
        max: u32,
    ) -> Result<Option<Answer>, Memory>
        ensures { Does (read_turn self.old who.now handle max) result self.old self.new }
    {
        let Some(shell) = self.shells.get(who) else {
            return Ok(None);
        };
        let Some(held) = held_for_reading(shell, handle) else {
            return Ok(refuse(Refusal::BadHandle));
        };
        let Some(opened) = self.opens.get_mut(&held.row) else {
            return Ok(refuse(Refusal::BadHandle));
        };
        read_stream(alloc, opened, &self.stores, max as usize)
    }
}

impl Kernel {
    /// Writes the piece, whole, to what a handle stands for.
    #[tactic(auto, using(std::proofs::lemmas::Map::Steps::set_value_same))]
    pub(crate) fn write(
        &mut self,
        who: &ShellName,
        handle: Handle,
        piece: &[u8],
    ) -> Result<Option<Answer>, Memory>
        ensures { Does (write_turn self.old who.now handle piece.now) result self.old self.new }
    {
        let Some(shell) = self.shells.get(who) else {
            return Ok(None);
        };
        let Some(held) = held_for_writing(shell, handle) else {
            return Ok(refuse(Refusal::BadHandle));
        };
        let Some(opened) = self.opens.get_mut(&held.row) else {
            return Ok(refuse(Refusal::BadHandle));
        };
        write_stream(opened, &mut self.stores, piece)
    }
}

// Writes the piece at the end or at the place, which then is after it.
fn write_bytes(
    bytes: &mut FileBytes,
    place: &mut usize,
    appends: bool,
    piece: &[u8],
) -> Result<Option<Refusal>, Memory>
    ensures { DoesWrite (write_bytes appends place.old piece.now bytes.old) result bytes.old bytes.new place.old place.new }
{
    let at = if appends { bytes.len() } else { *place };
    if at.saturating_add(piece.len()) > MOST_BYTES {
        return Ok(Some(Refusal::Io));
    }
    bytes.write(at, piece)?;
    *place = at + piece.len();
    Ok(None)
}

fn write_node(
    node: &mut Node,
    place: &mut usize,
    appends: bool,
    piece: &[u8],
) -> Result<Option<Refusal>, Memory>
    ensures { DoesWrite (write_node appends place.old piece.now node.old) result node.old node.new place.old place.new }
{
    match node {
        Node::File { bytes, .. } => write_bytes(bytes, place, appends, piece),
        _ => Ok(Some(Refusal::BadHandle)),
    }
}

fn taken_or(refused: Option<Refusal>) -> Option<Answer>
    ensures { result ≡ taken_or refused }
{
    match refused {
        Some(why) => Some(Answer::Refused(why)),
        None => Some(Answer::Taken),
    }
}

/// Writes the piece to an open row.
#[tactic(auto, using(std::proofs::lemmas::Map::Steps::set_value_same))]
pub(crate) fn write_stream(
    opened: &mut Opened,
    stores: &mut Stores,
    piece: &[u8],
) -> Result<Option<Answer>, Memory>
    ensures { DoesRow (write_stream opened.old.stream piece.now opened.old stores.old) result opened.old opened.new stores.old stores.new }
{
    match &mut opened.stream {
        Stream::Input { .. } => Ok(refuse(Refusal::BadHandle)),
        Stream::Output => {
            stores.output.append(piece)?;
            Ok(Some(Answer::Taken))
        }
        Stream::Errors => {
            stores.errors.append(piece)?;
            Ok(Some(Answer::Taken))
        }
        Stream::Null => Ok(Some(Answer::Taken)),
        Stream::File {
            path,
            place,
            appends,
        } => {
            let Some(node) = stores.files.get_mut(path) else {
                return Ok(refuse(Refusal::BadHandle));
            };
            let refused = write_node(node, place, *appends, piece)?;
            Ok(taken_or(refused))
        }
        Stream::Pipe { held } => {
            if opened.readers == 0 {
                return Ok(refuse(Refusal::Broken));
            }
            if held.len().saturating_add(piece.len()) > MOST_HELD {
                return Ok(None);
            }
            held.push(piece)?;
            Ok(Some(Answer::Taken))
        }
        Stream::Scratch {
            bytes,
            write_at,
            ..
        } => {
            let refused = write_bytes(bytes, write_at, false, piece)?;
            Ok(taken_or(refused))
        }
    }
}
