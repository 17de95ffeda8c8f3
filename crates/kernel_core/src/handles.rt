// Handles: Dup, Close, and the end of a shell.
ghost use Rattle.std.specs.Prelude.{◌≡◌, ◌+◌, ◌-◌, min, true, [], if◌then◌else◌};
ghost use Rattle.kernel_core.specs.Handles.{is_reading, is_writing, is_scratch, is_unheld, lacks_handles, shared, left_by, reach_of, released, retained_in, dup_turn, close_turn, ended, all_released, without_scratch};
ghost use Rattle.kernel_core.specs.Forks.{lives};
ghost use Rattle.kernel_core.specs.Turn.{Does};

use crate::kernel::{Kernel, MOST_HANDLES, MOST_NUMBER, Opens, Stores};
use kernel_ask::{Answer, Handle, Refusal};
use kernel_objects::{Held, Opened, Shell, Side, Stream};
use kernel_tables::Table;
use ksh_base::{Memory, ShellName};
use std::alloc::Global;

pub(crate) fn is_reading(side: Side) -> bool
    ensures { result ≡ is_reading side }
{
    !matches!(side, Side::Writes)
}

pub(crate) fn is_writing(side: Side) -> bool
    ensures { result ≡ is_writing side }
{
    !matches!(side, Side::Reads)
}

/// Whether so many handles more are too many for a shell, or their numbers too high.
pub(crate) fn lacks_handles(shell: &Shell, many: u32) -> bool
    ensures { result ≡ lacks_handles shell.now many }
{
    let held = shell.handles.len();
    held.saturating_add(many as usize) > MOST_HANDLES
        || shell.next.saturating_add(u64::from(many)) > MOST_NUMBER + 1
}

fn share(opened: &mut Opened, side: Side)
    ensures { opened.new ≡ shared side opened.old }
{
    match side {
        Side::Writes => opened.writers = opened.writers.saturating_add(1),
        Side::Reads | Side::Both => opened.readers = opened.readers.saturating_add(1),
    }
}

fn leave(opened: &mut Opened, side: Side)
    ensures { opened.new ≡ left_by side opened.old }
{
    match side {
        Side::Writes => opened.writers = opened.writers.saturating_sub(1),
        Side::Reads | Side::Both => opened.readers = opened.readers.saturating_sub(1),
    }
}

// Whether no handle stands for the row once one is gone on that side.
fn is_last(opened: &Opened, side: Side) -> bool
    ensures { result ≡ is_unheld (left_by side opened.now) }
{
    match side {
        Side::Writes => opened.readers == 0 && opened.writers <= 1,
        Side::Reads | Side::Both => opened.readers <= 1 && opened.writers == 0,
    }
}

fn drop_scratch(stores: &mut Stores, stream: &Stream)
    ensures { stores.new ≡ without_scratch stream.now stores.old }
{
    if matches!(stream, Stream::Scratch { .. }) {
        stores.nameless = stores.nameless.saturating_sub(1);
    }
}

/// One handle more stands for the row.
pub(crate) fn retain(opens: &mut Opens, held: &Held)
    ensures { opens.new ≡ retained_in held.now opens.old }
{
    if let Some(opened) = opens.get_mut(&held.row) {
        share(opened, held.side);
    }
}

/// One handle less stands for the row, which goes with the last.
fn release(opens: &mut Opens, stores: &mut Stores, held: &Held)
    ensures { reach_of opens.new stores.new ≡ released (reach_of opens.old stores.old) held.now }
{
    let Some(opened) = opens.get(&held.row) else {
        return;
    };
    if !is_last(opened, held.side) {
        if let Some(opened) = opens.get_mut(&held.row) {
            leave(opened, held.side);
        }
        return;
    }
    if let Some(gone) = opens.remove(&held.row) {
        drop_scratch(stores, &gone.stream);
    }
}

fn release_all(opens: &mut Opens, stores: &mut Stores, handles: &mut Table<u32, Held>)
    ensures reach { reach_of opens.new stores.new ≡ all_released (reach_of opens.old stores.old) handles.old }
    ensures none { handles.new ≡ [] }
{
    while let Some((_, held)) = handles.pop_first() {
        release(opens, stores, &held);
    }
}

impl Kernel {
    /// Another handle for the same open row, with one place for both.
    #[tactic(auto, using(std::proofs::lemmas::Map::Steps::set_value_same))]
    pub(crate) fn dup(
        &mut self,
        alloc: Global,
        who: &ShellName,
        handle: Handle,
    ) -> Result<Option<Answer>, Memory>
        ensures { Does (dup_turn self.old who.now handle) result self.old self.new }
    {
        let Some(shell) = self.shells.get_mut(who) else {
            return Ok(None);
        };
        let Some(held) = shell.handles.get(&handle.0) else {
            return Ok(Some(Answer::Refused(Refusal::BadHandle)));
        };
        if lacks_handles(shell, 1) {
            return Ok(Some(Answer::Refused(Refusal::TooMany)));
        }
        let number = shell.next as u32;
        let held = held.copy(alloc)?;
        let given = held.copy(alloc)?;
        shell.give(given)?;
        retain(&mut self.opens, &held);
        Ok(Some(Answer::Opened(Handle(number))))
    }

    #[tactic(auto, using(std::proofs::lemmas::Map::Steps::set_value_same, crate::proofs::Absent::remove_absent))]
    pub(crate) fn close(&mut self, who: &ShellName, handle: Handle) -> Option<Answer>
        ensures { Does (close_turn self.old who.now handle) (Ok result) self.old self.new }
    {
        let shell = self.shells.get_mut(who)?;
        let Some(held) = shell.handles.remove(&handle.0) else {
            return Some(Answer::Refused(Refusal::BadHandle));
        };
        release(&mut self.opens, &mut self.stores, &held);
        Some(Answer::Closed)
    }

    /// Ends the shell and gives up all its handles. Takes no memory.
    pub fn end(&mut self, who: &ShellName)
        requires { lives self.old who.now ≡ true }
        ensures { self.new ≡ ended self.old who.now }
    {
        if let Some(shell) = self.shells.get_mut(who) {
            shell.live = false;
            release_all(&mut self.opens, &mut self.stores, &mut shell.handles);
        }
    }
}
