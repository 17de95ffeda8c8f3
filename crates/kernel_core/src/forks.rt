// Fork, Begin, WaitShell and Poll.
ghost use Rattle.std.specs.Prelude.{◌≡◌, ◌++◌, [], ◌∷◌, IfOk, OnOk, OnErr};
ghost use Rattle.std.specs.Option.{option_map};
ghost use Rattle.kernel_ask.specs.declared.ask.Phase.TheVariants.{Made};
ghost use Rattle.kernel_objects.specs.Rows.{put_name, at_name};
ghost use Rattle.kernel_core.specs.Forks.{kept_from, all_retained, child_retained, fork_added, fork_turn, poll_turn, lives, forks, phase, shell_with, with_phase};
ghost use Rattle.kernel_core.specs.Turn.{Does};

use crate::handles::retain;
use crate::kernel::{Kernel, MOST_NUMBER, MOST_SHELLS, Opens, Shells, refuse};
use kernel_ask::{Answer, Handle, Phase, Refusal};
use kernel_objects::{Forked, Held, Shell};
use kernel_tables::Table;
use ksh_base::{Memory, ShellName};
use std::alloc::Global;

type Handles = Table<u32, Held>;

// The handles of `keep`, or none where one of them isn't held.
fn kept(alloc: Global, held: &Handles, keep: &[Handle]) -> Result<Option<Handles>, Memory>
    ensures { IfOk result (λ kept. kept ≡ kept_from held.now keep.now []) }
{
    let mut kept = Table::new(alloc);
    for handle in keep {
        let Some(held) = held.get(&handle.0) else {
            return Ok(None);
        };
        kept.put(handle.0, held.copy(alloc)?)?;
    }
    Ok(Some(kept))
}

// Adds a fork to its parent, and the forked shell.
#[tactic(auto, using(std::proofs::lemmas::Map::Steps::set_value_same, crate::proofs::Sets::set_twice, crate::proofs::Sets::set_found))]
fn add_fork(
    shells: &mut Shells,
    who: &ShellName,
    number: u32,
    forked: Forked,
    name: ShellName,
    child: Shell,
) -> Result<(), Memory>
    ensures ok { OnOk result (shells.new ≡ put_name name child (fork_added who.now number forked (at_name who.now shells.old) shells.old)) }
    ensures err { OnErr result (shells.new ≡ shells.old) }
{
    let Some(shell) = shells.get_mut(who) else {
        shells.put(name, child)?;
        return Ok(());
    };
    let had = shell.forks.put(number, forked)?;
    if shells.put(name, child).is_ok() {
        return Ok(());
    }
    if let Some(shell) = shells.get_mut(who) {
        shell.forks.undo_put(&number, had);
    }
    Err(Memory)
}

fn retain_all(opens: &mut Opens, handles: &Handles)
    ensures { opens.new ≡ all_retained handles.now opens.old }
{
    for (_, held) in handles.iter() {
        retain(opens, held);
    }
}

// One handle more stands for each row that a new shell has a handle for.
fn retain_child(shells: &Shells, opens: &mut Opens, name: &ShellName)
    ensures { opens.new ≡ child_retained (at_name name.now shells.now) opens.old }
{
    if let Some(child) = shells.get(name) {
        retain_all(opens, &child.handles);
    }
}

impl Kernel {
    /// Whether the shell is one of this kernel and hasn't ended.
    pub fn lives(&self, who: &ShellName) -> bool
        ensures { result ≡ lives self.now who.now }
    {
        match self.shells.get(who) {
            Some(shell) => shell.live,
            None => false,
        }
    }

    /// How many forks of the shell were answered Forked; 0 for no shell of this kernel.
    pub fn forks(&self, who: &ShellName) -> usize
        ensures { result ≡ forks self.now who.now }
    {
        match self.shells.get(who) {
            Some(shell) => shell.forks.len(),
            None => 0,
        }
    }

    /// How far a fork of the shell is; none where there is no fork of that number.
    pub fn phase(&self, who: &ShellName, child: u32) -> Option<Phase>
        ensures { result ≡ phase self.now who.now child }
    {
        let shell = self.shells.get(who)?;
        let forked = shell.forks.get(&child)?;
        Some(forked.phase)
    }

    /// Whether a begun fork still lives.
    pub(crate) fn poll(&self, who: &ShellName, child: u32) -> Option<Answer>
        ensures { Does (poll_turn self.now who.now child) (Ok result) self.now self.now }
    {
        let shell = self.shells.get(who)?;
        let Some(forked) = shell.forks.get(&child) else {
            return refuse(Refusal::BadHandle);
        };
        if !matches!(forked.phase, Phase::Begun | Phase::Waited) {
            return refuse(Refusal::BadHandle);
        }
        Some(if self.lives(&forked.name) {
            Answer::Running
        } else {
            Answer::Over
        })
    }

    // Puts a fork of the shell into that phase.
    #[tactic(auto, using(std::proofs::lemmas::Map::Steps::set_value_same))]
    pub(crate) fn set_phase(&mut self, who: &ShellName, child: u32, phase: Phase)
        ensures { self.new ≡ with_phase self.old who.now child phase }
    {
        if let Some(shell) = self.shells.get_mut(who) {
            if let Some(forked) = shell.forks.get_mut(&child) {
                forked.phase = phase;
            }
        }
    }

    /// Forks the shell: the fork has the handles of `keep`.
    #[tactic(auto, using(crate::proofs::Adds::put_name_found))]
    pub(crate) fn fork(
        &mut self,
        alloc: Global,
        who: &ShellName,
        keep: &[Handle],
    ) -> Result<Option<Answer>, Memory>
        ensures { Does (fork_turn self.old who.now keep.now) result self.old self.new }
    {
        let Some(shell) = self.shells.get(who) else {
            return Ok(None);
        };
        let made = shell.forks.len();
        if self.shells.len() >= MOST_SHELLS || made as u64 >= MOST_NUMBER {
            return Ok(refuse(Refusal::TooMany));
        }
        let Some(handles) = kept(alloc, &shell.handles, keep)? else {
            return Ok(refuse(Refusal::BadHandle));
        };
        let number = made as u32 + 1;
        let next = shell.next;
        let name = who.child(alloc, number)?;
        add_child(alloc, &mut self.shells, who, &name, number, next, handles)?;
        retain_child(&self.shells, &mut self.opens, &name);
        Ok(Some(Answer::Forked(number)))
    }
}

fn add_child(
    alloc: Global,
    shells: &mut Shells,
    who: &ShellName,
    name: &ShellName,
    number: u32,
    next: u64,
    handles: Handles,
) -> Result<(), Memory>
    ensures ok { OnOk result (shells.new ≡ put_name name.now (shell_with next handles) (fork_added who.now number (record { name = name.now; phase = Made }) (at_name who.now shells.old) shells.old)) }
    ensures err { OnErr result (shells.new ≡ shells.old) }
{
    let forked = Forked {
        name: name.copy(alloc)?,
        phase: Phase::Made,
    };
    let child = Shell {
        live: true,
        next,
        handles,
        started: 0,
        programs: Table::new(alloc),
        forks: Table::new(alloc),
    };
    add_fork(shells, who, number, forked, name.copy(alloc)?, child)
}
