ghost use Rattle.std.specs.Prelude.{◌≡◌, ◌<◌, ◌^◌, IfOk};
ghost use Rattle.shell_state.specs.State.{root_state, forked_state};

use crate::variables::{Vars, named, put_text};
use ksh_base::{Budget, Memory, Name};
use std::alloc::Global;
use var_store::VarStore;

/// The state of a shell: all that its commands read and change, but for the world.
#[derive(Drop)]
pub struct ShellState {
    pub vars: Vars,
    /// The status of the last command.
    pub status: u8,
    /// How many forks lie between the root and this shell, at most 64.
    pub level: u32,
    /// The units that are left.
    pub budget: Budget,
}

/// What a command says of the commands after it.
#[derive(Clone, Copy, Debug, PartialEq, Eq)]
pub enum Flow {
    /// The next command runs.
    Next,
    /// The shell ends.
    Exit,
}

/// Why a shell stops before its end.
#[derive(Clone, Copy, Debug, PartialEq, Eq)]
pub enum Stop {
    /// The units that were to be spent aren't left.
    Spent,
    /// Memory ran out.
    Memory,
}

impl ShellState {
    /// The state in which a root shell begins, with that budget.
    pub fn root(alloc: Global, budget: u64) -> Result<ShellState, Memory>
        ensures { IfOk result (λ s. s ≡ root_state budget) }
    {
        let mut vars = VarStore::new(alloc)?;
        let name = Name::read(alloc, b"OPTIND").map_err(|_| Memory)?;
        let path = named(alloc, &name)?;
        let Ok(()) = put_text(&mut vars, &path, b"1") else {
            return Err(Memory);
        };
        Ok(ShellState {
            vars,
            status: 0,
            level: 0,
            budget: Budget::new(budget),
        })
    }

    /// A copy.
    pub fn copy(&self) -> Result<ShellState, Memory>
        ensures { IfOk result (λ s. s ≡ self.now) }
    {
        let vars = self.vars.fork()?;
        Ok(ShellState {
            vars,
            status: self.status,
            level: self.level,
            budget: Budget::new(self.budget.left()),
        })
    }

    /// The state of a shell that is forked here: a deep copy, one level further down.
    pub fn fork(&self) -> Result<ShellState, Memory>
        requires { self.now.level < 64 }
        ensures { IfOk result (λ s. s ≡ forked_state self.now) }
    {
        let mut state = self.copy()?;
        state.level += 1;
        Ok(state)
    }
}
