ghost use Rattle.std.specs.Prelude.{◌≡◌, IfOk};

use crate::state::ShellState;
use kernel_ask::Snapshot;
use ksh_base::Memory;
use ksh_script::List;
use std::alloc::Global;

/// What a shell begins with: its state and the list that it runs.
#[derive(Drop)]
pub struct Start {
    pub state: ShellState,
    pub body: List,
}

impl Snapshot for Start {
    fn fork(&self, _alloc: Global) -> Result<Self, Memory> {
        let state = self.state.copy()?;
        let body = self.body.copy()?;
        Ok(Start { state, body })
    }
}
