ghost use Rattle.std.specs.Prelude.{◌≡◌, IfOk, length};
ghost use Rattle.std.specs.Option.{option_copied};
ghost use Rattle.var_types.specs.Rows.{Rows, no_hooks, cell_at};

use crate::attrs::Attrs;
use crate::path::Path;
use crate::value::Value;
use ksh_base::{Memory, Shared};
use std::alloc::Global;

/// What a discipline's function stands for.
#[derive(Clone, Copy, Debug, PartialEq, Eq)]
pub enum HookKind {
    Get,
    Set,
    Append,
    Unset,
}

/// The functions of a row's disciplines, of which each may be there.
#[derive(Drop)]
pub struct HookSet<H> {
    pub get: Option<Shared<H>>,
    pub set: Option<Shared<H>>,
    pub append: Option<Shared<H>>,
    pub unset: Option<Shared<H>>,
}

impl<H> HookSet<H> {
    /// No function.
    pub fn none() -> HookSet<H>
        ensures { result ≡ no_hooks }
    {
        HookSet {
            get: None,
            set: None,
            append: None,
            unset: None,
        }
    }
}

impl<H: Drop> HookSet<H> {
    pub fn copy(&self) -> Result<HookSet<H>, Memory>
        ensures { IfOk result (λ h. h ≡ self.now) }
    {
        let get = copy_hook(&self.get)?;
        let set = copy_hook(&self.set)?;
        let append = copy_hook(&self.append)?;
        let unset = copy_hook(&self.unset)?;
        Ok(HookSet {
            get,
            set,
            append,
            unset,
        })
    }
}

fn copy_hook<H>(function: &Option<Shared<H>>) -> Result<Option<Shared<H>>, Memory>
    ensures { IfOk result (λ f. f ≡ function.now) }
{
    match function {
        Some(held) => Ok(Some(held.copy()?)),
        None => Ok(None),
    }
}

/// What a row has beside its path. `H` is the kind of a discipline's function.
#[derive(Drop)]
pub struct Cell<H> {
    pub attrs: Attrs,
    pub value: Value,
    pub hooks: HookSet<H>,
}

impl<H: Drop> Cell<H> {
    pub fn copy(&self, alloc: Global) -> Result<Cell<H>, Memory>
        ensures { IfOk result (λ c. c ≡ self.now) }
    {
        let value = self.value.copy(alloc)?;
        let hooks = self.hooks.copy()?;
        Ok(Cell {
            attrs: self.attrs,
            value,
            hooks,
        })
    }
}

/// Rows that can be looked at.
pub trait Cells<H> {
    /// The rows, rising by path, each path once.
    ghost rows: { Self → Rows H };

    /// The cell of the row of that path, or nothing where there is none.
    fn cell(&self, path: &Path) -> Option<&Cell<H>>
        ensures { option_copied result ≡ cell_at path.now (rows self.now) };

    /// How many rows there are.
    fn count(&self) -> usize
        ensures { result ≡ length (rows self.now) };
}
