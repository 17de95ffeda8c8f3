ghost use Rattle.std.specs.Prelude.{◌≡◌, length, Some, Ok, OnOk, OnErr};
ghost use Rattle.var_types.specs.Rows.{cell_at};
ghost use Rattle.var_store.specs.Standing.{standing};
ghost use Rattle.var_store.specs.Calls.{with_hook, hooked, unhooked_rows, lock_faults, change_fault, has_locked, unless, Answers};

use crate::faults::{Faults, VarFault};
use crate::growth::{copy_value, revalued};
use crate::row_list::RowList;
use crate::walk::walk;
use ksh_base::{Memory, Shared};
use std::alloc::Global;
use var_types::{Cell, HookKind, HookSet, Path, is_prefix};

/// What refuses a change of a row, which may be locked.
pub fn change_refused<H>(rows: &RowList<H>, path: &Path, locked: bool) -> Option<VarFault>
    ensures { result ≡ change_fault rows.now path.now locked }
{
    let mut lock = Faults::none();
    lock.read_only = locked;
    walk(rows, path).faults.and(lock).first()
}

/// What refuses a change of what stands at a path.
pub fn change_refused_at_end<H>(rows: &RowList<H>, path: &Path) -> Option<VarFault>
    ensures { result ≡ change_fault rows.now path.now (standing rows.now path.now (length path.now.steps)).attrs.readonly }
{
    let stands = walk(rows, path).standing;
    change_refused(rows, path, stands.attrs.readonly)
}

/// Whether the row of the path, or one below it, is read only.
pub fn locked_below<H>(rows: &RowList<H>, path: &Path) -> bool
    ensures { result ≡ has_locked path.now rows.now }
{
    rows.rows()
        .iter()
        .any(|row| row.1.attrs.readonly && is_prefix(path, &row.0))
}

fn set_hook<H: Drop>(hooks: &mut HookSet<H>, kind: HookKind, function: Option<Shared<H>>)
    ensures { hooks.new ≡ with_hook hooks.old kind function }
{
    match kind {
        HookKind::Get => hooks.get = function,
        HookKind::Set => hooks.set = function,
        HookKind::Append => hooks.append = function,
        HookKind::Unset => hooks.unset = function,
    }
}

/// The cell of what stands at a path, with a discipline's function.
pub fn hooked<H: Drop>(
    alloc: Global,
    rows: &RowList<H>,
    path: &Path,
    kind: HookKind,
    function: Shared<H>,
) -> Result<Cell<H>, VarFault>
    ensures { Answers result (unless (change_fault rows.now path.now (standing rows.now path.now (length path.now.steps)).attrs.readonly) (Ok (hooked (standing rows.now path.now (length path.now.steps)) kind (Some function)))) }
{
    let stands = walk(rows, path).standing;
    if let Some(fault) = change_refused(rows, path, stands.attrs.readonly) {
        return Err(fault);
    }
    let value = copy_value(alloc, stands.value)?;
    let mut cell = revalued(rows, path, path.steps.len(), stands, value)?;
    set_hook(&mut cell.hooks, kind, Some(function));
    Ok(cell)
}

/// Takes a discipline's function from a row, or does nothing.
pub fn unhook<H: Drop>(
    alloc: Global,
    rows: &mut RowList<H>,
    path: &Path,
    kind: HookKind,
) -> Result<(), Memory>
    ensures ok { OnOk result (rows.new ≡ unhooked_rows path.now kind (cell_at path.now rows.old) rows.old) }
    ensures err { OnErr result (rows.new ≡ rows.old) }
{
    let mut cell = match rows.find_row(path) {
        Some(cell) => cell.copy(alloc)?,
        None => return Ok(()),
    };
    set_hook(&mut cell.hooks, kind, None);
    let mut writes = Vec::new(alloc);
    writes.push((path.copy(alloc)?, cell))?;
    rows.write(writes)
}
