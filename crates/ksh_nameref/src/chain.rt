//! Chains of references.
ghost use Rattle.std.specs.Prelude.{◌≡◌, true, false, IfOk, IfErr};
ghost use Rattle.std.specs.Option.{option_copied};
ghost use Rattle.ksh_nameref.specs.Chains.{target_of, is_blind, is_reference, next, row_is, EndsAt};
ghost use Rattle.ksh_nameref.specs.Targets.{ChainHasCause};
ghost use Rattle.ksh_nameref.specs.declared.fault.RefFault.TheVariants.{NoTarget};

use crate::fault::RefFault;
use var_types::{Cells, Path, Value};

/// Where a value points to, if it is a reference.
fn target_of(value: &Value) -> Option<&Path>
    ensures { option_copied result ≡ target_of value.now }
{
    match value {
        Value::Reference(path) => Some(path),
        Value::Unset
        | Value::Plain(_)
        | Value::Number(_)
        | Value::Compound
        | Value::Indexed
        | Value::Assoc
        | Value::NoReference
        | Value::Instance(_) => None,
    }
}

/// Where the row of a path points to, if it is a reference.
fn next<'a, H: 'a, C: Cells<H>>(cells: &'a C, path: &Path) -> Option<&'a Path>
    ensures { option_copied result ≡ next (C.rows cells.now) path.now }
{
    match cells.cell(path) {
        Some(cell) => target_of(&cell.value),
        None => None,
    }
}

/// Whether the row of a path is a reference without a target.
fn is_blind<H, C: Cells<H>>(cells: &C, path: &Path) -> bool
    ensures { result ≡ row_is is_blind (C.rows cells.now) path.now }
{
    match cells.cell(path) {
        Some(cell) => matches!(cell.value, Value::NoReference),
        None => false,
    }
}

/// Whether the row of a path is a reference, with a target or without.
pub fn is_reference<H, C: Cells<H>>(cells: &C, path: &Path) -> bool
    ensures { result ≡ row_is is_reference (C.rows cells.now) path.now }
{
    match cells.cell(path) {
        Some(cell) => matches!(cell.value, Value::Reference(_) | Value::NoReference),
        None => false,
    }
}

/// Where a chain has ended, unless that is a reference without a target.
fn ended<'a, H: 'a, C: Cells<H>>(cells: &'a C, path: &'a Path) -> Result<&'a Path, RefFault>
    ensures ok { IfOk result (λ to. (to.now ≡ path.now) × (row_is is_blind (C.rows cells.now) to.now ≡ false)) }
    ensures err { IfErr result (λ e. (e ≡ NoTarget) × (row_is is_blind (C.rows cells.now) path.now ≡ true)) }
{
    if is_blind(cells, path) {
        return Err(RefFault::NoTarget);
    }
    Ok(path)
}

/// The end of the chain of references from a path. It has no end where it comes back to a row, as it does once it has
/// more references than there are rows.
pub fn follow<'a, H: 'a, C: Cells<H>>(cells: &'a C, from: &'a Path) -> Result<&'a Path, RefFault>
    ensures ok { IfOk result (λ to. EndsAt (C.rows cells.now) from.now to.now × (row_is is_blind (C.rows cells.now) to.now ≡ false)) }
    ensures err { IfErr result (λ e. ChainHasCause (C.rows cells.now) from.now e) }
{
    let mut at = from;
    for _ in 0..cells.count() {
        match next(cells, at) {
            Some(target) => at = target,
            None => return ended(cells, at),
        }
    }
    match next(cells, at) {
        Some(_) => Err(RefFault::Loop),
        None => ended(cells, at),
    }
}

/// The end of the chain that begins with a reference row.
pub fn follow_row<'a, H: 'a, C: Cells<H>>(cells: &'a C, row: &Path) -> Result<&'a Path, RefFault>
    requires { row_is is_reference (C.rows cells.now) row.now ≡ true }
    ensures ok { IfOk result (λ to. EndsAt (C.rows cells.now) row.now to.now × (row_is is_blind (C.rows cells.now) to.now ≡ false)) }
    ensures err { IfErr result (λ e. ChainHasCause (C.rows cells.now) row.now e) }
{
    match next(cells, row) {
        Some(target) => follow(cells, target),
        None => Err(RefFault::NoTarget),
    }
}
