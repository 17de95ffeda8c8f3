//! Paths whose front is a reference.
ghost use Rattle.std.specs.Prelude.{◌≡◌, ◌-◌, length, IfOk, IfErr};
ghost use Rattle.ksh_nameref.specs.Targets.{front, IsLongest, IsByReference, IsTarget, HasCause};

use crate::chain::{follow_row, is_reference};
use crate::fault::RefFault;
use std::alloc::Global;
use var_types::{Cells, Path, Step};

/// A row that a path stands for: the steps `rest` below the path `base`.
#[derive(Clone, Copy)]
pub struct Resolved<'a> {
    pub base: &'a Path,
    pub rest: &'a [Step],
}

/// Takes the last step off a path, if it has one.
fn shorten(path: &mut Path)
    ensures { path.new ≡ front path.old (length path.old.steps - 1) }
{
    path.steps.pop();
}

/// What a path stands for whose longest front that is a reference has so many steps.
fn through<'a, H: 'a, C: Cells<H>>(
    cells: &'a C,
    reference: &Path,
    path: &'a Path,
    kept: usize,
) -> Result<Resolved<'a>, RefFault>
    requires { (reference.now ≡ front path.now kept) × IsLongest (C.rows cells.now) path.now kept }
    ensures ok { IfOk result (λ r. IsByReference (C.rows cells.now) path.now r.base.now r.rest.now) }
    ensures err { IfErr result (λ e. HasCause (C.rows cells.now) path.now e) }
{
    let base = follow_row(cells, reference)?;
    Ok(Resolved {
        base,
        rest: &path.steps.as_slice()[kept..],
    })
}

/// What a path stands for. The longest front of it that is a reference row, which may be all of it, is replaced by what
/// that row points to; from there on only references at the very path that was reached are followed. `Loop` comes where
/// these come back to a row, `NoTarget` where the last of them has no target.
pub fn resolve<'a, H: 'a, C: Cells<H>>(
    alloc: Global,
    cells: &'a C,
    path: &'a Path,
) -> Result<Resolved<'a>, RefFault>
    ensures ok { IfOk result (λ r. IsTarget (C.rows cells.now) path.now r.base.now r.rest.now) }
    ensures err { IfErr result (λ e. HasCause (C.rows cells.now) path.now e) }
{
    let whole = path.steps.len();
    if is_reference(cells, path) {
        return through(cells, path, path, whole);
    }
    if whole == 0 {
        return Ok(Resolved {
            base: path,
            rest: &path.steps.as_slice()[whole..],
        });
    }
    let mut front = path.copy(alloc)?;
    let mut kept = whole;
    while kept > 0 {
        shorten(&mut front);
        kept -= 1;
        if is_reference(cells, &front) {
            return through(cells, &front, path, kept);
        }
    }
    Ok(Resolved {
        base: path,
        rest: &path.steps.as_slice()[whole..],
    })
}
