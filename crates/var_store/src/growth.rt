ghost use Rattle.std.specs.Prelude.{◌≡◌, ◌≤◌, ◌++◌, ◌∷◌, [], length, Some, IfOk, OnOk, OnErr};
ghost use Rattle.var_store.specs.Fronts.{front};
ghost use Rattle.var_store.specs.Standing.{standing, element_attrs, hooks_of, attrs_or, Held, Stands};
ghost use Rattle.var_types.specs.Rows.{cell_at};
ghost use Rattle.var_store.specs.Growth.{with_value, then_step, turn, Turn, moved, growth, growths, grown};
ghost use Rattle.var_types.specs.declared.path.Step.TheVariants.{Index};

use crate::row_list::RowList;
use crate::standing::{Standing, first_standing, for_element, next_standing};
use ksh_base::{Items, Memory};
use std::alloc::Global;
use std::marker::Model;
use var_types::{Attrs, Cell, HookSet, Path, Step, Value, copy_steps};

/// The first `depth` steps of a path, as a path.
pub fn copy_front(alloc: Global, path: &Path, depth: usize) -> Result<Path, Memory>
    requires { depth ≤ length path.now.steps }
    ensures { IfOk result (λ p. p ≡ front depth path.now) }
{
    let name = path.name.copy(alloc)?;
    let steps = copy_steps(alloc, &path.steps.as_slice()[..depth])?;
    Ok(Path {
        scope: path.scope,
        name,
        steps,
    })
}

/// The path with one more step.
pub fn with_step(mut path: Path, step: Step) -> Result<Path, Memory>
    ensures { IfOk result (λ p. p ≡ then_step path step) }
{
    path.steps.push(step)?;
    Ok(path)
}

/// The hooks of the row after the first `depth` steps of the path.
#[tactic(auto, using(crate::proofs::Stands::standing_hooks))]
pub fn hooks_at<H: Drop>(rows: &RowList<H>, path: &Path, depth: usize) -> Result<HookSet<H>, Memory>
    requires { depth ≤ length path.now.steps }
    ensures own { IfOk result (λ h. h ≡ hooks_of (cell_at (front depth path.now) rows.now)) }
    ensures standing { IfOk result (λ h. h ≡ (standing rows.now path.now depth).hooks) }
{
    match rows.find(path, depth) {
        Some(cell) => Ok(cell.hooks.copy()?),
        None => Ok(HookSet::none()),
    }
}

/// The hooks of the row of the path.
fn row_hooks<H: Drop>(rows: &RowList<H>, path: &Path) -> Result<HookSet<H>, Memory>
    ensures { IfOk result (λ h. h ≡ hooks_of (cell_at path.now rows.now)) }
{
    match rows.find_row(path) {
        Some(cell) => Ok(cell.hooks.copy()?),
        None => Ok(HookSet::none()),
    }
}

/// The cell that stands after the first `depth` steps of the path, with another value.
pub fn revalued<H: Drop>(
    rows: &RowList<H>,
    path: &Path,
    depth: usize,
    stands: Standing<'_>,
    value: Value,
) -> Result<Cell<H>, Memory>
    requires { depth ≤ length path.now.steps }
    ensures { Stands stands.entry (standing rows.now path.now depth) → IfOk result (λ c. c ≡ with_value (standing rows.now path.now depth) value) }
{
    let hooks = hooks_at(rows, path, depth)?;
    Ok(Cell {
        attrs: stands.attrs,
        value,
        hooks,
    })
}

/// What is written before a step, so that it leads to an element of an array.
fn turned<H: Drop>(
    alloc: Global,
    rows: &RowList<H>,
    path: &Path,
    depth: usize,
    stands: Standing<'_>,
    step: &Step,
    writes: &mut Vec<(Path, Cell<H>)>,
) -> Result<(), Memory>
    requires { depth ≤ length path.now.steps }
    ensures { OnOk result (Stands stands.entry (standing rows.now path.now depth) → writes.new.items ≡ writes.old.items ++ growth rows.now (front depth path.now) (standing rows.now path.now depth) (Some step.now)) }
{
    match (stands.value, step) {
        (None | Some(Value::Unset) | Some(Value::Compound), Step::Index(_)) => {
            array_made(alloc, rows, path, depth, stands, Value::Indexed, writes)
        }
        (None | Some(Value::Unset) | Some(Value::Compound), Step::Key(_)) => {
            array_made(alloc, rows, path, depth, stands, Value::Assoc, writes)
        }
        (Some(Value::Plain(_)) | Some(Value::Number(_)), Step::Index(_)) => {
            array_made(alloc, rows, path, depth, stands, Value::Indexed, writes)?;
            value_moved(alloc, rows, path, depth, stands, writes)
        }
        _ => Ok(()),
    }
}

/// Writes an array after the first `depth` steps.
fn array_made<H: Drop>(
    alloc: Global,
    rows: &RowList<H>,
    path: &Path,
    depth: usize,
    stands: Standing<'_>,
    array: Value,
    writes: &mut Vec<(Path, Cell<H>)>,
) -> Result<(), Memory>
    requires { depth ≤ length path.now.steps }
    ensures { OnOk result (Stands stands.entry (standing rows.now path.now depth) → writes.new.items ≡ writes.old.items ++ (front depth path.now, with_value (standing rows.now path.now depth) array) ∷ []) }
{
    let cell = revalued(rows, path, depth, stands, array)?;
    let path = copy_front(alloc, path, depth)?;
    writes.push((path, cell))?;
    Ok(())
}

/// The attributes of element 0 at that path, whose array has the given ones.
fn element_attrs_at<H>(rows: &RowList<H>, zero: &Path, array: Attrs) -> Attrs
    ensures { result ≡ attrs_or (cell_at zero.now rows.now) (element_attrs array) }
{
    match rows.find_row(zero) {
        Some(cell) => cell.attrs,
        None => for_element(array),
    }
}

pub fn copy_value(alloc: Global, value: Option<&Value>) -> Result<Value, Memory>
    ensures { IfOk result (λ v. v ≡ Held value.entry) }
{
    match value {
        Some(value) => value.copy(alloc),
        None => Ok(Value::Unset),
    }
}

/// Writes the value that stands after the first `depth` steps as element 0 there.
fn value_moved<H: Drop>(
    alloc: Global,
    rows: &RowList<H>,
    path: &Path,
    depth: usize,
    stands: Standing<'_>,
    writes: &mut Vec<(Path, Cell<H>)>,
) -> Result<(), Memory>
    requires { depth ≤ length path.now.steps }
    ensures { OnOk result (Stands stands.entry (standing rows.now path.now depth) → writes.new.items ≡ writes.old.items ++ (then_step (front depth path.now) (Index 0), moved rows.now (front depth path.now) (standing rows.now path.now depth)) ∷ []) }
{
    let value = copy_value(alloc, stands.value)?;
    let zero = with_step(copy_front(alloc, path, depth)?, Step::Index(0))?;
    let attrs = element_attrs_at(rows, &zero, stands.attrs);
    let hooks = row_hooks(rows, &zero)?;
    writes.push((
        zero,
        Cell {
            attrs,
            value,
            hooks,
        },
    ))?;
    Ok(())
}

/// What is written before the steps of a path.
fn growths<H: Drop>(
    alloc: Global,
    rows: &RowList<H>,
    path: &Path,
) -> Result<Vec<(Path, Cell<H>)>, Memory>
    ensures { IfOk result (λ w. w.items ≡ growths rows.now path.now (length path.now.steps)) }
{
    let mut writes = Vec::new(alloc);
    let mut stands = first_standing(rows, path);
    let mut depth = 0;
    for step in path.steps.as_slice() {
        turned(alloc, rows, path, depth, stands, step, &mut writes)?;
        depth += 1;
        stands = next_standing(rows, path, depth, step, stands);
    }
    Ok(writes)
}

/// Writes a cell at a path, and the arrays that it stands in, or nothing.
pub fn grow<H: Drop>(
    alloc: Global,
    rows: &mut RowList<H>,
    path: &Path,
    cell: Cell<H>,
) -> Result<(), Memory>
    ensures ok { OnOk result (rows.new ≡ grown rows.old path.now cell) }
    ensures err { OnErr result (rows.new ≡ rows.old) }
{
    let mut writes = growths(alloc, rows, path)?;
    writes.push((path.copy(alloc)?, cell))?;
    rows.write(writes)
}
