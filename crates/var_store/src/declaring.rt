ghost use Rattle.std.specs.Prelude.{◌≡◌, ◌&&◌};
ghost use Rattle.std.specs.Option.{option_copied};
ghost use Rattle.var_types.specs.Rows.{cell_at};
ghost use Rattle.var_store.specs.Standing.{standing, Held};
ghost use Rattle.var_store.specs.Calls.{same_value, same_width, same_widths, same_shape, same_but_exported, is_changed, is_too_long, refers, declare_faults, declare_cell, Answers};
ghost use Rattle.var_store.specs.Faults.{has_below};

use crate::faults::{Faults, VarFault};
use crate::growth::hooks_at;
use crate::row_list::RowList;
use crate::standing::has_below_front;
use crate::walk::walk;
use var_types::{Attrs, Cell, Path, Value};

/// The most steps that the path of a reference's target has.
const LONGEST_TARGET: usize = 64;

fn same_value(old: &Value, new: &Value) -> bool
    ensures { result ≡ same_value old.now new.now }
{
    match (old, new) {
        (Value::Unset, Value::Unset) => true,
        (Value::Plain(s), Value::Plain(t)) => s == t,
        (Value::Number(m), Value::Number(n)) => m == n,
        (Value::Compound, Value::Compound) => true,
        (Value::Indexed, Value::Indexed) => true,
        (Value::Assoc, Value::Assoc) => true,
        (Value::Reference(p), Value::Reference(q)) => p == q,
        (Value::NoReference, Value::NoReference) => true,
        (Value::Instance(m), Value::Instance(n)) => m == n,
        _ => false,
    }
}

fn same_width(old: Option<u32>, new: Option<u32>) -> bool
    ensures { result ≡ same_width old new }
{
    match (old, new) {
        (None, None) => true,
        (Some(m), Some(n)) => m == n,
        _ => false,
    }
}

fn same_base(old: Option<u8>, new: Option<u8>) -> bool
    ensures { result ≡ same_width old new }
{
    match (old, new) {
        (None, None) => true,
        (Some(m), Some(n)) => m == n,
        _ => false,
    }
}

fn same_widths(old: &Attrs, new: &Attrs) -> bool
    ensures { result ≡ same_widths old.now new.now }
{
    same_width(old.left, new.left)
        && (same_width(old.right, new.right) && same_width(old.zero, new.zero))
}

fn same_shape(old: &Attrs, new: &Attrs) -> bool
    ensures { result ≡ same_shape old.now new.now }
{
    if !same_base(old.integer, new.integer) {
        return false;
    }
    if old.upper != new.upper {
        return false;
    }
    if old.lower != new.lower {
        return false;
    }
    same_widths(old, new)
}

/// Whether the attributes are the same, but that the new ones may export.
fn same_but_exported(old: &Attrs, new: &Attrs) -> bool
    ensures { result ≡ same_but_exported old.now new.now }
{
    if !same_shape(old, new) {
        return false;
    }
    if old.readonly != new.readonly {
        return false;
    }
    !old.exported || new.exported
}

fn changed<H>(row: Option<&Cell<H>>, attrs: &Attrs, value: &Value) -> bool
    ensures { result ≡ is_changed (option_copied row.entry) attrs.now value.now }
{
    match row {
        Some(cell) => { !(same_value(&cell.value, value) && same_but_exported(&cell.attrs, attrs)) }
        None => true,
    }
}

fn too_long(value: &Value) -> bool
    ensures { result ≡ is_too_long value.now }
{
    match value {
        Value::Reference(path) => path.steps.len() > LONGEST_TARGET,
        _ => false,
    }
}

fn refers(value: &Value) -> bool
    ensures { result ≡ refers value.now }
{
    match value {
        Value::Reference(_) | Value::NoReference => true,
        _ => false,
    }
}

/// The cell that a declaration makes of what stands at a path.
pub fn declared<H: Drop>(
    rows: &RowList<H>,
    path: &Path,
    attrs: Attrs,
    value: Value,
) -> Result<Cell<H>, VarFault>
    ensures { Answers result (declare_cell rows.now path.now attrs value) }
{
    let walked = walk(rows, path);
    let locked = walked.standing.attrs.readonly;
    let new = changed(rows.find_row(path), &attrs, &value);
    let below = refers_above(rows, path, &value);
    if let Some(fault) = faults_of(walked.faults, locked, new, &value, below).first() {
        return Err(fault);
    }
    let hooks = hooks_at(rows, path, path.steps.len())?;
    Ok(Cell {
        attrs,
        value,
        hooks,
    })
}

/// The faults of a declaration, of which `walked` are those of the path, and `below` says that it
/// is a reference with rows below it.
fn faults_of(walked: Faults, locked: bool, changed: bool, value: &Value, below: bool) -> Faults
    ensures { result ≡ declare_faults walked locked changed value.now below }
{
    Faults {
        no_parent: walked.no_parent,
        read_only: (walked.read_only || locked) && changed,
        not_array: walked.not_array,
        out_of_range: walked.out_of_range,
        not_a_name: too_long(value),
        wrong_kind: walked.wrong_kind || below,
    }
}

/// Whether the value is a reference, and rows stand below that of the path.
fn refers_above<H>(rows: &RowList<H>, path: &Path, value: &Value) -> bool
    ensures { result ≡ (refers value.now && has_below path.now rows.now) }
{
    refers(value) && has_below_row(rows, path)
}

/// Whether rows stand below that of the path.
fn has_below_row<H>(rows: &RowList<H>, path: &Path) -> bool
    ensures { result ≡ has_below path.now rows.now }
{
    has_below_front(rows, path, path.steps.len())
}
