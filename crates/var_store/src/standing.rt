ghost use Rattle.std.specs.Prelude.{◌≡◌, ℕ, ◌≤◌, length, slice_get, Some, suc};
ghost use Rattle.var_types.specs.Rows.{no_attrs};
ghost use Rattle.var_store.specs.Fronts.{front};
ghost use Rattle.var_store.specs.Standing.{is_single, element_attrs, led_to, led_attrs, standing, Held, Stands};
ghost use Rattle.var_types.specs.declared.value.Value.TheVariants.{Unset};
ghost use Rattle.var_store.specs.Faults.{no_faults, both, has_below, step_faults_at, path_faults, refuses_subscripts, is_wrong_step, goes_on};

use crate::faults::Faults;
use crate::row_list::RowList;
use std::marker::Model;
use var_types::{Attrs, Cell, Path, Step, Value};

/// What stands after some steps of a path: the attributes and the value of the row there, or what
/// an element has from the row before it. No value: unset.
#[derive(Clone, Copy)]
pub struct Standing<'a> {
    pub attrs: Attrs,
    pub value: Option<&'a Value>,
}

/// One text or number.
pub fn single(value: Option<&Value>) -> bool
    ensures { result ≡ is_single (Held value.entry) }
{
    match value {
        Some(Value::Plain(_)) | Some(Value::Number(_)) => true,
        _ => false,
    }
}

/// The attributes that a new element has from its array.
pub fn for_element(attrs: Attrs) -> Attrs
    ensures { result ≡ element_attrs attrs }
{
    Attrs {
        readonly: false,
        exported: false,
        ..attrs
    }
}

/// What stands behind one more step where no row is.
fn led<'a>(before: Standing<'a>, step: &Step) -> Standing<'a>
    ensures attrs { result.attrs ≡ led_attrs before.entry.attrs step.now }
    ensures value { Held result.value ≡ led_to (Held before.entry.value) step.now }
{
    match step {
        Step::Index(at) => Standing {
            attrs: for_element(before.attrs),
            value: if *at == 0 && single(before.value) {
                before.value
            } else {
                None
            },
        },
        Step::Key(_) => Standing {
            attrs: for_element(before.attrs),
            value: None,
        },
        Step::Member(_) => Standing::blank(),
    }
}

impl<'a> Standing<'a> {
    /// Nothing.
    pub fn blank() -> Standing<'a>
        ensures attrs { result.attrs ≡ no_attrs }
        ensures value { Held result.value ≡ Unset }
    {
        Standing {
            attrs: Attrs::none(),
            value: None,
        }
    }

    pub fn of<H>(cell: &'a Cell<H>) -> Standing<'a>
        ensures { Stands result cell.now }
    {
        Standing {
            attrs: cell.attrs,
            value: Some(&cell.value),
        }
    }
}

/// What stands at the name of a path.
pub fn first_standing<'a, H>(rows: &'a RowList<H>, path: &Path) -> Standing<'a>
    ensures { Stands result (standing rows.now path.now 0) }
{
    match rows.find(path, 0) {
        Some(cell) => Standing::of(cell),
        None => Standing::blank(),
    }
}

/// What stands after the first `depth` steps of the path, of which `step` is the last, where
/// `before` stands after those before it.
pub fn next_standing<'a, H>(
    rows: &'a RowList<H>,
    path: &Path,
    depth: usize,
    step: &Step,
    before: Standing<'a>,
) -> Standing<'a>
    requires { depth ≤ length path.now.steps }
    ensures { (k : ℕ) → depth ≡ suc k → slice_get path.now.steps k ≡ Some step.now → Stands before.entry (standing rows.now path.now k) → Stands result (standing rows.now path.now (suc k)) }
{
    match rows.find(path, depth) {
        Some(cell) => Standing::of(cell),
        None => led(before, step),
    }
}

/// Whether rows stand below that of the first `depth` steps of the path.
pub fn has_below_front<H>(rows: &RowList<H>, path: &Path, depth: usize) -> bool
    requires { depth ≤ length path.now.steps }
    ensures { result ≡ has_below (front depth path.now) rows.now }
{
    rows.rows()
        .iter()
        .any(|row| goes_on_from(path, depth, &row.0))
}

/// Whether the path `other` goes on from the first `depth` steps of `path`.
fn goes_on_from(path: &Path, depth: usize, other: &Path) -> bool
    requires { depth ≤ length path.now.steps }
    ensures { result ≡ goes_on (front depth path.now) other.now }
{
    path.scope == other.scope
        && path.name == other.name
        && other
            .steps
            .as_slice()
            .starts_with(&path.steps.as_slice()[..depth])
        && depth < other.steps.len()
}
