ghost use Rattle.std.specs.Prelude.{◌≡◌, ◌≤◌, length};
ghost use Rattle.var_store.specs.Fronts.{front};
ghost use Rattle.var_store.specs.Standing.{standing, Held, Stands};
ghost use Rattle.var_types.specs.Rows.{cell_at};
ghost use Rattle.var_store.specs.Faults.{has_below, is_unset, is_absent, refuses_subscripts, is_wrong_step, step_faults, path_faults};

use crate::faults::Faults;
use crate::row_list::RowList;
use crate::standing::{Standing, first_standing, has_below_front, next_standing};
use std::marker::Model;
use var_types::{Path, Step, Value};

/// The largest index of an array's element.
const LARGEST_INDEX: u32 = 4_194_303;

/// Whether there is no row at the first `depth` steps of the path, or one that isn't set.
fn absent<H>(rows: &RowList<H>, path: &Path, depth: usize) -> bool
    requires { depth ≤ length path.now.steps }
    ensures { result ≡ is_absent (cell_at (front depth path.now) rows.now) }
{
    match rows.find(path, depth) {
        Some(cell) => match cell.value {
            Value::Unset => true,
            _ => false,
        },
        None => true,
    }
}

/// Whether what stands there refuses subscripts.
fn subscripts_refused<H>(
    value: Option<&Value>,
    rows: &RowList<H>,
    path: &Path,
    depth: usize,
) -> bool
    requires { depth ≤ length path.now.steps }
    ensures { result ≡ refuses_subscripts (Held value.entry) (has_below (front depth path.now) rows.now) }
{
    match value {
        Some(Value::Compound) => has_below_front(rows, path, depth),
        Some(Value::Reference(_)) | Some(Value::NoReference) | Some(Value::Instance(_)) => true,
        _ => false,
    }
}

/// Whether the step can't follow a row of that kind.
fn wrong_step(value: Option<&Value>, step: &Step) -> bool
    ensures { result ≡ is_wrong_step (Held value.entry) step.now }
{
    match (value, step) {
        (Some(Value::Plain(_)), Step::Key(_)) => true,
        (Some(Value::Plain(_)), Step::Member(_)) => true,
        (Some(Value::Number(_)), Step::Key(_)) => true,
        (Some(Value::Number(_)), Step::Member(_)) => true,
        (Some(Value::Indexed), Step::Key(_)) => true,
        (Some(Value::Indexed), Step::Member(_)) => true,
        (Some(Value::Assoc), Step::Index(_)) => true,
        (Some(Value::Assoc), Step::Member(_)) => true,
        _ => false,
    }
}

/// The faults of a step behind what stands there.
fn faults_of(stands: Standing<'_>, absent: bool, refused: bool, step: &Step) -> Faults
    ensures { result ≡ step_faults stands.entry.attrs.readonly (Held stands.entry.value) absent refused step.now }
{
    let subscript = match step {
        Step::Member(_) => false,
        _ => true,
    };
    let too_large = match step {
        Step::Index(at) => *at > LARGEST_INDEX,
        _ => false,
    };
    Faults {
        no_parent: !subscript && absent,
        read_only: stands.attrs.readonly,
        not_array: subscript && refused,
        out_of_range: too_large,
        not_a_name: false,
        wrong_kind: wrong_step(stands.value, step),
    }
}

/// What a walk along a path finds: the faults of its steps, and what stands at its end.
#[derive(Clone, Copy)]
pub struct Walked<'a> {
    pub faults: Faults,
    pub standing: Standing<'a>,
}

/// Walks along a path, and looks for the row of each front of it.
pub fn walk<'a, H>(rows: &'a RowList<H>, path: &Path) -> Walked<'a>
    ensures faults { result.faults ≡ path_faults rows.now path.now (length path.now.steps) }
    ensures standing { Stands result.standing (standing rows.now path.now (length path.now.steps)) }
{
    let mut faults = Faults::none();
    let mut stands = first_standing(rows, path);
    let mut depth = 0;
    for step in path.steps.as_slice() {
        let refused = subscripts_refused(stands.value, rows, path, depth);
        let absent = absent(rows, path, depth);
        faults = faults.and(faults_of(stands, absent, refused, step));
        depth += 1;
        stands = next_standing(rows, path, depth, step, stands);
    }
    Walked {
        faults,
        standing: stands,
    }
}
