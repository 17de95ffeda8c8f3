ghost use Rattle.std.specs.Prelude.{◌≡◌, ◌∷◌, ◌++◌, [], not, IfOk, OnOk};
ghost use Rattle.std.specs.Fmt.{decimal};
ghost use Rattle.std.specs.Option.{option_copied};
ghost use Rattle.std.specs.List.{filter_map, cons_option};
ghost use Rattle.var_types.specs.Rows.{cell_at};
ghost use Rattle.var_store.specs.Calls.{AnswersBy, unlocked, step_at, as_subscript, as_member, subscripts_at, subscripts_of, has_no_members, is_no_compound, kind_faults, members_of, name_in, names_of};

use crate::faults::{Faults, VarFault};
use crate::row_list::RowList;
use crate::standing::single;
use crate::walk::walk;
use itoa::Buffer;
use ksh_base::{Memory, Name, Text};
use std::alloc::Global;
use var_types::{Cell, Path, Step, Value, is_prefix};

/// The step that leads from a path to one below it.
fn step_between<'a>(path: &Path, other: &'a Path) -> Option<&'a Step>
    ensures { option_copied result ≡ step_at path.now other.now }
{
    if !is_prefix(path, other) {
        return None;
    }
    let depth = path.steps.len();
    let steps = other.steps.as_slice();
    if steps.len() == depth {
        return None;
    }
    if steps.len() - 1 == depth {
        steps.get(depth)
    } else {
        None
    }
}

/// The text of an index.
fn index_text(alloc: Global, index: u32) -> Result<Text, Memory>
    ensures { IfOk result (λ t. t ≡ decimal index) }
{
    let mut buffer = Buffer::new();
    Text::of(alloc, buffer.format(index).as_bytes())
}

/// The text of a subscript, which another step isn't.
fn subscript_text(alloc: Global, step: Option<&Step>) -> Result<Option<Text>, Memory>
    ensures { IfOk result (λ t. t ≡ as_subscript (option_copied step.entry)) }
{
    match step {
        Some(Step::Index(at)) => Ok(Some(index_text(alloc, *at)?)),
        Some(Step::Key(text)) => Ok(Some(text.copy(alloc)?)),
        _ => Ok(None),
    }
}

/// The name of a member, which another step isn't.
fn member_name(alloc: Global, step: Option<&Step>) -> Result<Option<Name>, Memory>
    ensures { IfOk result (λ n. n ≡ as_member (option_copied step.entry)) }
{
    match step {
        Some(Step::Member(name)) => Ok(Some(name.copy(alloc)?)),
        _ => Ok(None),
    }
}

fn copy_name(alloc: Global, name: Option<&Name>) -> Result<Option<Name>, Memory>
    ensures { IfOk result (λ n. n ≡ option_copied name.entry) }
{
    match name {
        Some(name) => Ok(Some(name.copy(alloc)?)),
        None => Ok(None),
    }
}

/// Adds an item to a list, where there is one.
fn add<T: Drop>(list: &mut Vec<T>, item: Option<T>) -> Result<(), Memory>
    ensures { OnOk result (list.new.items ≡ list.old.items ++ cons_option item []) }
{
    if let Some(item) = item {
        list.push(item)?;
    }
    Ok(())
}

fn lists_subscripts<H>(alloc: Global, rows: &RowList<H>, path: &Path) -> Result<Vec<Text>, Memory>
    ensures { IfOk result (λ v. v.items ≡ filter_map (λ r. as_subscript (step_at path.now r.0)) rows.now) }
{
    let mut texts = Vec::new(alloc);
    for row in rows.rows() {
        let text = subscript_text(alloc, step_between(path, &row.0))?;
        add(&mut texts, text)?;
    }
    Ok(texts)
}

fn lists_members<H>(alloc: Global, rows: &RowList<H>, path: &Path) -> Result<Vec<Name>, Memory>
    ensures { IfOk result (λ v. v.items ≡ filter_map (λ r. as_member (step_at path.now r.0)) rows.now) }
{
    let mut names = Vec::new(alloc);
    for row in rows.rows() {
        let name = member_name(alloc, step_between(path, &row.0))?;
        add(&mut names, name)?;
    }
    Ok(names)
}

/// The subscripts of the rows one step below a path; a text or a number has 0 alone.
pub fn subscripts<H>(alloc: Global, rows: &RowList<H>, path: &Path) -> Result<Vec<Text>, VarFault>
    ensures { AnswersBy (λ v. v.items) result (subscripts_of rows.now path.now) }
{
    let walked = walk(rows, path);
    let mut faults = walked.faults;
    faults.read_only = false;
    if let Some(fault) = faults.first() {
        return Err(fault);
    }
    if single(walked.standing.value) {
        return Ok(one_text(alloc, index_text(alloc, 0)?)?);
    }
    Ok(lists_subscripts(alloc, rows, path)?)
}

fn one_text(alloc: Global, text: Text) -> Result<Vec<Text>, Memory>
    ensures { IfOk result (λ v. v.items ≡ text ∷ []) }
{
    let mut texts = Vec::new(alloc);
    texts.push(text)?;
    Ok(texts)
}

fn has_members<H>(cell: Option<&Cell<H>>) -> bool
    ensures { result ≡ not (is_no_compound (option_copied cell.entry)) }
{
    match cell {
        None => true,
        Some(cell) => match cell.value {
            Value::Compound | Value::Instance(_) => true,
            _ => false,
        },
    }
}

/// The members of the rows one step below a path.
pub fn members<H>(alloc: Global, rows: &RowList<H>, path: &Path) -> Result<Vec<Name>, VarFault>
    ensures { AnswersBy (λ v. v.items) result (members_of rows.now path.now) }
{
    let mut kind = Faults::none();
    kind.wrong_kind = !has_members(rows.find_row(path));
    let mut faults = walk(rows, path).faults;
    faults.read_only = false;
    if let Some(fault) = faults.and(kind).first() {
        return Err(fault);
    }
    Ok(lists_members(alloc, rows, path)?)
}

/// The name of a path of the scope that has no steps.
fn name_in(scope: u32, path: &Path) -> Option<&Name>
    ensures { option_copied result ≡ name_in scope path.now }
{
    if path.scope == scope && path.steps.is_empty() {
        Some(&path.name)
    } else {
        None
    }
}

/// The names of a scope's rows whose path has no steps.
pub fn names<H>(alloc: Global, rows: &RowList<H>, scope: u32) -> Result<Vec<Name>, Memory>
    ensures { IfOk result (λ v. v.items ≡ names_of rows.now scope) }
{
    let mut names = Vec::new(alloc);
    for row in rows.rows() {
        let name = copy_name(alloc, name_in(scope, &row.0))?;
        add(&mut names, name)?;
    }
    Ok(names)
}
