ghost use Rattle.std.specs.Prelude.{◌≡◌, [], ◌≤◌, ◌<◌, ◌+◌, length, Some, Ok, IfOk, OnOk, OnErr};
ghost use Rattle.std.specs.Vec.{vec_len, vec_capacity};
ghost use Rattle.std.specs.Option.{option_copied};
ghost use Rattle.var_types.specs.Rows.{IsRising, cell_at};
ghost use Rattle.var_types.specs.Order.{path_cmp};
ghost use Rattle.var_store.specs.Fronts.{front, Places};
ghost use Rattle.var_store.specs.Changes.{with_row, with_rows, without, without_scope};
ghost use Rattle.var_store.specs.Growth.{with_value};
ghost use Rattle.var_types.specs.declared.path.Path.{Path};
ghost use Rattle.var_types.specs.declared.cell.Cell.{Cell};

use ksh_base::Memory;
use std::alloc::Global;
use std::cmp::Ordering;
use std::marker::Model;
use var_types::{Cell, Path, Value, is_prefix};

/// Rows in a vector, rising by path, each path once.
#[derive(Drop)]
pub struct RowList<H> {
    rows: Vec<(Path, Cell<H>)>,
}

impl<H> Model for RowList<H> {
    ghost use Rattle.var_types.specs.Rows.{Rows, IsRising};

    ghost Value = { Rows H };

    ghost view = { λ l. l.rows.items };

    ghost invariant = { λ l. IsRising l.rows.items };
}

impl<H> RowList<H> {
    /// No rows. Takes no memory.
    pub fn new(alloc: Global) -> RowList<H>
        ensures { result ≡ [] }
    {
        RowList {
            rows: Vec::new(alloc),
        }
    }

    pub fn rows(&self) -> &[(Path, Cell<H>)]
        ensures rows { result.now ≡ self.now }
        ensures rising { IsRising self.now }
    {
        self.rows.as_slice()
    }

    /// Where the row of the path is, or where it would be put.
    pub fn place(&self, path: &Path) -> Result<usize, usize>
        ensures { Places self.now path.now result }
    {
        place_of(self.rows.as_slice(), path)
    }

    /// The cell of the row there, which is the path's.
    pub fn cell(&self, path: &Path, at: usize) -> &Cell<H>
        requires { Places self.now path.now (Ok at) }
        ensures { Some result.now ≡ cell_at path.now self.now }
    {
        cell_there(self.rows.as_slice(), path, at)
    }

    /// The cell of the row at the first `depth` steps of the path.
    pub fn find(&self, path: &Path, depth: usize) -> Option<&Cell<H>>
        requires { depth ≤ length path.now.steps }
        ensures { option_copied result ≡ cell_at (front depth path.now) self.now }
    {
        cell_of(self.rows.as_slice(), path, depth)
    }
}

impl<H> RowList<H> {
    /// The cell of the row of the path.
    pub fn find_row(&self, path: &Path) -> Option<&Cell<H>>
        ensures { option_copied result ≡ cell_at path.now self.now }
    {
        self.find(path, path.steps.len())
    }
}

impl<H: Drop> RowList<H> {
    /// A copy of each row.
    pub fn copy(&self, alloc: Global) -> Result<RowList<H>, Memory>
        ensures { IfOk result (λ l. l ≡ self.now) }
    {
        let rows = copy_rows(alloc, self.rows.as_slice())?;
        Ok(RowList { rows })
    }

    /// Gives the row there another value.
    pub fn set_value(&mut self, at: usize, value: Value)
        requires { at < length self.old }
        ensures { (p : Path) (c : Cell H) → Places self.old p (Ok at) → Some c ≡ cell_at p self.old → self.new ≡ with_row p (with_value c value) self.old }
    {
        set_value_there(&mut self.rows, at, value);
    }

    /// Writes each of the rows, one after the other, or none.
    pub fn write(&mut self, writes: Vec<(Path, Cell<H>)>) -> Result<(), Memory>
        ensures ok { OnOk result (self.new ≡ with_rows writes.items self.old) }
        ensures err { OnErr result (self.new ≡ self.old) }
    {
        self.rows.reserve(writes.len())?;
        for (path, cell) in writes {
            write_one(&mut self.rows, path, cell);
        }
        Ok(())
    }

    /// Takes away the row of the path and those below it.
    pub fn remove_below(&mut self, path: &Path)
        ensures { self.new ≡ without path.now self.old }
    {
        self.rows.retain(|row| !is_prefix(path, &row.0));
    }

    /// Takes away the rows of a scope.
    pub fn remove_scope(&mut self, scope: u32)
        ensures { self.new ≡ without_scope scope self.old }
    {
        self.rows.retain(|row| row.0.scope != scope);
    }
}

/// How a path compares to the first `depth` steps of another.
fn compare_front<H>(row: &(Path, Cell<H>), path: &Path, depth: usize) -> Ordering
    requires { depth ≤ length path.now.steps }
    ensures { result ≡ path_cmp row.now.0 (front depth path.now) }
{
    match row.0.scope.cmp(&path.scope) {
        Ordering::Equal => {}
        unequal => return unequal,
    }
    match row.0.name.cmp(&path.name) {
        Ordering::Equal => {}
        unequal => return unequal,
    }
    row.0.steps.as_slice().cmp(&path.steps.as_slice()[..depth])
}

/// Where the row of the first `depth` steps of the path is, or where it would be put.
fn place<H>(rows: &[(Path, Cell<H>)], path: &Path, depth: usize) -> Result<usize, usize>
    requires within { depth ≤ length path.now.steps }
    requires rising { IsRising rows.now }
    ensures { Places rows.now (front depth path.now) result }
{
    let mut low = 0;
    let mut high = rows.len();
    while low < high {
        let middle = low + (high - low) / 2;
        match compare_front(&rows[middle], path, depth) {
            Ordering::Less => low = middle + 1,
            Ordering::Equal => return Ok(middle),
            Ordering::Greater => high = middle,
        }
    }
    Err(low)
}

/// Where the row of the path is, or where it would be put.
fn place_of<H>(rows: &[(Path, Cell<H>)], path: &Path) -> Result<usize, usize>
    requires { IsRising rows.now }
    ensures { Places rows.now path.now result }
{
    place(rows, path, path.steps.len())
}

/// The cell of the row of the first `depth` steps of the path.
fn cell_of<'a, H>(rows: &'a [(Path, Cell<H>)], path: &Path, depth: usize) -> Option<&'a Cell<H>>
    requires within { depth ≤ length path.now.steps }
    requires rising { IsRising rows.now }
    ensures { option_copied result ≡ cell_at (front depth path.now) rows.now }
{
    match place(rows, path, depth) {
        Ok(at) => Some(&rows[at].1),
        Err(_) => None,
    }
}

/// The cell of the row there, which is the path's.
fn cell_there<'a, H>(rows: &'a [(Path, Cell<H>)], _path: &Path, at: usize) -> &'a Cell<H>
    requires { Places rows.now _path.now (Ok at) }
    ensures { Some result.now ≡ cell_at _path.now rows.now }
{
    &rows[at].1
}

/// Gives the row there another value.
fn set_value_there<H: Drop>(rows: &mut Vec<(Path, Cell<H>)>, at: usize, value: Value)
    requires within { at < length rows.old.items }
    requires rising { IsRising rows.old.items }
    ensures value { (p : Path) (c : Cell H) → Places rows.old.items p (Ok at) → Some c ≡ cell_at p rows.old.items → rows.new.items ≡ with_row p (with_value c value) rows.old.items }
    ensures rising { IsRising rows.new.items }
{
    rows[at].1.value = value;
}

/// Writes a row, where there is room for one.
fn write_one<H: Drop>(rows: &mut Vec<(Path, Cell<H>)>, path: Path, cell: Cell<H>)
    requires rising { IsRising rows.old.items }
    requires room { vec_len rows.old < vec_capacity rows.old }
    ensures written { rows.new.items ≡ with_row path cell rows.old.items }
    ensures rising { IsRising rows.new.items }
    ensures len { vec_len rows.new ≤ vec_len rows.old + 1 }
    ensures capacity { vec_capacity rows.old ≤ vec_capacity rows.new }
{
    match place_of(rows.as_slice(), &path) {
        Ok(at) => rows[at].1 = cell,
        Err(at) => {
            let _written = rows.insert(at, (path, cell));
        }
    }
}

fn copy_rows<H: Drop>(
    alloc: Global,
    rows: &[(Path, Cell<H>)],
) -> Result<Vec<(Path, Cell<H>)>, Memory>
    ensures { IfOk result (λ c. c.items ≡ rows.now) }
{
    let mut copies = Vec::new(alloc);
    for row in rows {
        let path = row.0.copy(alloc)?;
        let cell = row.1.copy(alloc)?;
        copies.push((path, cell))?;
    }
    Ok(copies)
}
