ghost use Rattle.std.specs.Prelude.{◌≡◌, ◌≤◌, ◌<◌, ◌+◌, [], not, false, length, None, Ok, IfOk, IfSome, OnSome};
ghost use Rattle.std.specs.Option.{option_copied};
ghost use Rattle.var_types.specs.Rows.{cell_at};
ghost use Rattle.var_store.specs.Fronts.{Places};
ghost use Rattle.var_store.specs.Standing.{standing, Held};
ghost use Rattle.var_store.specs.Calls.{Changes, Answers, text_faults, takes_no_text, cell_value, is_indexed, zeroed, or_itself, assign_cell, assign_at, put_of, append_of, declare_of, hook_of, unset_of, subscripts_of, members_of, names_of, popped, AnswersBy};

use crate::changing::{change_refused, change_refused_at_end, hooked, locked_below, unhook};
use crate::declaring::declared;
use crate::faults::{Faults, VarFault};
use crate::growth::{grow, revalued, with_step};
use crate::looking::{members, names, subscripts};
use crate::row_list::RowList;
use crate::shaping::assigned;
use crate::standing::Standing;
use crate::walk::walk;
use ksh_base::{Memory, Name, Shared, Text};
use std::alloc::Global;
use std::marker::Model;
use std::sync::ledger::Ledger;
use tree_steps::Steps;
use var_types::{Attrs, Cell, Cells, HookKind, Path, Step, Value};

/// The variables of a shell. `H` is the kind of a discipline's function. A call that is refused, for want of memory too,
/// has changed nothing.
#[derive(Drop)]
pub struct VarStore<H> {
    rows: RowList<H>,
    scope: u32,
    alloc: Global,
}

impl<H> Model for VarStore<H> {
    ghost use Rattle.var_store.specs.Calls.{Store};

    ghost Value = { Store H };

    ghost view = { λ s. (s.rows, s.scope) };
}

impl<H> VarStore<H> {
    /// No rows, and scope 0 alone.
    pub fn new(alloc: Global) -> Result<VarStore<H>, Memory>
        ensures { IfOk result (λ s. s ≡ ([], 0)) }
    {
        Ok(VarStore {
            rows: RowList::new(alloc),
            scope: 0,
            alloc,
        })
    }

    /// The cell of the row of that path, or nothing where there is none.
    pub fn get(&self, path: &Path) -> Option<&Cell<H>>
        ensures { option_copied result ≡ cell_at path.now self.now.0 }
    {
        self.rows.find_row(path)
    }

    /// The subscripts one step below a path, in order; a text or a number has `0` alone. `ReadOnly` is no fault here.
    pub fn subscripts(&self, path: &Path) -> Result<Vec<Text>, VarFault>
        ensures { AnswersBy (λ v. v.items) result (subscripts_of self.now.0 path.now) }
    {
        subscripts(self.alloc, &self.rows, path)
    }

    /// The members one step below a compound or an instance, in order. `ReadOnly` is no fault here.
    pub fn members(&self, path: &Path) -> Result<Vec<Name>, VarFault>
        ensures { AnswersBy (λ v. v.items) result (members_of self.now.0 path.now) }
    {
        members(self.alloc, &self.rows, path)
    }

    /// The names of a scope's rows whose path has no steps, rising.
    pub fn names(&self, scope: u32) -> Result<Vec<Name>, Memory>
        ensures { IfOk result (λ v. v.items ≡ names_of self.now.0 scope) }
    {
        names(self.alloc, &self.rows, scope)
    }

    /// The number of the highest scope.
    pub fn scope(&self) -> u32
        ensures { result ≡ self.now.1 }
    {
        self.scope
    }

    /// Adds a scope above the highest, and answers its number. There are at most 16,384 scopes.
    pub fn push_scope(&mut self) -> u32
        requires { self.old.1 + 1 < 16384 }
        ensures result { result ≡ self.old.1 + 1 }
        ensures store { self.new ≡ (self.old.0, self.old.1 + 1) }
    {
        self.scope += 1;
        self.scope
    }
}

impl<H: Drop> VarStore<H> {
    /// The same rows and scopes. Neither changes by what is done to the other.
    pub fn fork(&self) -> Result<VarStore<H>, Memory>
        ensures { IfOk result (λ s. s ≡ self.now) }
    {
        Ok(VarStore {
            rows: self.rows.copy(self.alloc)?,
            scope: self.scope,
            alloc: self.alloc,
        })
    }

    /// Puts a text into a row, which its attributes shape. A row that is missing is made, and so are the arrays that it
    /// stands in; an indexed array stands for its element 0.
    pub fn put<L: Ledger>(
        &mut self,
        path: &Path,
        value: &[u8],
        _steps: &mut Steps<L>,
    ) -> Result<(), VarFault>
        ensures { Changes result self.old self.new (put_of self.old path.now value.now) }
    {
        self.put_text(path, value)
    }

    /// Adds a text behind that of a row, or a number to its number; else as `put`.
    pub fn append<L: Ledger>(
        &mut self,
        path: &Path,
        value: &[u8],
        _steps: &mut Steps<L>,
    ) -> Result<(), VarFault>
        ensures { Changes result self.old self.new (append_of self.old path.now value.now) }
    {
        self.append_text(path, value)
    }

    /// Takes away a row and all rows below it. Without a row there is nothing to refuse.
    pub fn unset<L: Ledger>(&mut self, path: &Path, _steps: &mut Steps<L>) -> Result<(), VarFault>
        ensures { Changes result self.old self.new (unset_of self.old path.now) }
    {
        self.unset_row(path)
    }

    /// Gives a row these attributes and this value. It keeps its hooks. A row that is read only is refused only where it
    /// would change by more than being exported.
    pub fn declare<L: Ledger>(
        &mut self,
        path: &Path,
        attrs: Attrs,
        value: Value,
        _steps: &mut Steps<L>,
    ) -> Result<(), VarFault>
        ensures { Changes result self.old self.new (declare_of self.old path.now attrs value) }
    {
        self.declare_row(path, attrs, value)
    }

    /// Gives a row a discipline's function, or takes one from it. A row is made for a function that is given.
    pub fn hook<L: Ledger>(
        &mut self,
        path: &Path,
        kind: HookKind,
        function: Option<Shared<H>>,
        _steps: &mut Steps<L>,
    ) -> Result<(), VarFault>
        ensures { Changes result self.old self.new (hook_of self.old path.now kind function) }
    {
        self.hook_row(path, kind, function)
    }

    /// Takes away the highest scope and its rows.
    pub fn pop_scope<L: Ledger>(&mut self, _steps: &mut Steps<L>) -> Result<(), VarFault>
        requires { 0 < self.old.1 }
        ensures { Changes result self.old self.new (Ok (popped self.old)) }
    {
        self.rows.remove_scope(self.scope);
        self.scope -= 1;
        Ok(())
    }

    pub(crate) fn put_text(&mut self, path: &Path, value: &[u8]) -> Result<(), VarFault>
        ensures { Changes result self.old self.new (put_of self.old path.now value.now) }
    {
        self.assign_zeroed(path, value, false)
    }

    pub(crate) fn append_text(&mut self, path: &Path, value: &[u8]) -> Result<(), VarFault>
        ensures { Changes result self.old self.new (append_of self.old path.now value.now) }
    {
        self.assign_zeroed(path, value, true)
    }

    /// Assigns to element 0 where the row is an indexed array. The row of a name that is there is
    /// looked for once.
    fn assign_zeroed(&mut self, path: &Path, text: &[u8], append: bool) -> Result<(), VarFault>
        ensures { Changes result self.old self.new (assign_at append self.old (zeroed self.old.0 path.now) text.now) }
    {
        if let Some(at) = self.single_name(path) {
            return self.assign_name(path, at, text, append);
        }
        match zeroed(self.alloc, &self.rows, path)? {
            Some(zero) => self.assign(&zero, text, append),
            None => self.assign(path, text, append),
        }
    }

    /// Where the row of a path without steps is, if it is there and no indexed array.
    fn single_name(&self, path: &Path) -> Option<usize>
        ensures place { IfSome result (λ at. Places self.now.0 path.now (Ok at)) }
        ensures name { OnSome result (path.now.steps ≡ []) }
        ensures single { OnSome result (is_indexed (cell_at path.now self.now.0) ≡ false) }
    {
        if !path.steps.is_empty() {
            return None;
        }
        let at = self.rows.place(path).ok()?;
        let cell = self.rows.cell(path, at);
        if is_array(Some(cell)) { None } else { Some(at) }
    }

    /// Assigns to the row there, whose path has no steps.
    fn assign_name(
        &mut self,
        path: &Path,
        at: usize,
        text: &[u8],
        append: bool,
    ) -> Result<(), VarFault>
        requires place { Places self.old.0 path.now (Ok at) }
        requires name { path.now.steps ≡ [] }
        ensures { Changes result self.old self.new (assign_at append self.old path.now text.now) }
    {
        match value_for(self.alloc, self.rows.cell(path, at), text, append) {
            Ok(value) => {
                self.rows.set_value(at, value);
                Ok(())
            }
            Err(fault) => Err(fault),
        }
    }

    fn assign(&mut self, path: &Path, text: &[u8], append: bool) -> Result<(), VarFault>
        ensures { Changes result self.old self.new (assign_at append self.old path.now text.now) }
    {
        let cell = assigned_at(self.alloc, &self.rows, path, text, append)?;
        grow(self.alloc, &mut self.rows, path, cell)?;
        Ok(())
    }

    pub(crate) fn declare_row(
        &mut self,
        path: &Path,
        attrs: Attrs,
        value: Value,
    ) -> Result<(), VarFault>
        ensures { Changes result self.old self.new (declare_of self.old path.now attrs value) }
    {
        let cell = declared(&self.rows, path, attrs, value)?;
        grow(self.alloc, &mut self.rows, path, cell)?;
        Ok(())
    }

    pub(crate) fn unset_row(&mut self, path: &Path) -> Result<(), VarFault>
        ensures { Changes result self.old self.new (unset_of self.old path.now) }
    {
        if self.rows.find_row(path).is_none() {
            return Ok(());
        }
        let locked = locked_below(&self.rows, path);
        if let Some(fault) = change_refused(&self.rows, path, locked) {
            return Err(fault);
        }
        self.rows.remove_below(path);
        Ok(())
    }

    pub(crate) fn hook_row(
        &mut self,
        path: &Path,
        kind: HookKind,
        function: Option<Shared<H>>,
    ) -> Result<(), VarFault>
        ensures { Changes result self.old self.new (hook_of self.old path.now kind function) }
    {
        match function {
            Some(function) => {
                let cell = hooked(self.alloc, &self.rows, path, kind, function)?;
                grow(self.alloc, &mut self.rows, path, cell)?;
                Ok(())
            }
            None => self.unhook_row(path, kind),
        }
    }

    fn unhook_row(&mut self, path: &Path, kind: HookKind) -> Result<(), VarFault>
        ensures { Changes result self.old self.new (hook_of self.old path.now kind None) }
    {
        if let Some(fault) = change_refused_at_end(&self.rows, path) {
            return Err(fault);
        }
        unhook(self.alloc, &mut self.rows, path, kind)?;
        Ok(())
    }
}

impl<H> Cells<H> for VarStore<H> {
    ghost rows = { λ s. s.0 };

    fn cell(&self, path: &Path) -> Option<&Cell<H>> {
        self.get(path)
    }

    fn count(&self) -> usize {
        self.rows.rows().len()
    }
}

/// The path of element 0 where the row is an indexed array, and so on; nothing where it is none.
fn zeroed<H>(alloc: Global, rows: &RowList<H>, path: &Path) -> Result<Option<Path>, Memory>
    ensures { IfOk result (λ p. or_itself p path.now ≡ zeroed rows.now path.now) }
{
    if !is_array(rows.find_row(path)) {
        return Ok(None);
    }
    let mut zero = path.copy(alloc)?;
    let mut left = rows.rows().len();
    while left > 0 && is_array(rows.find_row(&zero)) {
        zero = with_step(zero, Step::Index(0))?;
        left -= 1;
    }
    Ok(Some(zero))
}

fn is_array<H>(cell: Option<&Cell<H>>) -> bool
    ensures { result ≡ is_indexed (option_copied cell.entry) }
{
    match cell {
        Some(cell) => match cell.value {
            Value::Indexed => true,
            _ => false,
        },
        None => false,
    }
}

fn takes_text(value: Option<&Value>) -> bool
    ensures { result ≡ not (takes_no_text (Held value.entry)) }
{
    match value {
        Some(Value::Compound) | Some(Value::Assoc) | Some(Value::Instance(_)) => false,
        _ => true,
    }
}

/// The faults of a row that is to take a text.
fn faults_at(stands: Standing<'_>) -> Faults
    ensures { result ≡ text_faults stands.entry.attrs.readonly (Held stands.entry.value) }
{
    let mut faults = Faults::none();
    faults.read_only = stands.attrs.readonly;
    faults.wrong_kind = !takes_text(stands.value);
    faults
}

/// The value that a text makes of that of a cell.
fn value_for<H>(alloc: Global, cell: &Cell<H>, text: &[u8], append: bool) -> Result<Value, VarFault>
    ensures { Answers result (cell_value append cell.now text.now) }
{
    let stands = Standing::of(cell);
    if let Some(fault) = faults_at(stands).first() {
        return Err(fault);
    }
    match assigned(alloc, append, &stands.attrs, stands.value, text)? {
        Some(value) => Ok(value),
        None => Err(VarFault::WrongKind),
    }
}

/// The cell that a text makes of what stands at a path.
fn assigned_at<H: Drop>(
    alloc: Global,
    rows: &RowList<H>,
    path: &Path,
    text: &[u8],
    append: bool,
) -> Result<Cell<H>, VarFault>
    ensures { Answers result (assign_cell append rows.now path.now text.now) }
{
    let walked = walk(rows, path);
    let stands = walked.standing;
    if let Some(fault) = walked.faults.and(faults_at(stands)).first() {
        return Err(fault);
    }
    match assigned(alloc, append, &stands.attrs, stands.value, text)? {
        Some(value) => Ok(revalued(rows, path, path.steps.len(), stands, value)?),
        None => Err(VarFault::WrongKind),
    }
}
