//! A store, and the calls on it.
ghost use Rattle.std.specs.Prelude.{◌≡◌, ◌<◌};

use crate::reading::{attributes, cut, hook_kind, path, value};
use crate::telling::{
    add_attributes, add_number, add_path, add_steps, cell_text, done, names, refused, texts,
    unresolved,
};
use anyhow::Result;
use ksh_attrs::{joined, show, with_widths};
use ksh_base::{Shared, Text};
use ksh_nameref::resolve;
use std::alloc::Global;
use std::sync::ledger::{Blank, Ledger};
use tree_steps::Steps;
use var_store::{VarFault, VarStore};
use var_types::{Attrs, Cells, Path, Value};

/// A store, one that was kept aside, and the count of steps.
#[derive(Drop)]
pub struct Session<L: Ledger> {
    store: VarStore<u8>,
    kept: VarStore<u8>,
    steps: Steps<L>,
}

impl<L: Ledger> Session<L> {
    /// No rows.
    pub fn open(alloc: Global, blank: Blank) -> Result<Session<L>>
        requires name { blank.name ≡ L.name }
        requires parts { blank.parts ≡ L.parts }
        requires some { 0 < L.parts }
    {
        Ok(Session {
            store: VarStore::new(alloc)?,
            kept: VarStore::new(alloc)?,
            steps: Steps::open(blank),
        })
    }

    /// Makes the call of a line.
    pub fn call(&mut self, alloc: Global, line: &str) -> Result<Text> {
        let (verb, rest) = cut(line, ' ');
        match verb {
            "new" | "fork" | "back" | "push" | "pop" => self.change_all(alloc, verb),
            "scope" | "count" | "names" | "join" => self.tell_all(alloc, verb, rest),
            "get" | "show" | "subscripts" | "members" | "resolve" => {
                self.tell(alloc, verb, &path(alloc, rest)?)
            }
            _ => {
                let (word, rest) = cut(rest, ' ');
                let row = path(alloc, word)?;
                let result = self.change(alloc, verb, &row, rest)?;
                done(alloc, result)
            }
        }
    }

    /// Calls that name no row, and change the store.
    fn change_all(&mut self, alloc: Global, verb: &str) -> Result<Text> {
        match verb {
            "new" => self.store = VarStore::new(alloc)?,
            "fork" => self.kept = self.store.fork()?,
            "back" => self.store = self.kept.fork()?,
            "push" => return self.push(alloc),
            _ => {
                if self.store.scope() > 0 {
                    return done(alloc, self.store.pop_scope(&mut self.steps));
                }
            }
        }
        Ok(Text::of(alloc, b"ok")?)
    }

    fn push(&mut self, alloc: Global) -> Result<Text> {
        let mut out = Text::empty(alloc);
        if self.store.scope() < 16_383 {
            add_number(alloc, &mut out, i64::from(self.store.push_scope()))?;
        }
        Ok(out)
    }

    /// Calls that name no row, and change nothing.
    fn tell_all(&self, alloc: Global, verb: &str, rest: &str) -> Result<Text> {
        let mut out = Text::empty(alloc);
        match verb {
            "scope" => add_number(alloc, &mut out, i64::from(self.store.scope()))?,
            "count" => {
                let count = i64::try_from(self.store.count()).unwrap_or(i64::MAX);
                add_number(alloc, &mut out, count)?;
            }
            "names" => {
                let scope = rest.parse::<u32>().unwrap_or(0);
                return names(alloc, self.store.names(scope)?.as_slice());
            }
            _ => {
                let (before, given) = cut(rest, ' ');
                let attrs = joined(&attributes(before), &attributes(given));
                add_attributes(alloc, &mut out, &attrs)?;
            }
        }
        Ok(out)
    }

    /// Calls that look at a row.
    fn tell(&self, alloc: Global, verb: &str, row: &Path) -> Result<Text> {
        match verb {
            "get" => cell_text(alloc, self.store.get(row)),
            "show" => self.shown(alloc, row),
            "subscripts" => match self.store.subscripts(row) {
                Ok(found) => texts(alloc, found.as_slice()),
                Err(fault) => refused(alloc, fault),
            },
            "members" => match self.store.members(row) {
                Ok(found) => names(alloc, found.as_slice()),
                Err(fault) => refused(alloc, fault),
            },
            _ => self.resolved(alloc, row),
        }
    }

    fn shown(&self, alloc: Global, row: &Path) -> Result<Text> {
        match self.store.get(row) {
            Some(cell) => Ok(show(alloc, &cell.value, &cell.attrs)?),
            None => Ok(Text::empty(alloc)),
        }
    }

    fn resolved(&self, alloc: Global, row: &Path) -> Result<Text> {
        match resolve(alloc, &self.store, row) {
            Ok(found) => {
                let mut out = Text::empty(alloc);
                add_path(alloc, &mut out, found.base)?;
                add_steps(alloc, &mut out, found.rest)?;
                Ok(out)
            }
            Err(fault) => unresolved(alloc, fault),
        }
    }

    /// Calls that change a row.
    fn change(
        &mut self,
        alloc: Global,
        verb: &str,
        row: &Path,
        rest: &str,
    ) -> Result<Result<(), VarFault>> {
        Ok(match verb {
            "put" => self.store.put(row, rest.as_bytes(), &mut self.steps),
            "append" => self.store.append(row, rest.as_bytes(), &mut self.steps),
            "unset" => self.store.unset(row, &mut self.steps),
            "hook" => {
                let (kind, number) = cut(rest, ' ');
                let function = Shared::new(alloc, number.parse::<u8>().unwrap_or(0))?;
                self.store
                    .hook(row, hook_kind(kind), Some(function), &mut self.steps)
            }
            "unhook" => self.store.hook(row, hook_kind(rest), None, &mut self.steps),
            "typeset" => self.typeset(alloc, row, rest)?,
            _ => {
                let (word, held) = cut(rest, ' ');
                let held = value(alloc, held)?;
                self.store
                    .declare(row, attributes(word), held, &mut self.steps)
            }
        })
    }

    /// Declares a row with further attributes, and puts its text again.
    fn typeset(&mut self, alloc: Global, row: &Path, words: &str) -> Result<Result<(), VarFault>> {
        let text = self.shown(alloc, row)?;
        let before = match self.store.get(row) {
            Some(cell) => cell.attrs,
            None => Attrs::none(),
        };
        let attrs = with_widths(&joined(&before, &attributes(words)), text.bytes());
        let declared = self
            .store
            .declare(row, attrs, Value::Unset, &mut self.steps);
        match declared {
            Ok(()) => Ok(self.store.put(row, text.bytes(), &mut self.steps)),
            Err(fault) => Ok(Err(fault)),
        }
    }
}
