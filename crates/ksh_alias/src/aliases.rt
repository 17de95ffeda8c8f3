ghost use Rattle.std.specs.Prelude.{◌≡◌, ◌↔◌, [], IfOk, OnOk, OnErr, IsTrue, IsSome, IsNone, slice_get};
ghost use Rattle.std.specs.Option.{option_copied, option_map};
ghost use Rattle.std.specs.Map.Iter.{deref_pair};
ghost use Rattle.ksh_alias.specs.Rows.{presets, value_of, with_value, without};

use indexmap::IndexMap;
use ksh_base::{Memory, Text};
use std::alloc::Global;
use std::marker::Model;

/// The aliases of a shell. Contracts see them as rows of a name and its value, in order of insertion.
#[derive(Drop)]
pub struct AliasTable {
    rows: IndexMap<Text, Text>,
    alloc: Global,
}

impl Model for AliasTable {
    ghost use Rattle.std.specs.Prelude.{ℕ, List};

    ghost Value = { List (List ℕ × List ℕ) };

    ghost use Rattle.ksh_alias.specs.Rows.{IsEachOnce};

    ghost view = { λ t. t.rows.entries };

    ghost invariant = { λ t. IsEachOnce t.rows.entries };
}

impl AliasTable {
    /// The aliases that are there when a shell begins.
    pub fn preset(alloc: Global) -> Result<AliasTable, Memory>
        ensures { IfOk result (λ t. t ≡ presets) }
    {
        let mut table = AliasTable::empty(alloc);
        table.add(b"integer", b"typeset -i")?;
        table.add(b"nameref", b"typeset -n")?;
        table.add(b"compound", b"typeset -C")?;
        table.add(b"functions", b"typeset -f")?;
        table.add(b"type", b"whence -v")?;
        table.add(b"source", b"command .")?;
        table.add(b"redirect", b"command exec")?;
        Ok(table)
    }

    /// No aliases. Takes no memory.
    pub fn empty(alloc: Global) -> AliasTable
        ensures { result ≡ [] }
    {
        AliasTable {
            rows: IndexMap::new(alloc),
            alloc,
        }
    }

    fn add(&mut self, name: &[u8], value: &[u8]) -> Result<(), Memory>
        ensures { OnOk result (self.new ≡ with_value name.now value.now self.old) }
    {
        let name = Text::of(self.alloc, name)?;
        let value = Text::of(self.alloc, value)?;
        self.set(name, value)
    }

    /// Gives an alias a value. One that is there keeps its place, and a new one goes last.
    pub fn set(&mut self, name: Text, value: Text) -> Result<(), Memory>
        ensures ok { OnOk result (self.new ≡ with_value name value self.old) }
        ensures err { OnErr result (self.new ≡ self.old) }
    {
        self.rows.insert(name, value)?;
        Ok(())
    }

    /// Takes an alias away. Says whether it was there. Takes no memory.
    pub fn unset(&mut self, name: &Text) -> bool
        ensures there { IsTrue result ↔ IsSome (value_of name.now self.old) }
        ensures gone { self.new ≡ without name.now self.old }
    {
        self.rows.shift_remove(name).is_some()
    }

    /// The value of an alias.
    pub fn find(&self, name: &Text) -> Option<&Text>
        ensures { option_copied result ≡ value_of name.now self.now }
    {
        self.rows.get(name)
    }

    /// The name and the value of the alias at a place, counted from 0 in order of insertion; nothing past the last.
    pub fn at(&self, place: usize) -> Option<(&Text, &Text)>
        ensures { option_map deref_pair result ≡ slice_get self.now place }
    {
        self.rows.get_index(place)
    }

    /// A copy of each row.
    pub fn fork(&self) -> Result<AliasTable, Memory>
        ensures { IfOk result (λ t. t ≡ self.now) }
    {
        let mut copy = AliasTable::empty(self.alloc);
        for (name, value) in &self.rows {
            copy.set(name.copy(self.alloc)?, value.copy(self.alloc)?)?;
        }
        Ok(copy)
    }
}
