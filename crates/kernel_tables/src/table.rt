ghost use Rattle.std.specs.Prelude.{◌≡◌, List, [], ◌∷◌, length, is_some, IfOk, OnOk, OnErr, MatchOption};
ghost use Rattle.std.specs.Borrow.{sem};
ghost use Rattle.std.specs.Option.{option_copied, option_copied_mut};
ghost use Rattle.std.specs.BTreeMap.{insert_entry, is_at};
ghost use Rattle.std.specs.Map.{lookup, set_value, remove_entry};
ghost use Rattle.kernel_tables.specs.Lent.{lends_value};

use ksh_base::Memory;
use std::alloc::Global;
use std::collections::BTreeMap;
use std::collections::btree_map::Iter;
use std::marker::Model;

/// Rows of a key and its value. Contracts see the list of the rows, in the order of the keys.
/// Each call costs at most the logarithm of the rows, in comparisons of keys.
#[derive(Drop)]
pub struct Table<K: Ord, V> {
    rows: BTreeMap<K, V, Global>,
}

impl<K: Ord, V> Model for Table<K, V> {
    ghost use Rattle.std.specs.Prelude.{List};
    ghost use Rattle.std.specs.Coded.{coded_list, coded×};

    ghost Value = { List (K × V) };

    ghost coded = { coded_list (coded× K.code V.code) };

    ghost view = { λ t. t.rows.entries };
}

impl<K: Ord, V> Table<K, V> {
    /// No rows. Takes no memory.
    pub fn new(alloc: Global) -> Table<K, V>
        ensures { result ≡ [] }
    {
        Table {
            rows: BTreeMap::new(alloc),
        }
    }

    pub fn len(&self) -> usize
        ensures { result ≡ length self.now }
    {
        self.rows.len()
    }

    pub fn has(&self, key: &K) -> bool
        ensures { result ≡ is_some (lookup (is_at (K.cmp key.now)) self.now) }
    {
        self.rows.contains_key(key)
    }

    pub fn get(&self, key: &K) -> Option<&V>
        ensures { option_copied result ≡ lookup (is_at (K.cmp key.now)) self.now }
    {
        self.rows.get(key)
    }

    /// The rows, in the order of their keys.
    pub fn iter(&self) -> Iter<'_, K, V>
        ensures { result ≡ self.now }
    {
        self.rows.iter()
    }

    pub fn get_mut(&mut self, key: &K) -> Option<&mut V>
        ensures* writes_back { sem 𝓛 (lends_value K.row V.row K.Ord self.entry (K.cmp key.now) result) }
        ensures value { option_copied_mut result ≡ lookup (is_at (K.cmp key.now)) self.old }
    {
        self.rows.get_mut(key)
    }
}

impl<K: Ord + Drop, V: Drop> Table<K, V> {
    /// Gives a key a value, and answers the value that it had. A key that is there keeps its row.
    pub fn put(&mut self, key: K, value: V) -> Result<Option<V>, Memory>
        ensures had { IfOk result (λ had. had ≡ lookup (is_at (K.cmp key)) self.old) }
        ensures ok { OnOk result (self.new ≡ insert_entry K.cmp self.old key value) }
        ensures err { OnErr result (self.new ≡ self.old) }
    {
        let had = self.rows.insert(key, value)?;
        Ok(had)
    }

    /// Takes back a `put` that has just been made, given what it answered.
    pub fn undo_put(&mut self, key: &K, had: Option<V>)
        ensures { (rows : List (K × V)) (value : V) → self.old ≡ insert_entry K.cmp rows key.now value → had ≡ lookup (is_at (K.cmp key.now)) rows → self.new ≡ rows }
    {
        match had {
            None => drop(self.rows.remove(key)),
            Some(value) => {
                if let Some(row) = self.rows.get_mut(key) {
                    *row = value;
                }
            }
        }
    }

    /// Takes a row out.
    pub fn remove(&mut self, key: &K) -> Option<V>
        ensures value { result ≡ lookup (is_at (K.cmp key.now)) self.old }
        ensures rest { self.new ≡ remove_entry (is_at (K.cmp key.now)) self.old }
    {
        self.rows.remove(key)
    }

    /// Takes the first row out.
    pub fn pop_first(&mut self) -> Option<(K, V)>
        ensures { MatchOption result ((self.old ≡ []) × (self.new ≡ [])) (λ row. self.old ≡ row ∷ self.new) }
    {
        self.rows.pop_first()
    }
}
