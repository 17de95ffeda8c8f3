ghost use Rattle.std.specs.Prelude.{◌≡◌, [], ◌∷◌, reverse, MatchOption, MatchResult, Ok, slice_get, true, OnOk, ◌++◌, IsTrue, ◌↔◌};
ghost use Rattle.tree_build.specs.Loads.{below, top};
ghost use Rattle.tree_build.specs.declared.unbuilt.Unbuilt.TheVariants as unbuilt;

use crate::unbuilt::Unbuilt;
use ksh_base::{Items, Memory};
use std::alloc::Global;
use std::marker::Model;

/// A stack. Contracts see what stands on it, the last first.
#[derive(Drop)]
pub(crate) struct Stack<T> {
    items: Items<T>,
    alloc: Global,
}

impl<T> Model for Stack<T> {
    ghost use Rattle.std.specs.Prelude.{List, reverse};
    ghost use Rattle.std.specs.Coded.{coded_list};

    ghost Value = { List T };

    ghost coded = { coded_list T.code };

    ghost view = { λ s. reverse s.items };
}

impl<T: Drop> Stack<T> {
    pub(crate) fn new(alloc: Global) -> Stack<T>
        ensures { result ≡ [] }
    {
        Stack {
            items: Items::new(alloc),
            alloc,
        }
    }

    pub(crate) fn is_empty(&self) -> bool
        ensures { IsTrue result ↔ (self.now ≡ []) }
    {
        self.items.is_empty()
    }

    pub(crate) fn push(&mut self, item: T) -> Result<(), Memory>
        ensures { OnOk result (self.new ≡ item ∷ self.old) }
    {
        self.items.push(item)?;
        Ok(())
    }

    pub(crate) fn pop(&mut self) -> Option<T>
        ensures { MatchOption result ((self.old ≡ []) × (self.new ≡ [])) (λ top. self.old ≡ top ∷ self.new) }
    {
        self.items.pop()
    }
}

impl<T: Drop + Copy> Stack<T> {
    /// What stands so many below the top, if anything does.
    #[tactic(auto, using(crate::proofs::Turned::turned_at, crate::proofs::Turned::nothing_at))]
    pub(crate) fn get(&self, below: usize) -> Option<T>
        ensures { result ≡ slice_get self.now below }
    {
        let count = self.items.len();
        if below < count {
            return self.items.get(count - 1 - below).copied();
        }
        None
    }

    /// Nothing stands on it any more.
    pub(crate) fn clear(&mut self)
        ensures { self.new ≡ [] }
    {
        self.items = Items::new(self.alloc);
    }

    /// Opens a frame whose parts were pushed; where those were not, or it is not, nothing is open any more.
    pub(crate) fn push_after(&mut self, ready: Result<(), Memory>, what: T) -> Result<(), Unbuilt>
        ensures { MatchResult result (λ u. (ready ≡ Ok u) × (self.new ≡ what ∷ self.old)) (λ e. (e ≡ unbuilt.Memory) × (self.new ≡ [])) }
    {
        if ready.is_ok() && self.items.push(what).is_ok() {
            return Ok(());
        }
        self.clear();
        Err(Unbuilt::Memory)
    }

    /// What comes belongs to no tree: nothing is open any more.
    pub(crate) fn stray(&mut self) -> Unbuilt
        ensures { (result ≡ unbuilt.Stray) × (self.new ≡ []) }
    {
        self.clear();
        Unbuilt::Stray
    }

    /// Memory ran out: nothing is open any more.
    pub(crate) fn lost(&mut self) -> Unbuilt
        ensures { (result ≡ unbuilt.Memory) × (self.new ≡ []) }
    {
        self.clear();
        Unbuilt::Memory
    }
}

impl<T: Drop> Stack<Items<T>> {
    /// Puts an item behind those of the list on top.
    pub(crate) fn add(&mut self, item: T) -> Result<(), Memory>
        ensures { OnOk result (self.new ≡ (top [] self.old ++ item ∷ []) ∷ below self.old) }
    {
        let mut items = match self.items.pop() {
            Some(items) => items,
            None => Items::new(self.alloc),
        };
        items.push(item)?;
        self.items.push(items)?;
        Ok(())
    }

    /// Whether the list on top has no items, or there is none.
    #[tactic(auto, using(crate::proofs::Turned::turned_top, crate::proofs::Turned::turned_none))]
    pub(crate) fn ends_empty(&self) -> bool
        ensures { IsTrue result ↔ (top [] self.now ≡ []) }
    {
        let count = self.items.len();
        if count == 0 {
            return true;
        }
        match self.items.get(count - 1) {
            Some(items) => items.is_empty(),
            None => true,
        }
    }
}
