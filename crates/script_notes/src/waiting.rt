ghost use Rattle.std.specs.Prelude.{◌≡◌, [], ◌∷◌, ◌++◌, MatchOption, OnOk};

use ksh_base::{Items, Memory};
use std::alloc::Global;
use std::marker::Model;

/// Numbers of which the first one is taken first.
#[derive(Drop)]
pub struct Waiting {
    numbers: Items<usize>,
    taken: usize,
}

impl Model for Waiting {
    ghost use Rattle.std.specs.Prelude.{ℕ, List, ◌≤◌, length, drop};

    ghost Value = { List ℕ };

    ghost view = { λ w. drop w.taken w.numbers };

    ghost invariant = { λ w. w.taken ≤ length w.numbers };
}

impl Waiting {
    pub(crate) fn new(alloc: Global) -> Waiting
        ensures { result ≡ [] }
    {
        Waiting {
            numbers: Items::new(alloc),
            taken: 0,
        }
    }

    pub(crate) fn push(&mut self, number: usize) -> Result<(), Memory>
        ensures { OnOk result (self.new ≡ self.old ++ number ∷ []) }
    {
        self.numbers.push(number)?;
        Ok(())
    }

    pub(crate) fn next(&mut self) -> Option<usize>
        ensures { MatchOption result ((self.old ≡ []) × (self.new ≡ [])) (λ first. self.old ≡ first ∷ self.new) }
    {
        if self.taken >= self.numbers.len() {
            return None;
        }
        let first = self.numbers.as_slice()[self.taken];
        self.taken += 1;
        Some(first)
    }
}
