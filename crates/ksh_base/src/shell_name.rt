ghost use Rattle.std.specs.Prelude.{◌≡◌, ◌<◌, ◌-◌, [], ◌∷◌, ◌++◌, length, slice_set, IfOk};
ghost use Rattle.std.proofs.Common.{rules};
ghost use Rattle.std.specs.Cmp.{partial_order_from_own_ties};
ghost use Rattle.std.specs.Cmp.Rules.{comparing};
ghost use Rattle.std.specs.Ordering.{nat_cmp, as_partial_cmp};
ghost use Rattle.std.specs.Cmp.Lexicographic.{slice_cmp};
ghost use Rattle.ksh_base.specs.Text.{same_numbers};

use crate::memory::Memory;
use std::alloc::Global;
use std::cmp::Ordering;
use std::marker::Model;

/// The name of a shell: the number of each fork on the way to it. The root's is empty, and the
/// fork `k` of the shell `s` is `s` followed by `k`.
#[derive(Debug, Drop)]
pub struct ShellName {
    forks: Vec<u32>,
}

impl Model for ShellName {
    ghost use Rattle.std.specs.Prelude.{ℕ, List};

    ghost Value = { List ℕ };

    ghost view = { λ n. n.forks.items };
}

impl ShellName {
    /// The root's name. Takes no memory.
    pub fn root(alloc: Global) -> ShellName
        ensures { result ≡ [] }
    {
        ShellName {
            forks: Vec::new(alloc),
        }
    }

    /// The name of the fork of that number.
    pub fn child(&self, alloc: Global, number: u32) -> Result<ShellName, Memory>
        ensures { IfOk result (λ n. n ≡ self.now ++ number ∷ []) }
    {
        let mut forks = Vec::from_slice(alloc, self.forks.as_slice())?;
        forks.push(number)?;
        Ok(ShellName { forks })
    }

    /// Puts another number in the place of the last. Takes no memory.
    pub fn set_last(&mut self, number: u32)
        requires { 0 < length self.old }
        ensures { self.new ≡ slice_set self.old (length self.old - 1) number }
    {
        let at = self.forks.len() - 1;
        self.forks[at] = number;
    }

    pub fn copy(&self, alloc: Global) -> Result<ShellName, Memory>
        ensures { IfOk result (λ n. n ≡ self.now) }
    {
        let forks = Vec::from_slice(alloc, self.forks.as_slice())?;
        Ok(ShellName { forks })
    }

    /// The numbers of the forks, the root's first.
    pub fn forks(&self) -> &[u32]
        ensures { result.now ≡ self.now }
    {
        self.forks.as_slice()
    }
}

impl PartialEq for ShellName {
    ghost eq = { same_numbers };

    ghost laws = { Prim.search (comparing, rules) };

    fn eq(&self, other: &ShellName) -> bool {
        self.forks.as_slice() == other.forks.as_slice()
    }
}

impl Eq for ShellName {
    ghost laws = { Prim.search (comparing, rules) };
}

impl Ord for ShellName {
    ghost cmp = { slice_cmp nat_cmp };

    ghost total = { Prim.search (comparing, rules) };

    ghost matches_partial_cmp = { Prim.search (comparing, rules) };

    ghost matches_eq = { Prim.search (comparing, rules) };

    fn cmp(&self, other: &ShellName) -> Ordering {
        self.forks.as_slice().cmp(other.forks.as_slice())
    }
}

impl PartialOrd for ShellName {
    ghost partial_cmp = { as_partial_cmp (slice_cmp nat_cmp) };

    ghost laws = { partial_order_from_own_ties (Prim.search (comparing, rules)) (Prim.search (comparing, rules)) };

    fn partial_cmp(&self, other: &ShellName) -> Option<Ordering> {
        Some(self.cmp(other))
    }
}
