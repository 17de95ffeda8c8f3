ghost use Rattle.std.specs.Prelude.{◌≡◌, IfOk};
ghost use Rattle.std.proofs.Common.{rules};
ghost use Rattle.std.specs.Cmp.{partial_order_from_total};
ghost use Rattle.std.specs.Cmp.Rules.{comparing};
ghost use Rattle.std.specs.Ordering.{as_partial_cmp};
ghost use Rattle.var_types.specs.Order.{step_cmp, step_eq, path_cmp, path_eq, is_front};
ghost use Rattle.var_types.specs.Totals.{step_total, path_total};

use ksh_base::{Items, Memory, Name, Text};
use std::alloc::Global;
use std::cmp::Ordering;

/// One step below a name or another step: a subscript, which is an index or a key, or a member.
#[derive(Debug, Drop)]
pub enum Step {
    Index(u32),
    Key(Text),
    Member(Name),
}

impl Step {
    pub fn copy(&self, alloc: Global) -> Result<Step, Memory>
        ensures { IfOk result (λ s. s ≡ self.now) }
    {
        match self {
            Step::Index(number) => Ok(Step::Index(*number)),
            Step::Key(text) => Ok(Step::Key(text.copy(alloc)?)),
            Step::Member(name) => Ok(Step::Member(name.copy(alloc)?)),
        }
    }
}

impl PartialEq for Step {
    ghost eq = { step_eq };

    ghost laws = { Prim.search (comparing, rules, step_total) };

    fn eq(&self, other: &Step) -> bool {
        self.cmp(other) == Ordering::Equal
    }
}

impl Eq for Step {
    ghost laws = { Prim.search (comparing, rules, step_total) };
}

impl Ord for Step {
    ghost cmp = { step_cmp };

    ghost total = { step_total };

    ghost matches_partial_cmp = { Prim.search (comparing, rules) };

    ghost matches_eq = { Prim.search (comparing, rules) };

    fn cmp(&self, other: &Step) -> Ordering {
        match (self, other) {
            (Step::Index(m), Step::Index(n)) => m.cmp(n),
            (Step::Index(_), _) => Ordering::Less,
            (Step::Key(_), Step::Index(_)) => Ordering::Greater,
            (Step::Key(r), Step::Key(s)) => r.cmp(s),
            (Step::Key(_), Step::Member(_)) => Ordering::Less,
            (Step::Member(r), Step::Member(s)) => r.cmp(s),
            (Step::Member(_), _) => Ordering::Greater,
        }
    }
}

impl PartialOrd for Step {
    ghost partial_cmp = { as_partial_cmp step_cmp };

    ghost laws = { partial_order_from_total step_total };

    fn partial_cmp(&self, other: &Step) -> Option<Ordering> {
        Some(self.cmp(other))
    }
}

/// Where a variable's row is: the number of its scope, its name, and the steps below it.
#[derive(Debug, Drop)]
pub struct Path {
    pub scope: u32,
    pub name: Name,
    pub steps: Items<Step>,
}

impl Path {
    pub fn copy(&self, alloc: Global) -> Result<Path, Memory>
        ensures { IfOk result (λ p. p ≡ self.now) }
    {
        let name = self.name.copy(alloc)?;
        let steps = copy_steps(alloc, self.steps.as_slice())?;
        Ok(Path {
            scope: self.scope,
            name,
            steps,
        })
    }
}

/// A copy of each step.
pub fn copy_steps(alloc: Global, steps: &[Step]) -> Result<Items<Step>, Memory>
    ensures { IfOk result (λ copies. copies ≡ steps.now) }
{
    let mut copies = Items::new(alloc);
    for step in steps {
        copies.push(step.copy(alloc)?)?;
    }
    Ok(copies)
}

impl PartialEq for Path {
    ghost eq = { path_eq };

    ghost laws = { Prim.search (comparing, rules, path_total) };

    fn eq(&self, other: &Path) -> bool {
        self.cmp(other) == Ordering::Equal
    }
}

impl Eq for Path {
    ghost laws = { Prim.search (comparing, rules, path_total) };
}

impl Ord for Path {
    ghost cmp = { path_cmp };

    ghost total = { path_total };

    ghost matches_partial_cmp = { Prim.search (comparing, rules) };

    ghost matches_eq = { Prim.search (comparing, rules) };

    fn cmp(&self, other: &Path) -> Ordering {
        match self.scope.cmp(&other.scope) {
            Ordering::Equal => {}
            unequal => return unequal,
        }
        match self.name.cmp(&other.name) {
            Ordering::Equal => {}
            unequal => return unequal,
        }
        self.steps.as_slice().cmp(other.steps.as_slice())
    }
}

impl PartialOrd for Path {
    ghost partial_cmp = { as_partial_cmp path_cmp };

    ghost laws = { partial_order_from_total path_total };

    fn partial_cmp(&self, other: &Path) -> Option<Ordering> {
        Some(self.cmp(other))
    }
}

/// Whether `path` is `front` or goes on from it by further steps.
pub fn is_prefix(front: &Path, path: &Path) -> bool
    ensures { result ≡ is_front front.now path.now }
{
    front.scope == path.scope
        && front.name == path.name
        && path.steps.as_slice().starts_with(front.steps.as_slice())
}
