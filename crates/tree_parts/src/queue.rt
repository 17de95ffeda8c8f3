ghost use Rattle.std.specs.Prelude.{◌≡◌, [], ◌∷◌, reverse, IfOk, MatchOption};

use ksh_base::{Items, Memory};
use std::alloc::Global;
use std::marker::Model;

/// Items that are taken from the front.
#[derive(Drop)]
pub(crate) struct Queue<T> {
    turned: Items<T>,
}

impl<T> Model for Queue<T> {
    ghost use Rattle.std.specs.Prelude.{List, reverse};
    ghost use Rattle.std.specs.Coded.{coded_list};

    ghost Value = { List T };

    ghost coded = { coded_list T.code };

    ghost view = { λ q. reverse q.turned };
}

impl<T: Drop> Queue<T> {
    pub(crate) fn of(alloc: Global, items: Items<T>) -> Result<Queue<T>, Memory>
        ensures { IfOk result (λ q. q ≡ items) }
    {
        let turned = turned(alloc, items)?;
        Ok(Queue { turned })
    }

    #[tactic(auto, using(crate::proofs::Turning::taken))]
    pub(crate) fn next(&mut self) -> Option<T>
        ensures { MatchOption result ((self.old ≡ []) × (self.new ≡ [])) (λ first. self.old ≡ first ∷ self.new) }
    {
        self.turned.pop()
    }
}

/// The items, the last first.
#[tactic(auto, using(crate::proofs::Turning::turned_on))]
fn turned<T: Drop>(alloc: Global, items: Items<T>) -> Result<Items<T>, Memory>
    ensures { IfOk result (λ t. t ≡ reverse items) }
{
    let mut left = items;
    let mut turned = Items::new(alloc);
    while let Some(last) = left.pop() {
        turned.push(last)?;
    }
    Ok(turned)
}
