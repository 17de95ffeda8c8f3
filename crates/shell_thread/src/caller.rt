// A spawner that runs each job at once.
ghost use Rattle.std.specs.Prelude.{◌≡◌, false};

use crate::spawner::{Spawner, Way};
use ksh_base::Memory;
use std::alloc::Global;
use std::thread::Threads;

/// Runs each job to its end in `start`, and never gives up on one.
#[derive(Drop)]
pub struct CallerSpawner<R: Threads + Copy> {
    rt: R,
}

impl<R: Threads + Copy> CallerSpawner<R> {
    pub fn new(rt: R) -> Self
        ensures { result.rt ≡ rt }
    {
        CallerSpawner { rt }
    }
}

impl<R: Threads + Copy + Send> Spawner for CallerSpawner<R> {
    type Rt = R;

    ghost faults = { λ _. 0 };

    ghost spare = { λ _. 1 };

    ghost threads = { λ _. false };

    fn way(&mut self) -> Way {
        Way::Here
    }

    fn miss(&mut self) {}

    fn rt(&self) -> R {
        self.rt
    }

    fn split(&self) -> Self {
        CallerSpawner { rt: self.rt }
    }

    fn room(&mut self, _alloc: Global) -> Result<(), Memory> {
        Ok(())
    }
}
