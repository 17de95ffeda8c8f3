// A spawner that refuses the starts of a list.
ghost use Rattle.std.specs.Prelude.{◌≡◌, ◌+◌, false, min};
ghost use Rattle.shell_thread.specs.Ways.{FitsWay, FitsList};

use crate::spawner::{Spawner, Way};
use ksh_base::Memory;
use std::alloc::Global;
use std::thread::Threads;

/// Runs each job in `start`, but for those whose places among the starts of this spawner, counted
/// from 0, are listed. The place of a start past 4,294,967,295 others counts as that number.
#[derive(Drop)]
pub struct FewSpawner<R: Threads + Copy> {
    rt: R,
    refused: Vec<u32>,
    next: u32,
    faults: u64,
}

impl<R: Threads + Copy> FewSpawner<R> {
    pub fn new(rt: R, refused: Vec<u32>) -> Self
        ensures refused { result.refused ≡ refused }
        ensures next { result.next ≡ 0 }
        ensures faults { result.faults ≡ 0 }
    {
        FewSpawner {
            rt,
            refused,
            next: 0,
            faults: 0,
        }
    }
}

impl<R: Threads + Copy + Send> Spawner for FewSpawner<R> {
    type Rt = R;

    ghost faults = { λ s. s.faults };

    ghost spare = { λ _. 1 };

    ghost threads = { λ _. false };

    fn way(&mut self) -> Way
        ensures cause { FitsWay self.old.faults self.new.faults false result }
        ensures same { false ≡ false }
        ensures listed { FitsList self.old.refused.items self.old.next result }
        ensures next { self.new.next ≡ min (self.old.next + 1) 4294967295 }
        ensures list { self.new.refused ≡ self.old.refused }
    {
        let place = self.next;
        self.next = self.next.saturating_add(1);
        if self.refused.contains(&place) {
            self.faults = self.faults.saturating_add(1);
            return Way::Refused;
        }
        Way::Here
    }

    fn miss(&mut self) {}

    fn rt(&self) -> R {
        self.rt
    }

    fn split(&self) -> Self {
        FewSpawner::new(self.rt, Vec::new(*self.refused.allocator()))
    }

    fn room(&mut self, _alloc: Global) -> Result<(), Memory> {
        Ok(())
    }
}
