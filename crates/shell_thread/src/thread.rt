// A spawner that starts threads.
ghost use Rattle.std.specs.Prelude.{◌≡◌, ◌<◌, true};
ghost use Rattle.shell_thread.specs.Room.{flags_of};
ghost use Rattle.shell_thread.specs.Ways.{FitsWay, IsThread};

use crate::spawner::{Flag, Spawner, Way};
use ksh_base::Memory;
use std::alloc::Global;
use std::thread::Threads;

/// Starts a thread for each job. Where the system has none, that is counted and the job is not
/// run.
#[derive(Drop)]
pub struct ThreadSpawner<R: Threads + Copy> {
    rt: R,
    faults: u64,
    flag: Option<Flag>,
}

impl<R: Threads + Copy> ThreadSpawner<R> {
    pub fn new(rt: R) -> Self
        ensures { result.faults ≡ 0 }
    {
        ThreadSpawner {
            rt,
            faults: 0,
            flag: None,
        }
    }
}

impl<R: Threads + Copy + Send> Spawner for ThreadSpawner<R> {
    type Rt = R;

    ghost faults = { λ s. s.faults };

    ghost spare = { λ s. flags_of s.flag };

    ghost threads = { λ _. true };

    fn way(&mut self) -> Way
        requires room { 0 < flags_of self.old.flag }
        ensures cause { FitsWay self.old.faults self.new.faults true result }
        ensures same { true ≡ true }
        ensures thread { IsThread result }
    {
        match self.flag.take() {
            Some(flag) => Way::Thread(flag),
            None => unreachable!(),
        }
    }

    fn miss(&mut self) {
        self.faults = self.faults.saturating_add(1);
    }

    fn rt(&self) -> R {
        self.rt
    }

    fn split(&self) -> Self {
        ThreadSpawner::new(self.rt)
    }

    fn room(&mut self, alloc: Global) -> Result<(), Memory> {
        if self.flag.is_none() {
            self.flag = Some(Flag::new(alloc)?);
        }
        Ok(())
    }
}
