// What starts a job.
ghost use Rattle.std.specs.Prelude.{◌≡◌, ◌<◌, ◌≤◌, ℕ, Bool, true, false, IfOk, IfErr, OnOk};
ghost use Rattle.kernel_ask.specs.Causes.{HasCause, RoseBy};
ghost use Rattle.shell_thread.specs.Ways.{FitsWay};

use crate::handled::Handled;
use ksh_base::Memory;
use std::alloc::Global;
use std::snapshot::Snapshot;
use std::sync::Arc;
use std::sync::atomic::{AtomicBool, Ordering};
use std::thread::{Builder, Promise, Threads};

/// The bytes of the stack of each thread that runs a job: 8 MiB.
pub const STACK_SIZE: usize = 8 * 1024 * 1024;

/// Both ends of the flag that says whether a job is to run.
#[derive(Drop)]
pub struct Flag {
    ours: Arc<AtomicBool, Global>,
    theirs: Arc<AtomicBool, Global>,
}

impl Flag {
    /// Both ends are of one flag.
    pub fn new(alloc: Global) -> Result<Flag, Memory>
        ensures { IfOk result (λ flag. flag.ours.value ≡ flag.theirs.value) }
    {
        let ours = Arc::new(alloc, AtomicBool::new(true))?;
        let theirs = Arc::try_clone(&ours)?;
        Ok(Flag { ours, theirs })
    }
}

/// What becomes of a start.
#[derive(Drop)]
pub enum Way {
    /// The job runs at once, in the thread that starts it.
    Here,
    /// The job runs in a thread of its own.
    Thread(Flag),
    /// The job is not to run.
    Refused,
}

/// Starts jobs, or gives up on them.
pub trait Spawner: Sized + Send + Drop {
    type Rt: Threads + Copy + Send;

    /// How often a job couldn't be started, a number that never falls.
    ghost faults: { Self → ℕ };

    /// The starts for which there is room.
    ghost spare: { Self → ℕ };

    /// Whether it asks the system for threads. No call changes it.
    ghost threads: { Self → Bool };

    /// Picks what becomes of the next start.
    fn way(&mut self) -> Way
        requires room { 0 < spare self.old }
        ensures cause { FitsWay (faults self.old) (faults self.new) (threads self.old) result }
        ensures same { threads self.new ≡ threads self.old };

    /// Counts a thread that wasn't had, where threads are asked for.
    fn miss(&mut self)
        ensures rose { threads self.old ≡ true → RoseBy 1 (faults self.old) (faults self.new) }
        ensures later { faults self.old ≤ faults self.new }
        ensures same { threads self.new ≡ threads self.old };

    /// Its handle of the system's threads.
    fn rt(&self) -> Self::Rt;

    /// A spawner of the same kind, for a shell that is started.
    fn split(&self) -> Self
        ensures faults { faults result ≡ 0 }
        ensures same { threads result ≡ threads self.now };

    /// Makes room for one start.
    fn room(&mut self, alloc: Global) -> Result<(), Memory>
        ensures room { OnOk result (0 < spare self.new) }
        ensures faults { faults self.new ≡ faults self.old }
        ensures same { threads self.new ≡ threads self.old };

    /// Calls `work(true)`, in a thread of its own or here, or answers `Err` of what `work(false)`
    /// gave. Where the system had no thread, no clause says that `work` was called with false: it
    /// is told by a flag that it shares with the thread that was asked for.
    final fn start<
        T: Send + Drop + 'static,
        K: Promise<T> + Drop,
        F: FnOnce(bool) -> T + Send + 'static,
    >(&mut self, promise: K, work: F) -> Result<Handled<T, K, Self::Rt>, T>
        requires room { 0 < Self.spare self.old }
        requires runs { (b : Bool) → F.pre work b }
        requires keeps { (b : Bool) (r : T) → F.post work b r → K.kept_by promise r }
        ensures ok { IfOk result (λ h. h ≡ promise) }
        ensures err { IfErr result (λ r. K.kept_by promise r) }
        ensures gave { IfErr result (λ r. Self.threads self.old ≡ false → F.post work false r) }
        ensures cause { HasCause (Self.faults self.old) (Self.faults self.new) result }
        ensures same { Self.threads self.new ≡ Self.threads self.old }
    {
        let rt = self.rt();
        match self.way() {
            Way::Here => {
                let promised = Snapshot::of(&promise);
                drop(promise);
                Ok(Handled::of_answer(rt, work(true), promised))
            }
            Way::Refused => Err(work(false)),
            Way::Thread(Flag { ours, theirs }) => {
                let job = move || -> T
                    requires { (b : Bool) → F.pre work b }
                { work(theirs.load(Ordering::SeqCst)) };
                let thread = Builder::new().stack_size(STACK_SIZE);
                match thread.spawn_with(&rt, promise, job) {
                    Ok(handle) => Ok(Handled::of_thread(rt, handle)),
                    Err(refused) => {
                        self.miss();
                        ours.store(false, Ordering::SeqCst);
                        Err((refused.value)())
                    }
                }
            }
        }
    }
}
