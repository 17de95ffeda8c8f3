// What a shell acts on.
ghost use Rattle.std.specs.Prelude.{◌≡◌, ◌<◌, ◌≤◌, ◌+◌, ℕ, Bool, true, IfOk, IfErr, OnErr, length};
ghost use Rattle.kernel_ask.specs.declared.ask.Phase.TheVariants.{Made, Begun};
ghost use Rattle.kernel_ask.specs.Causes.{CountsRefusal, CountsForkRefusal, CoversRefusals};
ghost use Rattle.kernel_ask.specs.Seen.{Seen, IsIn, NoneMade, acted, forked, child_of, marked, waited_for, ended, root_of, GivesBack, SaysTooMany};

use crate::ask::{Answer, Call, ForkRefused, Handle, Snapshot};
use ksh_base::Memory;
use std::alloc::Global;

/// The part of the world that one shell sees.
///
/// Each call keeps the origin, the name and whether the transcript is told, and leaves the rest as
/// it was but for what its clauses say. On want of memory everything is as before.
pub trait Port<F: Snapshot>: Sized + Send + Drop {
    /// The transcript where it is told, the phase of each forked shell, whether the shell lives,
    /// its name, and which world the port came from.
    ghost sees: { Self → Seen F };

    /// How often the world has refused an ask, a number that never falls.
    ghost refusals: { Self → ℕ };

    /// No transcript has more refusals than its port has counted.
    ghost covers: { (p : Self) → CoversRefusals (sees p).done (refusals p) };

    /// Asks for something and appends the ask with its answer.
    fn act(&mut self, alloc: Global, call: Call) -> Result<Answer, Memory>
        requires live { (sees self.old).live ≡ true }
        ensures ok { IfOk result (λ a. sees self.new ≡ acted (sees self.old) call a) }
        ensures err { OnErr result (sees self.new ≡ sees self.old) }
        ensures cause { IfOk result (CountsRefusal (refusals self.old) (refusals self.new)) }
        ensures count { OnErr result (refusals self.new ≡ refusals self.old) };

    /// Makes a port for a shell that is to start from `start` with the handles `keep`; its number
    /// is one more than the forks before. Takes the memory of the later `mark` and `waited`, and
    /// of the child's `end`. A refusal is appended, and the start comes back.
    fn fork(
        &mut self,
        alloc: Global,
        start: F,
        keep: &[Handle],
    ) -> Result<(u32, Self), ForkRefused<F>>
        requires live { (sees self.old).live ≡ true }
        requires none_made { NoneMade (sees self.old).children }
        ensures number { IfOk result (λ r. r.0 ≡ length (sees self.old).children + 1) }
        ensures parent { IfOk result (λ r. sees self.new ≡ forked (sees self.old) start keep.now) }
        ensures child { IfOk result (λ r. sees r.1 ≡ child_of (sees self.old) r.0) }
        ensures fresh { IfOk result (λ r. refusals r.1 ≡ 0) }
        ensures kept { IfOk result (λ r. refusals self.new ≡ refusals self.old) }
        ensures err { IfErr result (λ e. GivesBack (sees self.old) start keep.now (sees self.new) e) }
        ensures cause { IfErr result (CountsForkRefusal (refusals self.old) (refusals self.new)) }
        ensures many { IfErr result (SaysTooMany (sees self.old).children) };

    /// Says whether the last fork has begun, or there was no thread for it.
    fn mark(&mut self, child: u32, begun: bool)
        requires live { (sees self.old).live ≡ true }
        requires last { child ≡ length (sees self.old).children }
        requires made { IsIn (sees self.old).children child Made }
        ensures marks { sees self.new ≡ marked (sees self.old) child begun }
        ensures count { refusals self.new ≡ refusals self.old };

    /// Says with what status a forked shell ended. It is called once the shell was joined.
    fn waited(&mut self, child: u32, status: u8)
        requires live { (sees self.old).live ≡ true }
        requires begun { IsIn (sees self.old).children child Begun }
        ensures waits { sees self.new ≡ waited_for (sees self.old) child status }
        ensures count { refusals self.new ≡ refusals self.old };

    /// Gives up every handle of the shell. Appends nothing.
    fn end(&mut self)
        requires live { (sees self.old).live ≡ true }
        ensures ends { sees self.new ≡ ended (sees self.old) }
        ensures count { refusals self.new ≡ refusals self.old };
}

/// Where shells run.
pub trait World<F: Snapshot>: Sized {
    type Port: Port<F> + 'static;

    /// Which world it is.
    ghost origin: { Self → ℕ };

    /// Whether its ports tell their transcripts.
    ghost told: { Self → Bool };

    /// The port of the root shell.
    fn root(self, alloc: Global) -> Result<Self::Port, Memory>
        ensures root { IfOk result (λ p. Self.Port.sees p ≡ root_of (origin self) (told self)) }
        ensures count { IfOk result (λ p. Self.Port.refusals p ≡ 0) };
}
