// A shell, what it starts, and what it waits for.
ghost use Rattle.std.specs.Prelude.{◌≡◌, ◌<◌, ◌≤◌};

use kernel_ask::Port;
use ksh_base::ShellName;
use shell_state::Start;
use shell_thread::{Album, Handled, ShellEnd, Spawner};
use std::alloc::Global;
use std::snapshot::Snapshot;
use std::thread::Promise;

/// A shell that is to run.
#[derive(Drop)]
pub struct Forked<Po, P, A> {
    pub name: ShellName,
    pub start: Start,
    pub port: Po,
    pub spawner: P,
    pub album: A,
}

/// What a started job answers.
#[derive(Drop)]
pub enum Outcome<Po, P, A> {
    Ran(ShellEnd<Po, A>),
    Back(Forked<Po, P, A>),
}

/// The promise of a job.
#[derive(Drop)]
pub struct OutcomeOf<Po, P, A> {
    pub job: Snapshot<Forked<Po, P, A>>,
}

impl<Po: Port<Start>, P: Spawner, A: Album<Po>> Promise<Outcome<Po, P, A>> for OutcomeOf<Po, P, A> {
    ghost use Rattle.shell_family.specs.Family.{Keeps};

    ghost kept_by = { λ p r. Keeps Po.sees A.list P.faults p.job.value r };
}

/// A child that was begun.
#[derive(Drop)]
pub enum Awaited<Po: Port<Start>, P: Spawner, A: Album<Po>> {
    Running(Handled<Outcome<Po, P, A>, OutcomeOf<Po, P, A>, P::Rt>),
    Joined(u8),
}

/// A shell that runs, but for its state.
#[derive(Drop)]
pub struct Shell<Po: Port<Start>, P: Spawner, A: Album<Po>> {
    pub alloc: Global,
    pub name: ShellName,
    pub port: Po,
    pub spawner: P,
    pub album: A,
    pub handles: Vec<(u32, Awaited<Po, P, A>)>,
}
