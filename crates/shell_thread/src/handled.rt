// A job that was started, and what is promised of its answer.
ghost use Rattle.std.specs.Prelude.{◌≡◌};

use std::marker::Model;
use std::snapshot::Snapshot;
use std::thread::{Promise, PromisedHandle, Threads};

// An answer that is there, and keeps its promise.
#[derive(Drop)]
struct Answered<T, K: Promise<T>> {
    value: T,
    promise: Snapshot<K>,
}

impl<T, K: Promise<T>> Model for Answered<T, K> {
    ghost Value = { K };

    ghost coded = { K.code };

    ghost view = { λ s. s.promise.value };

    ghost invariant = { λ s. K.kept_by s.promise.value s.value };
}

impl<T, K: Promise<T>> Answered<T, K> {
    fn new(value: T, promise: Snapshot<K>) -> Self
        requires { K.kept_by promise.value value }
        ensures { result ≡ promise.value }
    {
        Answered { value, promise }
    }

    fn take(self) -> T
        ensures { K.kept_by self result }
    {
        let Answered { value, promise: _ } = self;
        value
    }
}

#[derive(Drop)]
enum Kind<T, K: Promise<T>> {
    Thread(PromisedHandle<T, K>),
    Done(Answered<T, K>),
}

/// A job that was started. Contracts see it as the promise that its answer keeps.
#[derive(Drop)]
pub struct Handled<T, K: Promise<T>, R: Threads + Copy> {
    rt: R,
    kind: Kind<T, K>,
}

impl<T, K: Promise<T>, R: Threads + Copy> Model for Handled<T, K, R> {
    ghost use Rattle.std.specs.Prelude.{ℕ};

    ghost Value = { K };

    ghost coded = { K.code };

    ghost use Rattle.shell_thread.specs.Promised.{promise_of};

    ghost view = { λ s. promise_of s.kind };
}

impl<T, K: Promise<T>, R: Threads + Copy> Handled<T, K, R> {
    /// A job that runs in a thread.
    pub fn of_thread(rt: R, handle: PromisedHandle<T, K>) -> Self
        ensures { result ≡ handle.promise }
    {
        Handled {
            rt,
            kind: Kind::Thread(handle),
        }
    }

    /// A job that has run.
    pub fn of_answer(rt: R, value: T, promise: Snapshot<K>) -> Self
        requires { K.kept_by promise.value value }
        ensures { result ≡ promise.value }
    {
        Handled {
            rt,
            kind: Kind::Done(Answered::new(value, promise)),
        }
    }

    /// The job's answer. It may wait for its thread.
    pub fn join(self) -> T
        ensures { K.kept_by self result }
    {
        let Handled { rt, kind } = self;
        match kind {
            Kind::Thread(handle) => handle.join(&rt),
            Kind::Done(answer) => answer.take(),
        }
    }
}
